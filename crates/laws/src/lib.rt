// Workerwax, crate `laws`: notions that have nothing to do with modems, and what is proved of them. It has no code: its
// definitions stand in specs/, its theorems in proofs/, and the crates above cite both.
#![tactic(auto)]
