// Workerwax, crate `listing`: the eight rings of V.34, clause 9.4, as mathematics. It has no code: specs/ says what the
// listing order, the counts and the number of a set of rings are, proofs/ why they agree, and `rings` computes them.
#![tactic(auto)]
