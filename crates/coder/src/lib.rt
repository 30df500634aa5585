// Workerwax, crate `coder`: one data frame of V.34, as writer and reader share it (document 01, "From bits to labels").
//
// What does it do? `start` and `short_start` make a state. specs/ say what the writer and the reader answer to whatever they are given, and
// proofs/ that these undo each other. The code of the two stands in crates of their own, `writer` and `reader`.
// How does it work? A state is the settings as they were asked for, the scrambler's register and Z. `answers` has the test and the answer
// that both directions share.
#![tactic(auto)]

pub mod answers;
pub mod starts;
pub mod states;

pub use starts::{short_start, start};
pub use states::{Coded, Moved, State};
