// Workerwax, crate `reader`: one data frame of V.34, from labels back to user bits (document 01, "What comes back").
//
// What does it do? `read` turns the labels of a data frame back into its bits, and refuses what the writer can't have written. A refusal
// leaves the state and the lent bits.
// How does it work? The settings and the counts are worked out once in a call. Each refusal has a pass of its own over the whole data
// frame, and the pass that ranks the rings keeps their numbers. Then the mapping frames are read one after the other, straight into the
// lent buffer. What it must answer `coder` says.
#![tactic(auto)]

pub mod check;
pub mod entry;
pub mod frames;

pub use entry::read;
