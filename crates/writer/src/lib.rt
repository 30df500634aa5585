// Workerwax, crate `writer`: one data frame of V.34, from user bits to labels (document 01, "From bits to labels").
//
// What does it do? `write` turns the bits of a data frame into labels for the caller's trellis coder. It tests everything itself, and a
// refusal leaves the state and the lent labels.
// How does it work? The settings and the counts are worked out once in a call. Then the mapping frames go one after the other, straight
// into the lent buffer: bits are scrambled, S gives the rings, and these and the other bits the labels. What it must answer `coder` says.
#![tactic(auto)]

pub mod entry;
pub mod frames;

pub use entry::write;
