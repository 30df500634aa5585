// Workerwax, crate `frame`: one mapping frame of V.34, from its bits to its sixteen labels and back (clauses 9.3 and 9.5).
//
// What does it do? `write_frame` takes the bits of one mapping frame, already scrambled, and its eight rings, and writes sixteen
// labels: for each of four 4D symbols two 2D labels, Z and I1. `rings_read` takes the rings out of sixteen labels, `read_frame` takes
// the labels and the number of their rings back to the bits, and `check` has a test for each refusal of labels. `next_of` steps from
// frame to frame of a data frame.
// How does it work? The shape says how many bits of a frame go where. The symbols go one after the other, with Z carried on. Which
// rings a number has is not asked here: the caller maps and ranks.
#![tactic(auto)]

pub mod check;
pub mod next;
pub mod read;
pub mod shape;
pub mod symbol;
pub mod write;
