// Workerwax, crate `rings`: the shell mapper of V.34, clause 9.4, and its inverse, by the counts.
//
// What does it do? `map` turns a number S below 2^K into eight rings below M, `rank` turns eight rings back into their number,
// and each refuses whatever else it is given.
// How does it work? The crate `counts` lays out how many pairs and fours of rings have each sum, and how many eights are lighter, once
// for an M, and finds places among these counts. `rings_of` and `number_of` go by them, for many numbers of one M; `map` and `rank` are
// thin over the two.
#![tactic(auto)]

pub mod check;
pub mod entry;
pub mod four;
pub mod number;
pub mod pair;

pub use entry::{map, rank};
pub use number::{number_of, rings_of};
