// Workerwax, crate `counts`: the counts of V.34, clause 9.4, (9-3) to (9-6), laid out for an M, and places among their sums.
//
// What does it do? `counts_of` says how many pairs and how many fours of rings below M have each sum, and how many sets of eight are
// lighter than each weight. `locate` and `locate_weight` find where a number lies among running sums, and `lighter_sum` gives such a sum.
// How does it work? Pairs go by the formula, fours one after the other by sums of pairs, and the lighter eights come from a table of
// 1,242 numbers, whose one reader is `lighter_row`. It is done once for an M; `rings` then goes by the rows. Among sums of products a
// place is sought from 0 up: among sums of products each trial takes one product off, and among the lighter eights it is one comparison.
#![tactic(auto)]

pub mod counts;
pub mod places;
mod ring_count;
pub mod rows;
mod table;

pub use counts::counts_of;
pub use places::{Located, lighter_sum, locate, locate_weight};
pub use rows::Counts;
