// Workerwax, crate `fields`: reader and writer of any sequence of bits that carries fields (V.34, clause 10.1.2.3).
//
// What does it do? `read_sequence` tests a sequence and takes the numbers of its fields out; `write_sequence` makes the sequence of some
// numbers. Both are told which sequence by a picture of its places and a table of its fields, so that a new one needs no new loop: as
// functions they take the two in slices, with room for what they work out, and as methods they belong to a `Layout`, which is lent the two and
// knows their lengths beforehand.
// How does it work? `picture` tests the fixed places, and takes out what stands in the free ones or puts it there; `check` works out the
// check over that; `table` goes from bits to numbers and back; `sequence` puts the three together.
#![tactic(auto)]

pub mod check;
pub mod picture;
pub mod sequence;
pub mod table;
