// Workerwax, crate `sequences`: sequences of bits that carry fields (V.34, clause 10.1.2.3), as mathematics. Its code is the struct of a field.
//
// What does it do? specs/ says what a sequence is: a picture of its places, a table of its fields, and a cyclic redundancy check over them;
// and what the reader and the writer of any sequence answer. proofs/ shows that these undo each other, which sequences are accepted, and
// what the check notices.
// How does it work? Nothing is said of one sequence or of one length. A sequence is a picture and a table that pass one computed test, and
// all else follows from that test. Crate `fields` has the code, and crate `info` the sequences.
#![tactic(auto)]

// A field of a sequence: a run of bits, lowest weight first, and the least and the most that it may be. The tables of specs/ and those of
// the code are lists of the same.
#[derive(Clone, Copy)]
pub struct Field {
    pub first: usize, // the place of its first bit
    pub width: usize, // how many bits it has
    pub least: u64,
    pub most: u64,
}

// A field on one line: the place of its first bit, its width, and the least and the most.
//
//     field!(21, 3, 0..=5)     three bits from bit 21 on, 0 to 5
#[macro_export]
macro_rules! field {
    ($first:literal, $width:literal, $least:literal ..= $most:literal) => {
        $crate::Field { first: $first, width: $width, least: $least, most: $most }
    };
}
