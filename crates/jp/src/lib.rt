// Workerwax, crate `jp`: the sequence Jp, by which a digital modem tells the analogue one how to send (V.92, clause 8.6.3, Table 22).
//
// What does it do? `sequence::read` takes the fraction of a symbol and two constellation sizes out of the 72 bits that were received, and
// says what the fraction is as a float; `sequence::write` makes the bits of them.
// How does it work? As for the INFO sequences of V.34: two constants, a picture of the places and a table of the fields, by which crate
// `fields` reads and writes. Start bits stand between the fields, so they are of the picture, and the check leaves them out. What is
// reserved is a field that may be anything, and that the struct does not show.
#![tactic(auto)]

pub mod part;
pub mod sequence;
