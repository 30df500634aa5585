// Workerwax, crate `info`: the INFO sequences by which the two ends of a line tell each other what they can (V.34, clause 10.1.2.3).
//
// What does it do? `info0::read` takes the fields of an INFO0 sequence out of its bits, `info0::write` makes the bits of some fields. The
// mark of the settings is one of these fields: so it comes from the line. `info1c::read` makes a line report of an INFO1c sequence, which
// says what is proposed for each symbol rate, and `info1c::write` makes its bits.
// How does it work? A sequence is two constants, a picture of its places and a table of its fields, and a struct that names them. Crate
// `fields` reads and writes by the constants, and crate `offset` knows what the count of INFO1c is in hertz. There is no trait over the
// sequences: what is left of a reader or a writer is one call and what differs, the names, the count and its hertz.
#![tactic(auto)]

pub mod info0;
pub mod info1c;
