// Workerwax, crate `trials`: what the program `rounds` tries writer and reader on.
//
// What does it do? `setting_of` gives the settings one after the other, each at another start, and `bits_from` bits to send. The functions of
// `part` call writer and reader with the front of a longer buffer, and compare fronts.
// How does it work? Little is promised here beyond what the types say: it is proved that the functions end, and that the data frame of a
// setting has room in buffers of `BITS` and `LABELS`.
#![tactic(auto)]

pub mod draw;
pub mod part;
pub mod setting;

pub use draw::bits_from;
pub use part::{read_part, same_labels, same_part, write_part};
pub use setting::{BITS, LABELS, Setting, setting_of};
