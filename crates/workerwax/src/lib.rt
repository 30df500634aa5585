// Workerwax, crate `workerwax`: the calls for C (docs/INTERFACE.md, include/workerwax.h). The static library has their names.
//
// What does it do? Numbers come as 64 bits, so that no conversion on the way in turns an unstated mark into a stated one. Slices come as
// pointer and length, and numbers one by one: that is how C hands them over (include/workerwax.h). The result is 0 or the refusal number, and
// then every slice is as it was.
// How does it work? Each call is thin over an entry below, and answers the number of its outcome: `line::work_out`, `rings::map` and
// `rings::rank`, `coder::start`, `coder::short_start`, `writer::write` and `reader::read`, `info0::read` and `info0::write`, `info1c::read`
// and `info1c::write`, and `read` and `write` of `jp`. `asked` puts together what a call asks for, `layout` puts numbers and labels into
// bytes.
#![tactic(auto)]

pub mod asked;
pub mod data;
pub mod digital;
pub mod informing;
pub mod layout;
pub mod mapping;
pub mod starting;
