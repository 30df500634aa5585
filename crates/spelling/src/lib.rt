// Workerwax, crate `spelling`: what the programs that show cases share to put sequences of bits together, and to print lists.
//
// What does it do? `spell` makes bits of a number as it is written, `tested_crc` is the check of bits that nothing is known of, `same`
// compares numbers, and `Spaced` and `Parts` print lists.
// How does it work? `spell`, `tested_crc` and `same` take slices of any length, and `Spaced` and `Parts` hold some. Nothing is promised here beyond
// what the types say: it is proved that the functions end and stay within their slices. Only the programs call what prints: a library rests
// on no contract of a C function.
#![tactic(auto)]

pub mod check;
pub mod same;
pub mod show;
pub mod spell;
