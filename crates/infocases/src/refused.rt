// INFO0 sequences that are refused: the mixed one of `accepted` with something wrong. The fields are zeros.
use crate::reading::{reads, reads_byte, reads_lent};
use std::io;

const MIXED: u64 = 0b1111_01110010_10110011011001100_1011010001100010_1111;

// Refused for their form. Of the bytes above 1 a 3 stands for a 1 and a 2 for a 0: a test of the lowest bit alone would let them pass. With
// the last of them sync is wrong too.
pub fn forms(rt: &impl Print) -> io::Result<()> {
    println!(rt; "\n8: not 49 bytes")?;
    reads_lent(rt, MIXED, 0)?;
    reads_lent(rt, MIXED, 48)?;
    reads_lent(rt, MIXED, 50)?;
    println!(rt; "\n9: a byte above 1")?;
    reads_byte(rt, MIXED, 2, 3)?;
    reads_byte(rt, MIXED, 4, 2)?;
    reads_byte(rt, MIXED, 28, 2)?;
    reads_byte(rt, MIXED, 44, 2)?;
    reads_byte(rt, MIXED, 48, 3)?;
    reads_byte(
        rt,
        0b1111_01110011_10110011011001100_1011010001100010_1111,
        44,
        2,
    )?;
    println!(rt; "\n16: fill or sync wrong")?;
    reads(rt, 0b0111_01110010_10110011011001100_1011010001100010_1111)?; // bit 0 turned
    reads(rt, 0b1110_01110010_10110011011001100_1011010001100010_1111)?; // bit 3 turned
    reads(rt, 0b1111_11110010_10110011011001100_1011010001100010_1111)?; // bit 4 turned
    reads(rt, 0b1111_01110011_10110011011001100_1011010001100010_1111)?; // bit 11 turned
    reads(rt, 0b1111_01110010_10110011011001100_1011010001100010_0111)?; // bit 45 turned
    reads(rt, 0b1111_01110010_10110011011001100_1011010001100010_1110)?; // bit 48 turned
    reads(rt, 0b1111_01001110_10110011011001100_1011010001100010_1111)?; // sync rightmost first
    reads(rt, 0b1110_01110010_10110011011001110_1001010000100001_1111) // bits 3 and 44 turned, clock 3
}

// Refused for what they say.
pub fn contents(rt: &impl Print) -> io::Result<()> {
    println!(rt; "\n17: check wrong")?;
    reads(rt, 0b1111_01110010_00110011011001100_1011010001100010_1111)?; // bit 12 turned
    reads(rt, 0b1111_01110010_10110011011001101_1011010001100010_1111)?; // bit 28 turned
    reads(rt, 0b1111_01110010_10110011011001100_0011010001100010_1111)?; // bit 29 turned
    reads(rt, 0b1111_01110010_10110011011001100_1011010001100011_1111)?; // bit 44 turned
    reads(rt, 0b1111_01110010_10110011011001100_0100011000101101_1111)?; // check lowest power first
    reads(rt, 0b1111_01110010_10110011011001100_1000111001111100_1111)?; // check with no preset
    reads(rt, 0b1111_01110010_10110011001101100_1000000110001000_1111)?; // difference 6, bit 29 turned
    reads(rt, 0b1111_01110010_10110011011101100_1001000100000000_1111)?; // difference 7, bit 36 turned
    reads(rt, 0b1111_01110010_10110011011001110_1001010000100001_1111)?; // clock 3, bit 44 turned
    println!(rt; "\n18: a field out of its range")?;
    reads(rt, 0b1111_01110010_10110011001101100_0000000110001000_1111)?; // difference 6
    reads(rt, 0b1111_01110010_10110011011101100_1001000000000000_1111)?; // difference 7
    reads(rt, 0b1111_01110010_10110011011001110_1001010000100000_1111) // clock 3
}
