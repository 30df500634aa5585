// INFO0 sequences that are read, as binary numbers. The marks part fill, sync, bits 12 to 28, their check and fill. The two last differ in
// bit 25, the mark, and in the check that goes with it.
use crate::reading::reads;
use std::io;

pub fn cases(rt: &impl Print) -> io::Result<()> {
    println!(rt;
        "\nINFO0 read: refusal, and bits 12 to 20, difference, CME, mark, clock, acknowledgement"
    )?;
    reads(rt, 0b1111_01110010_00000000000000000_0011101000011110_1111)?; // all at their least
    reads(rt, 0b1111_01110010_11111111110111011_0001100001100001_1111)?; // all at their most
    reads(rt, 0b1111_01110010_10110011011001100_1011010001100010_1111)?; // mixed
    reads(rt, 0b1111_01110010_10110011011000100_0011010101101010_1111) // mixed, mark 0
}
