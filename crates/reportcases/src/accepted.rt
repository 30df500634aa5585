// INFO1c sequences that are read, as binary numbers. The marks part fill, sync, the two reductions, MD and three blocks; three blocks, the
// offset, the check of bits 12 to 88, and fill.
use crate::reading::{mixed, reads, spelled};
use std::io;

// The offset and the check of the mixed sequence with the count −37.
pub const OFFSET: u64 = 0b1101101111;

pub const CHECK: u64 = 0b0001101110110001;

pub fn cases(rt: &impl Print) -> io::Result<()> {
    println!(rt;
        "INFO1c read: refusal, the fields of Table 15 in its order, count, and 1 and a double's bits for a reading"
    )?;
    reads(rt, &mixed(OFFSET, CHECK), 109)?;
    let zeros = spelled(
        0b1111_01110010_000_000_0000000_000000000_000000000_000000000,
        0b000000000_000000000_000000000_0000000001_0010111000000010_1111, // −512
    );
    reads(rt, &zeros, 109)?;
    let most = spelled(
        0b1111_01110010_111_111_1111111_101010111_101010111_101010111,
        0b101010111_101010111_101010111_1111111110_1000111110101101_1111, // 511
    );
    reads(rt, &most, 109)?;
    reads(rt, &mixed(0b1000000001, 0b1010010111101000), 109)?; // −511
    reads(rt, &mixed(0b1110011111, 0b1111010010101110), 109)?; // −25
    reads(rt, &mixed(0b1111111111, 0b1001100000001000), 109)?; // −1
    reads(rt, &mixed(0b0000000000, 0b1101001110101011), 109)?; // 0
    reads(rt, &mixed(0b1000000000, 0b1011010111001001), 109)?; // 1
    reads(rt, &mixed(0b1001100000, 0b1101100101101111), 109)?; // 25
    reads(rt, &mixed(0b1100010000, 0b1001010011001001), 109) // 35, which times 0.02 is another double than over 50
}
