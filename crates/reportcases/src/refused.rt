// INFO1c sequences that are refused: the mixed one of `accepted` with something wrong. The fields and the count are 0, with no reading.
ghost use Rattle.std.specs.Prelude.{◌+◌, ◌≤◌, ◌<◌};

use crate::accepted::{CHECK, OFFSET};
use crate::reading::{mixed, reads};
use bits::put_digits;
use std::io;

// Bytes in the places of bits, and so many lent. All places below are inside; to ask it of a list takes a clause over its pairs, and a change
// that was left out would be seen in the bits that are printed.
fn bytes(rt: &impl Print, changes: &[(usize, u8)], lent: usize) -> io::Result<()>
    requires { lent ≤ 111 }
{
    let mut bits = mixed(OFFSET, CHECK);
    for (place, byte) in changes {
        if let Some(bit) = bits.get_mut(*place) {
            *bit = *byte;
        }
    }
    reads(rt, &bits, lent)
}

// A byte in the place of a bit.
fn byte(rt: &impl Print, place: usize, byte: u8) -> io::Result<()> {
    bytes(rt, &[(place, byte)], 109)
}

// A filter or a rate from a place on, lowest weight first, and the check of it.
fn four(rt: &impl Print, at: usize, number: u64, check: u64) -> io::Result<()>
    requires { at + 4 ≤ 111 }
{
    let mut bits = mixed(OFFSET, check);
    put_digits(number, 4, &mut bits, at);
    reads(rt, &bits, 109)
}

// Refused for their form. Of the bytes above 1 a 3 stands for a 1 and a 2 for a 0: a test of the lowest bit alone would let them pass.
pub fn forms(rt: &impl Print) -> io::Result<()> {
    println!(rt; "\n8: not 109 bytes")?;
    bytes(rt, &[], 0)?;
    bytes(rt, &[], 108)?;
    bytes(rt, &[], 110)?;
    println!(rt; "\n9: a byte above 1")?;
    for (place, bit) in [(0, 3), (4, 2), (27, 3), (88, 3), (102, 2), (108, 3)] {
        byte(rt, place, bit)?;
    }
    println!(rt; "\n16: fill or sync wrong")?;
    for (place, bit) in [(0, 0), (3, 0), (4, 1), (11, 1), (105, 0), (108, 0)] {
        byte(rt, place, bit)?;
    }
    four(rt, 6, 12, CHECK) // sync rightmost first
}

fn checks(rt: &impl Print) -> io::Result<()> {
    println!(rt; "\n17: check wrong")?;
    for (place, bit) in [(12, 0), (88, 0), (89, 1), (104, 0)] {
        byte(rt, place, bit)?;
    }
    reads(rt, &mixed(OFFSET, 0b0000010111001000), 109)?; // of bits 12 to 87
    reads(rt, &mixed(OFFSET, 0b1111000001101111), 109)?; // of bits 4 to 88
    reads(rt, &mixed(OFFSET, 0b1000110111011000), 109)?; // lowest power first
    reads(rt, &mixed(OFFSET, 0b0010010110010010), 109) // with no preset
}

fn ranges(rt: &impl Print) -> io::Result<()> {
    println!(rt; "\n18: a field out of its range")?;
    four(rt, 26, 11, 0b0000010101101011)?;
    four(rt, 35, 11, 0b0111010101000111)?;
    four(rt, 44, 11, 0b1000011100110111)?;
    four(rt, 53, 11, 0b1111010101100011)?;
    four(rt, 62, 11, 0b1011101100110111)?;
    four(rt, 71, 11, 0b0111100000011101)?;
    four(rt, 30, 15, 0b0011111111101110)?;
    four(rt, 39, 15, 0b0111101101010010)?;
    four(rt, 48, 15, 0b0111110011000001)?;
    four(rt, 57, 15, 0b0101100111000100)?;
    four(rt, 66, 15, 0b1001110101110111)?;
    four(rt, 75, 15, 0b1001000101101011)
}

fn several(rt: &impl Print) -> io::Result<()> {
    println!(rt; "\nseveral at once")?;
    bytes(rt, &[(40, 2), (4, 1)], 108)?; // 8, 9, 16
    bytes(rt, &[(11, 1), (104, 3)], 109)?; // 9, 16
    bytes(rt, &[(3, 0), (29, 1)], 109)?; // 16, 17, 18
    bytes(rt, &[(29, 1)], 109) // 17, 18
}

// Refused for what they say. In the last four lines several hold, and the first is given: with bit 29 the filter at 2400 is 11, and the
// check is wrong.
pub fn contents(rt: &impl Print) -> io::Result<()> {
    checks(rt)?;
    ranges(rt)?;
    several(rt)
}
