// One line for each sequence that is read: its bits, how many are lent, the refusal number, the fields in the order of V.34's Table 15, the
// count of the offset, and the reading in hertz.
ghost use Rattle.std.specs.Prelude.{◌≤◌, ◌<◌, IfOk};
ghost use Rattle.offset.specs.Requires.{NoNan};

use crate::show::{Named, sequence};
use info::info1c::{Info1c, Report, read};
use offset::reading::{is_reading, pattern_of};
use refusals::{Refusal, code};
use spelling::spell::spell;
use std::io;

// Bits 0 to 51 and bits 52 to 108, each as a binary number, and two ones behind them.
pub fn spelled(front: u64, back: u64) -> [u8; 111] {
    let mut bits = [1u8; 111];
    spell(front, &mut bits[..52]);
    spell(back, &mut bits[52..109]);
    bits
}

// The mixed sequence, in which all blocks differ, with the ten bits of an offset and the sixteen of a check.
pub fn mixed(offset: u64, check: u64) -> [u8; 111] {
    let mut bits = spelled(
        0b1111_01110010_101_010_0010011_111001010_001010111_100000011,
        0b011101000_110101011_001001001_0000000000_0000000000000000_1111,
    );
    let (offset_bits, check_bits) = bits[79..105].split_at_mut(10);
    spell(offset, offset_bits);
    spell(check, check_bits);
    bits
}

// Any bits, read: the reading is never a NaN, and so it has a bit pattern of its own.
pub fn report_of(bits: &[u8]) -> Result<Report, Refusal>
    ensures { IfOk result (λ report. NoNan report.reading) }
{
    read(bits)
}

// The reader is lent the first bytes of 111, and all are shown. After a refusal the fields and the count are 0, with no reading. The remainder
// is their number itself, and spares a test.
pub fn reads(rt: &impl Print, bits: &[u8; 111], lent: usize) -> io::Result<()> {
    let answer = report_of(&bits[..lent % 112]);
    let Report {
        fields,
        count,
        reading,
    } = answer.unwrap_or(Report {
        fields: Info1c::from_numbers([0; 22]),
        count: 0,
        reading: None,
    });
    println!(rt;
        "read{}, lent {lent}: {},{}, count {count}, reading {} {:016x}",
        sequence(bits),
        code(answer),
        Named(fields),
        is_reading(reading),
        pattern_of(reading)
    )
}
