// One line for each sequence that is read: its bits, how many are lent, the refusal number, and the fields in the order of V.34's Table 14.
ghost use Rattle.std.specs.Prelude.{◌≤◌, ◌<◌};

use info::info0::{Info0, read};
use refusals::code;
use spelling::show::{Parts, Spaced};
use spelling::spell::spell;
use std::io;

// Where the parts of a sequence begin: fill, sync, bits 12 to 28, their check, fill, and what stands behind.
pub const STARTS: [usize; 6] = [0, 4, 12, 29, 45, 49];

// Each by its name, so that a name which stands for another bit is seen.
fn named(f: Info0) -> [u64; 14] {
    [
        f.support_2743,
        f.support_2800,
        f.support_3429,
        f.low_3000,
        f.high_3000,
        f.low_3200,
        f.high_3200,
        f.allowed_3429,
        f.reduction,
        f.difference,
        f.cme,
        f.mark,
        f.clock,
        f.acknowledged,
    ]
}

// The 49 binary digits of a number, and two ones behind them.
fn spelled(sequence: u64) -> [u8; 51] {
    let mut bits = [1u8; 51];
    spell(sequence, &mut bits[..49]);
    bits
}

// The reader is lent the first bytes of 51, and all are shown. After a refusal the fields are zeros.
fn shown(rt: &impl Print, bits: &[u8; 51], lent: usize) -> io::Result<()>
    requires { lent ≤ 51 }
{
    let answer = read(&bits[..lent]);
    let parts = Parts {
        bytes: bits,
        starts: &STARTS,
    };
    let refusal = code(answer);
    let fields = answer.map_or([0; 14], named);
    println!(rt; "read{parts}, lent {lent}: {refusal},{}", Spaced(&fields))
}

pub fn reads(rt: &impl Print, sequence: u64) -> io::Result<()> {
    shown(rt, &spelled(sequence), 49)
}

// Another number of bytes than 49, at most 51.
pub fn reads_lent(rt: &impl Print, sequence: u64, lent: usize) -> io::Result<()> {
    if lent <= 51 {
        shown(rt, &spelled(sequence), lent)?;
    }
    Ok(())
}

// A byte in the place of a bit. The remainder is `at` itself, and spares a test.
pub fn reads_byte(rt: &impl Print, sequence: u64, at: usize, byte: u8) -> io::Result<()> {
    let mut bits = spelled(sequence);
    bits[at % 51] = byte;
    shown(rt, &bits, 49)
}
