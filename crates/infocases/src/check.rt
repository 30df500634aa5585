// The check of parts of the nine bytes "123456789", of which 29B1 is known for the whole.
use spelling::check::tested_crc;
use spelling::spell::spell;
use std::io;

// The bits of nine bytes, the highest of each byte first.
fn bits_of(bytes: &[u8; 9]) -> [u8; 72] {
    let mut bits = [0u8; 72];
    for (bits, byte) in bits.chunks_exact_mut(8).zip(bytes) {
        spell(u64::from(*byte), bits);
    }
    bits
}

// A part of them: where it begins and ends is printed. All six of `cases` lie within and are bits; one that did not would print no line, where
// the expected output has six.
fn part(rt: &impl Print, bits: &[u8; 72], from: usize, to: usize) -> io::Result<()> {
    let Some(check) = bits.get(from..to).and_then(tested_crc) else {
        return Ok(());
    };
    println!(rt; "bits {from} to {to}: {check:04x} {check}")
}

pub fn cases(rt: &impl Print) -> io::Result<()> {
    println!(rt;
        "check of the bits of \"123456789\", highest first; of all 72 it is 29B1, which is 10673"
    )?;
    let bits = bits_of(b"123456789");
    for (from, to) in [(0, 72), (8, 16), (0, 1), (2, 3), (0, 0), (72, 72)] {
        part(rt, &bits, from, to)?;
    }
    Ok(())
}
