// The cyclic redundancy check (V.34, clause 10.1.2.3.2), over any bits. The register is a number below 2^16, its highest weight the highest
// power: a bit moves it up by one place and, where the bit and the one that leaves differ, adds x^12 + x^5 + 1, 4129.
ghost use Rattle.std.specs.Prelude.{List, ℕ, ◌≡◌, ◌-◌, ◌≤◌, ◌<◌, length, take};
ghost use Rattle.std.specs.Iterator.{Drains, IsFinite};
ghost use Rattle.laws.specs.Put.{put};
ghost use Rattle.bits.specs.Digits.{Bits};
ghost use Rattle.sequences.specs.Picture.{inside};
ghost use Rattle.sequences.specs.Register.{step, crc};
ghost use Rattle.sequences.specs.Sequence.{sealed};
ghost use Rattle.fields.specs.Weights.{high_value, high_digits};

use crate::picture::FREE;

// The register before the first bit: sixteen ones.
const PRESET: u64 = 65535;

// The register after one bit.
fn stepped(register: u64, bit: u8) -> u64
    requires { register < 65536 }
    ensures { result ≡ high_value (step (high_digits 16 register) bit) }
{
    (register % 32768 * 2) ^ ((register / 32768 + u64::from(bit)) % 2 * 4129)
}

// The check of whatever bits come, over an iterator, so that it is said of the bits and not of where they stand.
fn check_over<I: Iterator<Item = u8> + Drop>(bits: I) -> u64
    requires can { I.can_next bits }
    requires ends { IsFinite (I.remaining bits) }
    ensures { (came : List ℕ) × Drains I.next_gives bits came × (result ≡ high_value (crc came)) }
{
    let mut register = PRESET;
    for bit in bits {
        register = stepped(register, bit);
    }
    register
}

// The check of some bits.
pub fn crc_of(bits: &[u8]) -> u64
    requires { Bits bits.now }
    ensures { result ≡ high_value (crc bits.now) }
{
    check_over(bits.iter().copied())
}

// The check of what stands in the free places of a sequence, by a loop of its own: a chain of `zip`, `filter` and `map` starts anew at each
// free place, and with it a reader of a layout takes a third to four fifths more instructions.
pub(crate) fn crc_inside(picture: &[u8], bits: &[u8]) -> u64
    requires { (length bits.now ≡ length picture.now) × Bits bits.now }
    ensures { result ≡ high_value (crc (inside picture.now bits.now)) }
{
    let mut register = PRESET;
    for (place, bit) in picture.iter().zip(bits) {
        if *place == FREE {
            register = stepped(register, *bit);
        }
    }
    register
}

// The sixteen bits of a check, highest power first, from the front on. Where there is room for these alone, they are the whole.
pub fn put_crc(crc: u64, bits: &mut [u8])
    requires { 16 ≤ length bits.old }
    ensures front { bits.new ≡ put bits.old 0 (high_digits 16 crc) }
    ensures whole { length bits.old ≡ 16 → bits.new ≡ high_digits 16 crc }
{
    for (i, bit) in bits[..16].iter_mut().enumerate() {
        *bit = (crc >> (15 - i) & 1) as u8;
    }
}

// The last sixteen places of a body get the check of those before them.
pub(crate) fn seal(body: &mut [u8])
    requires { (16 ≤ length body.old) × Bits (take (length body.old - 16) body.old) }
    ensures { body.new ≡ sealed (take (length body.old - 16) body.old) }
{
    let at = body.len() - 16;
    let check = crc_of(&body[..at]);
    put_crc(check, &mut body[at..]);
}
