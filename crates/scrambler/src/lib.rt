// Workerwax, crate `scrambler`: the self-synchronising scrambler of V.34, clause 7, and its inverse.
//
// What does it do? Each output bit is the input bit plus, modulo 2, two earlier output bits: those 18 and 23 places back at the
// calling end, 5 and 23 places back at the answering end. The inverse adds the received bits in the same places.
// How does it work? The last 23 output bits are one number, the register; a step takes two of its bits and pushes one in.
#![tactic(auto)]

ghost use Rattle.std.specs.Prelude.{◌≡◌, ◌≤◌, ◌<◌, ◌^◌};
ghost use Rattle.scrambler.specs.Parts.{Scrambled, Descrambled, Passed};
ghost use Rattle.scrambler.specs.Requires.{Part};
ghost use Rattle.scrambler.specs.Scrambler.{scrambled_bit, push};

// The scrambled bit for a bit, or the bit for a scrambled bit: the two are one sum. The role stays a number, 0 at the calling end, since
// `scrambled_bit` and the calls for C have it so.
#[tactic(auto, unfolding(crate::specs::Scrambler::scrambled_bit, crate::specs::Scrambler::place_back, crate::specs::Scrambler::near_place))]
pub fn through(role: u64, register: u64, bit: u64) -> u64
    requires { bit ≤ 1 }
    ensures { result ≡ scrambled_bit role register bit }
{
    let near = if role == 0 {
        register / 131072
    } else {
        register / 16
    };
    let far = register / 4194304;
    (bit + near % 2 + far % 2) % 2
}

// The register after one more scrambled bit. That a register is below 2^23 stays a `requires`, and role and register stay two numbers:
// `scrambled_bit` and `push` speak of any role and any number.
#[tactic(auto, unfolding(crate::specs::Scrambler::push))]
pub fn pushed(register: u64, bit: u64) -> u64
    requires { (register < 2 ^ 23) × (bit ≤ 1) }
    ensures { result ≡ push register bit }
{
    (2 * register + bit) % 8388608
}

// The sums for a slice of bits, at the start of `out`, and the register after them: it takes the sums, or on the way back what was
// received. `out` is written by its index, since of what a zip with `iter_mut` writes nothing is known.
fn pass<const BACK: bool>(role: u64, register: u64, bits: &[u8], out: &mut [u8]) -> u64
    requires { Part register bits.now out.old }
    ensures { Passed BACK role register bits.now out.old result out.new }
{
    let mut held = register;
    for (i, bit) in bits.iter().enumerate() {
        let bit = u64::from(*bit);
        let sum = through(role, held, bit);
        out[i] = sum as u8;
        held = pushed(held, if BACK { bit } else { sum });
    }
    held
}

// The scrambled bits for a slice of bits, at the start of `out`, and the register after them. This and the inverse below keep their names:
// docs/PROMISES.md names both, and each has a definition of its own, `Scrambled` and `Descrambled`.
pub fn scramble_part(role: u64, register: u64, bits: &[u8], out: &mut [u8]) -> u64
    requires { Part register bits.now out.old }
    ensures { Scrambled role register bits.now out.old result out.new }
{
    pass::<false>(role, register, bits, out)
}

// The bits for a slice of scrambled bits, at the start of `bits`, and the register after them.
pub fn descramble_part(role: u64, register: u64, outs: &[u8], bits: &mut [u8]) -> u64
    requires { Part register outs.now bits.old }
    ensures { Descrambled role register outs.now bits.old result bits.new }
{
    pass::<true>(role, register, outs, bits)
}
