// Workerwax, crate `bits`: bits in bytes, each 0 or 1, and the numbers that they are.
//
// What does it do? `all_bits` tests that bytes are bits. `value_at` takes a number out of bits at a place, `put_digits` and `put_bit` put
// one there. Whatever is coded bit by bit stands on these four.
// How does it work? The lowest weight comes first: a number is halved bit by bit as it is put, and doubled as it is taken, from its last
// bit on.
#![tactic(auto)]

ghost use Rattle.std.specs.Prelude.{[], ◌∷◌, ◌≡◌, ◌+◌, ◌≤◌, ◌<◌, length, take, drop};
ghost use Rattle.laws.specs.Put.{put};
ghost use Rattle.bits.specs.Digits.{value, digits, Bits, all_bits};

// Every byte is 0 or 1. The loop goes to the end whatever it finds: with one way out, it can be compiled to take many bytes at once.
pub fn all_bits(bits: &[u8]) -> bool
    ensures { result ≡ all_bits bits.now }
{
    let mut good = true;
    for bit in bits {
        if *bit > 1 {
            good = false;
        }
    }
    good
}

// The number that n bits are, from `at` on. This and the two that follow take a place and no slice: that is their contract, docs/ARCHITECTURE.md
// names them, and a field of a table has a place and a width. `Bits` stays a `requires` here and above, and no type of lists of bits: the
// definitions speak of any list, and callers lend plain bytes.
pub fn value_at(bits: &[u8], at: usize, n: usize) -> u64
    requires { (at + n ≤ length bits.now) × (n ≤ 31) × Bits bits.now }
    ensures { result ≡ value (take n (drop at bits.now)) }
{
    let mut sum = 0;
    for bit in bits[at..at + n].iter().rev() {
        sum = 2 * sum + u64::from(*bit);
    }
    sum
}

// The n lowest bits of x, from `at` on.
pub fn put_digits(x: u64, n: usize, bits: &mut [u8], at: usize)
    requires { at + n ≤ length bits.old }
    ensures { bits.new ≡ put bits.old at (digits n x) }
{
    let mut left = x;
    for bit in &mut bits[at..at + n] {
        *bit = (left % 2) as u8;
        left /= 2;
    }
}

// One bit at `at`: `put_digits` with n = 1, said as the byte that is written. Crate `frame` puts bits one by one and knows them to be bits, so
// it gets the number itself and not its lowest digit.
pub fn put_bit(x: u64, bits: &mut [u8], at: usize)
    requires { (x ≤ 1) × (at < length bits.old) }
    ensures { bits.new ≡ put bits.old at (x ∷ []) }
{
    bits[at] = x as u8;
}
