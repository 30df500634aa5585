// Bits to send, drawn by a linear congruence: no two data frames of the program carry the same ones.
use crate::setting::BITS;

fn next(held: u64) -> u64 {
    (held % 2147483648 * 1103515245 + 12345) % 2147483648
}

// As many as the longest data frame has.
pub fn bits_from(seed: u64) -> [u8; BITS] {
    let mut bits = [0u8; BITS];
    let mut held = seed;
    for bit in &mut bits {
        held = next(held);
        *bit = (held / 65536 % 2) as u8;
    }
    bits
}
