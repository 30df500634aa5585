// Bits as they are written.

// The binary digits of a number in the order in which they are written, as many as there is room for. Sequences come as numbers, and not as
// texts: a literal `0b..` shows its bits as they are written, in groups, and has no character to refuse.
pub fn spell(number: u64, bits: &mut [u8]) {
    let mut rest = number;
    for bit in bits.iter_mut().rev() {
        *bit = (rest % 2) as u8;
        rest /= 2;
    }
}
