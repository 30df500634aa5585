// Calls with the front of a longer buffer, as long as said, and fronts compared. Nothing is answered where a buffer is too short for it.
use coder::{Coded, State};
use refusals::Refusal;

// What the writer answers of n bits and m labels.
pub fn write_part(
    st: State,
    bits: &[u8],
    n: usize,
    labels: &mut [u16],
    m: usize,
) -> Option<Result<Coded, Refusal>> {
    let bits = bits.get(..n)?;
    let labels = labels.get_mut(..m)?;
    Some(writer::write(st, bits, labels))
}

// What the reader answers of m labels and n bits.
pub fn read_part(
    st: State,
    labels: &[u16],
    m: usize,
    bits: &mut [u8],
    n: usize,
) -> Option<Result<Coded, Refusal>> {
    let labels = labels.get(..m)?;
    let bits = bits.get_mut(..n)?;
    Some(reader::read(st, labels, bits))
}

// Whether both have n bits at the front, and the same.
pub fn same_part(a: &[u8], b: &[u8], n: usize) -> bool {
    n <= a.len() && n <= b.len() && a[..n] == b[..n]
}

// Whether both have m labels at the front, and the same.
pub fn same_labels(a: &[u16], b: &[u16], m: usize) -> bool {
    m <= a.len() && m <= b.len() && a[..m] == b[..m]
}
