// One data frame there and back, and there again.
use coder::State;
use trials::{BITS, LABELS, Setting, bits_from};

// A data frame of a setting from a state: the state after it, if what is read back is what was written, with the same number of bits and the
// same next state, and written again gives the same labels.
pub fn round_from(setting: &Setting, state: State, seed: u64) -> Option<State> {
    let n = setting.bits;
    let m = setting.labels;
    let bits = bits_from(seed);
    let mut labels = [0u16; LABELS];
    let written = writer::write(state, &bits[..n], &mut labels[..m]).ok()?;
    let mut back = [9u8; BITS];
    let read = reader::read(state, &labels[..m], &mut back[..n]).ok()?;
    let mut again = [0u16; LABELS];
    writer::write(state, &back[..n], &mut again[..m]).ok()?;
    let answered = written == read && written.bits == n as u64;
    let agrees = answered && &back[..n] == &bits[..n] && &again[..m] == &labels[..m];
    agrees.then_some(written.state)
}
