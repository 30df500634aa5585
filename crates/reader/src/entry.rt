// The reader, for whatever it is given (document 01, "What comes back").
ghost use Rattle.coder.specs.Answers.{ReadAnswer, answered};

use crate::check::test;
use crate::frames::receive;
use coder::answers::done;
use coder::states::{Coded, State};
use counts::counts_of;
use line::work_out;
use refusals::Refusal;

// The bits of a data frame's labels, and the next state.
pub fn read(st: State, labels: &[u16], bits: &mut [u8]) -> Result<Coded, Refusal>
    ensures { ReadAnswer st labels.now bits.old (answered st result) bits.new }
{
    let c = work_out(st.asked)?;
    let counts = counts_of(c.shaping.rings());
    let numbers = test(c, &counts, st, labels, bits.len())?;
    let moved = receive(st, c, labels, &numbers, bits);
    Ok(done(c, st, moved))
}
