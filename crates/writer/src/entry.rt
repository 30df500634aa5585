// The writer, for whatever it is given (document 01, "What comes back").
ghost use Rattle.std.specs.Prelude.{◌≡◌, ◌≤◌};
ghost use Rattle.refusals.specs.Numbers.{code};
ghost use Rattle.line.specs.Worked.{Accepted};
ghost use Rattle.coder.specs.Answers.{WriteAnswer, answered, write_refusal};

use crate::frames::send;
use bits::all_bits;
use coder::answers::{done, is_exact};
use coder::states::{Coded, State};
use line::{Settings, work_out};
use refusals::Refusal;

// Refusals 7, `UnfitState`, 8, `WrongLength`, and 9, `NotABit`, for accepted settings. These stand beside the state, since `write_refusal`
// speaks of both. P is at most 16, as `is_exact` asks.
#[tactic(auto, using(std::proofs::lemmas::Bool::Decides::nat_tests), unfolding(laws::specs::Choice::refusal))]
fn test(c: Settings, st: State, bits: &[u8], lent: usize) -> Result<(), Refusal>
    requires { c.frames ≤ 16 }
    ensures { code result ≡ write_refusal (Accepted c) st bits.now lent }
{
    if st.is_unfit() {
        return Err(Refusal::UnfitState);
    }
    if !is_exact(c, bits.len(), lent) {
        return Err(Refusal::WrongLength);
    }
    if !all_bits(bits) {
        return Err(Refusal::NotABit);
    }
    Ok(())
}

// The labels of a data frame's bits, and the next state.
pub fn write(st: State, bits: &[u8], out: &mut [u16]) -> Result<Coded, Refusal>
    ensures { WriteAnswer st bits.now out.old (answered st result) out.new }
{
    let c = work_out(st.asked)?;
    test(c, st, bits, out.len())?;
    let moved = send(st, c, bits, out);
    Ok(done(c, st, moved))
}
