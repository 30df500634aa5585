// The settings of a line, and its two starts.
ghost use Rattle.std.specs.Prelude.{◌≡◌};
ghost use Rattle.refusals.specs.Numbers.{code};
ghost use Rattle.line.specs.Asked.{asked};
ghost use Rattle.line.specs.Settings.{worked_of};
ghost use Rattle.coder.specs.State.{state_of, started, started_of, short_started_of};
ghost use Rattle.workerwax.specs.Calls.{ParametersCall, StartCall, state_numbers};

use crate::asked::asked_of;
use crate::layout::put_numbers;
use coder::State;
use refusals::{Refusal, code};

// N P b r K q M L of the settings that are asked for. That the settings are taken by `let else` here, in the call itself, is a rule of the
// project (docs/DECISIONS.md, "Settings are taken by let else").
#[tactic(auto, using(std::proofs::lemmas::Bool::Decides::nat_tests, refusals::proofs::Once::numbered), unfolding(laws::specs::Choice::refusal))]
pub fn ww_parameters(role: u64, s: u64, n: u64, shaping: u64, mark: u64, answer: &mut [u8]) -> u32
    ensures { ParametersCall (worked_of (asked role s n shaping mark)) answer.old result answer.new }
{
    let worked = line::work_out(asked_of(role, s, n, shaping, mark));
    let Ok(settings) = worked else {
        return code(worked);
    };
    if answer.len() != 32 {
        return Refusal::WrongLength.number();
    }
    put_numbers(answer, &settings.values());
    0
}

// The numbers of a state. Their order is the C interface's (docs/INTERFACE.md), so this is no `From` of crate `coder`, and the orphan rule bars
// one here. Nor are `coded_numbers` and `answer_numbers`.
pub(crate) fn numbers_of(st: State) -> [u64; 7]
    ensures { result ≡ state_numbers st }
{
    let asked = st.asked;
    [
        asked.role,
        asked.s,
        asked.n,
        asked.shaping,
        asked.mark,
        st.register,
        st.z,
    ]
}

// Lays out the state of a start, if the start isn't refused.
#[tactic(auto, using(std::proofs::lemmas::Bool::Decides::nat_tests, refusals::proofs::Once::numbered), unfolding(laws::specs::Choice::refusal))]
fn answer_start(begun: Result<State, Refusal>, answer: &mut [u8]) -> Result<(), Refusal>
    ensures { StartCall (started begun) answer.old (code result) answer.new }
{
    let state = begun?;
    if answer.len() != 28 {
        return Err(Refusal::WrongLength);
    }
    put_numbers(answer, &numbers_of(state));
    Ok(())
}

// A line at its start, with the register and Z that it is given.
pub fn ww_start(
    role: u64,
    s: u64,
    n: u64,
    shaping: u64,
    mark: u64,
    register: u64,
    z: u64,
    answer: &mut [u8],
) -> u32
    ensures { StartCall (started_of (state_of (asked role s n shaping mark) register z)) answer.old result answer.new }
{
    let asked = asked_of(role, s, n, shaping, mark);
    code(answer_start(coder::start(asked, register, z), answer))
}

// A line at its start, with shaping 0, register 0 and Z 0.
pub fn ww_short_start(role: u64, s: u64, n: u64, mark: u64, answer: &mut [u8]) -> u32
    ensures { StartCall (short_started_of role s n mark) answer.old result answer.new }
{
    code(answer_start(coder::short_start(role, s, n, mark), answer))
}
