// The two starts.
ghost use Rattle.std.specs.Prelude.{◌≡◌};
ghost use Rattle.coder.specs.State.{state_of, started, started_of, short_started_of};

use crate::states::State;
use line::{Asked, work_out};
use refusals::Refusal;

// A line at its start, with the register and Z that it is given. The settings' own refusal comes first, then 7, `UnfitState`.
pub fn start(asked: Asked, register: u64, z: u64) -> Result<State, Refusal>
    ensures { started result ≡ started_of (state_of asked register z) }
{
    work_out(asked)?;
    let st = State { asked, register, z };
    if st.is_unfit() {
        return Err(Refusal::UnfitState);
    }
    Ok(st)
}

// The short start: shaping 0, register 0 and Z 0.
#[tactic(auto, unfolding(crate::specs::State::short_started_of))]
pub fn short_start(role: u64, s: u64, n: u64, mark: u64) -> Result<State, Refusal>
    ensures { started result ≡ short_started_of role s n mark }
{
    let asked = Asked {
        role,
        s,
        n,
        shaping: 0,
        mark,
    };
    start(asked, 0, 0)
}
