// The state of a line, and the answer that holds one.
ghost use Rattle.std.specs.Prelude.{◌≡◌};
ghost use Rattle.coder.specs.State.{unfit};
ghost use Rattle.coder.specs.Answers.{moved_on};

use line::Asked;

// The settings as they were asked for, the scrambler's register and Z. M and the rest are worked out anew in each call.
#[derive(Clone, Copy, PartialEq, Eq)]
pub struct State {
    pub asked: Asked,
    pub register: u64,
    pub z: u64,
}

impl State {
    // Refusal 7, `UnfitState`: register 2^23 or more, or Z above 3.
    pub fn is_unfit(self) -> bool
        ensures { result ≡ unfit self }
    {
        self.register >= 1 << 23 || self.z > 3
    }

    // The state with another register and another Z.
    pub fn moved_on(self, moved: Moved) -> State
        ensures { result ≡ moved_on self moved.register moved.z }
    {
        let asked = self.asked;
        State {
            asked,
            register: moved.register,
            z: moved.z,
        }
    }
}

// What the writer and the reader answer to a call that is not refused: the bits of the data frame, and the next state.
#[derive(Clone, Copy, PartialEq, Eq)]
pub struct Coded {
    pub bits: u64,
    pub state: State,
}

// The register and Z after a data frame.
#[derive(Clone, Copy, PartialEq, Eq)]
pub struct Moved {
    pub register: u64,
    pub z: u64,
}

// Those of a state, before its data frame.
impl From<State> for Moved {
    ghost from_gives = { λ st moved. moved ≡ record { register = st.register; z = st.z } };

    fn from(st: State) -> Moved {
        Moved {
            register: st.register,
            z: st.z,
        }
    }
}
