// What the writer and the reader share: the test of the lent lengths, and the answer.
ghost use Rattle.std.specs.Prelude.{Ok, ◌≡◌, ◌≤◌};
ghost use Rattle.coder.specs.Answers.{exact, answered, coded};

use crate::states::{Coded, Moved, State};
use line::Settings;

// As many bytes as the user has bits, and 16·P labels. That P is at most 16 is asked here and is no invariant of `Settings`: the
// definition `settings_of` makes settings of any numbers.
pub fn is_exact(c: Settings, bits: usize, labels: usize) -> bool
    requires { c.frames ≤ 16 }
    ensures { result ≡ exact c bits labels }
{
    bits as u64 == c.user && labels as u64 == 16 * c.frames
}

// A coded data frame: N bits, and the state moved on. A state and its settings stand side by side, here and in the writer and the reader,
// since `coded`, `Sendable` and `Receivable` speak of both.
pub fn done(c: Settings, st: State, moved: Moved) -> Coded
    ensures { answered st (Ok result) ≡ coded c st moved.register moved.z }
{
    Coded {
        bits: c.bits,
        state: st.moved_on(moved),
    }
}
