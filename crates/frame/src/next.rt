// One step through a data frame, for writing and for reading alike.
ghost use Rattle.frame.specs.Next.{NextOf};
ghost use Rattle.frame.specs.Requires.{Stepping};

use crate::shape::{Shape, shape_of};
use line::Settings;
use line::switching::next_frame;

// The shape of a mapping frame, how many bits it has, and the switching counter after it.
#[derive(Clone, Copy)]
pub struct Next {
    pub shape: Shape,
    pub size: usize,
    pub counter: u64,
}

// The next mapping frame of a data frame, the counter standing at `counter`.
pub fn next_of(c: Settings, counter: u64) -> Next
    requires { Stepping c counter }
    ensures { NextOf c counter result }
{
    let turn = next_frame(c.frames, c.step, counter);
    let shape = shape_of(c, turn.high);
    Next {
        shape,
        size: shape.shell + (8 + shape.threes + 8 * shape.uncoded),
        counter: turn.counter,
    }
}
