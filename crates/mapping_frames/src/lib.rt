// Workerwax, crate `mapping_frames`: the mapping frames of a data frame, one after the other (clauses 8.1 and 8.2).
//
// What does it do? `Frames` gives the P mapping frames of a data frame in their order: which one it is, the shape of each, and where its
// bits start and end. The writer and the reader go over the same ones.
// How does it work? The switching counter is 0 at the start, and each step asks `frame` for the next mapping frame.
#![tactic(auto)]

ghost use Rattle.std.specs.Prelude.{◌≡◌};

use frame::next::next_of;
use frame::shape::Shape;
use line::Settings;

// A mapping frame of a data frame: its index, its shape, and where its bits start and end.
#[derive(Clone, Copy)]
pub struct Frame {
    pub index: usize,
    pub shape: Shape,
    pub start: usize,
    pub end: usize,
}

// The mapping frames that are left: the index of the next one, the switching counter before it, and where its bits start. The fields are
// public because `Going`, which a step asks for, speaks of them: whoever breaks them can take no step.
#[derive(Clone, Copy)]
pub struct Frames {
    pub settings: Settings,
    pub index: usize,
    pub counter: u64,
    pub start: usize,
}

impl Frames {
    // All of them, the counter standing at 0.
    pub fn of(settings: Settings) -> Frames
        ensures { result ≡ record { settings = settings; index = 0; counter = 0; start = 0 } }
    {
        Frames {
            settings,
            index: 0,
            counter: 0,
            start: 0,
        }
    }
}

impl Iterator for Frames {
    ghost use Rattle.std.specs.Prelude.{◌-◌};
    ghost use Rattle.std.specs.Iterator.{at_most};
    ghost use Rattle.mapping_frames.specs.Steps.{Going, steps};

    type Item = Frame;

    ghost can_next = { Going };

    ghost next_gives = { steps };

    ghost remaining = { λ s. at_most (s.settings.frames - s.index) };

    fn next(&mut self) -> Option<Frame> {
        let index = self.index;
        if index as u64 == self.settings.frames {
            return None;
        }
        let next = next_of(self.settings, self.counter);
        let start = self.start;
        let end = start + next.size;
        self.index = index + 1;
        self.counter = next.counter;
        self.start = end;
        Some(Frame {
            index,
            shape: next.shape,
            start,
            end,
        })
    }
}
