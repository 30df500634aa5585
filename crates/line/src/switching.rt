// The switching of mapping frames between b − 1 and b bits (clause 8.2).
ghost use Rattle.std.specs.Prelude.{◌≡◌, ◌≤◌, ◌<◌};
ghost use Rattle.line.specs.Switching.{is_high, counter_after};

// Whether a mapping frame is high, and the counter after it. Both mean something in every frame, so that an enum would have the counter in each
// variant.
#[derive(Clone, Copy)]
pub struct Turn {
    pub high: bool,
    pub counter: u64,
}

// The counter's step before a mapping frame.
#[tactic(auto, unfolding(crate::specs::Switching::counter_after))]
pub fn next_frame(frames: u64, step: u64, counter: u64) -> Turn
    requires { (step ≤ frames) × (counter < frames) × (frames ≤ 16) }
    ensures { (result.high ≡ is_high frames step counter) × (result.counter ≡ counter_after frames step counter) }
{
    let sum = counter + step;
    if sum < frames {
        Turn {
            high: false,
            counter: sum,
        }
    } else {
        Turn {
            high: true,
            counter: sum - frames,
        }
    }
}
