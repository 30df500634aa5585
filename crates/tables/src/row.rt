// One row of the two tables.
ghost use Rattle.std.specs.Prelude.{◌≤◌, IfOk};
ghost use Rattle.line.specs.declared.settings.Settings.{Settings};

use line::{Asked, Settings, next_frame, work_out};
use refusals::Refusal;
use std::io;

// The settings of s, n and a shaping. With mark 1 every n in the range of s is accepted.
#[tactic(auto, using(crate::proofs::Fits::fits))]
fn worked(s: u64, n: u64, shaping: u64) -> Result<Settings, Refusal>
    ensures { IfOk result (λ c. (1 ≤ c.frames) × (c.frames ≤ 16) × (c.step ≤ c.frames)) }
{
    work_out(Asked {
        role: 0,
        s,
        n,
        shaping,
        mark: 1,
    })
}

// The switching sequence as a number: the first mapping frame is the highest bit, and a high frame is 1. The loop in
// `linecases` prints a word for each frame and tests what is asked here: a function for both would share the call of `next_frame` alone.
#[tactic(auto, using(crate::proofs::Fits::fits))]
fn switching(settings: Settings) -> u16
    requires { (1 ≤ settings.frames) × (settings.frames ≤ 16) × (settings.step ≤ settings.frames) }
{
    let Settings { frames, step, .. } = settings;
    let mut sequence = 0;
    let mut counter = 0;
    for _frame in 0..frames {
        let turn = next_frame(frames, step, counter);
        sequence = sequence << 1 | u16::from(turn.high);
        counter = turn.counter;
    }
    sequence
}

// Our copy of V.34 lacks L for expanded shaping at two rates, 2800 baud with n 11 and 3200 baud with n 13.
fn is_lacking(s: u64, n: u64) -> bool {
    matches!((s, n), (2, 11) | (4, 13))
}

// The row of s and n, and nothing where the settings are refused. A hexadecimal digit of the sequence says four mapping frames.
pub fn show(rt: &impl Print, s: u64, n: u64) -> io::Result<()> {
    let (Ok(minimum), Ok(expanded)) = (worked(s, n, 0), worked(s, n, 1)) else {
        return Ok(());
    };
    let Settings {
        frames,
        high,
        shell,
        shaping,
        points,
        ..
    } = minimum;
    let sequence = switching(minimum);
    let width = frames.div_ceil(4) as usize;
    print!(rt;
        "{s} {n} {high} {sequence:0width$x} {shell} {} {} {points} ",
        shaping.rings(),
        expanded.shaping.rings()
    )?;
    if is_lacking(s, n) {
        println!(rt; "-")
    } else {
        println!(rt; "{}", expanded.points)
    }
}
