// Every legal setting with mark 1, by its number, at its start.
ghost use Rattle.std.specs.Prelude.{◌≤◌};
ghost use Rattle.trials.specs.declared.setting.TheConstants.{BITS, LABELS};

use coder::State;
use line::Asked;

// The bits and the labels of the longest data frame.
pub const BITS: usize = 1248;

pub const LABELS: usize = 256;

// A setting's start, N, 16·P, and its highest 2D label, M·2^q − 1.
#[derive(Clone, Copy)]
pub struct Setting {
    pub state: State,
    pub bits: usize,
    pub labels: usize,
    pub highest: u16,
    pub ghost bits_fit: { bits ≤ BITS },
    pub ghost labels_fit: { labels ≤ LABELS },
}

// Some register for the start of a setting, each another one.
fn register_of(i: u64) -> u64 {
    i % 65536 * 24681 % 8388608
}

// Number i of the 336 settings of role 0 and 1, shaping 0 and 1, s 0 to 5 and n 1 to 14. The remainders are a counter of mixed radix, in place
// of four loops, one in another: the start and the bits of a setting come of its number too.
fn asked_of(i: u64) -> Asked {
    Asked {
        role: i % 2,
        s: i / 4 % 6,
        n: i / 24 % 14 + 1,
        shaping: i / 2 % 2,
        mark: 1,
    }
}

// It at its start, and its numbers, L being 4·M·2^q; nothing where it is refused. That the numbers fit holds of every accepted setting, and is
// tested: to show it takes lemmas and a contract on what `work_out` accepts, and a setting that did not fit would be missing in what `rounds`
// counts.
pub fn setting_of(i: u64) -> Option<Setting> {
    let asked = asked_of(i);
    let state = coder::start(asked, register_of(i), i % 4).ok()?;
    let settings = line::work_out(asked).ok()?;
    let highest = u16::try_from((settings.points / 4).checked_sub(1)?).ok()?;
    let bits = settings.bits as usize;
    let frames = settings.frames as usize;
    if bits > BITS || frames > 16 {
        return None;
    }
    Some(Setting {
        state,
        bits,
        labels: 16 * frames,
        highest,
    })
}
