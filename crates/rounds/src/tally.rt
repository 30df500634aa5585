// Every legal setting with mark 1: how many of its data frames agree.
ghost use Rattle.std.specs.Prelude.{◌≤◌};

use crate::round::round_from;
use std::io;
use trials::setting_of;

// Three data frames in a row, each from the state that the one before left: how many agree before one that does not.
fn chain(i: u64) -> u32
    ensures { result ≤ 3 }
{
    let Some(setting) = setting_of(i) else {
        return 0;
    };
    let mut state = setting.state;
    let mut agreed = 0;
    for seed in [i, i % 1024 + 1024, i % 1024 + 2048] {
        let Some(next) = round_from(&setting, state, seed) else {
            return agreed;
        };
        state = next;
        agreed += 1;
    }
    agreed
}

// Of all settings: a `for`, since the check finds no proof that the `sum` of a chain fits, which knows no bound of 3 on each.
fn agreeing() -> u32 {
    let mut agreed = 0;
    for i in 0..336 {
        agreed += chain(i);
    }
    agreed
}

pub fn rounds(rt: &impl Print) -> io::Result<()> {
    println!(rt;
        "data frames written and read back, three in a row, that agree: {}",
        agreeing()
    )
}
