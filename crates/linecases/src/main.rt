// Workerwax, program `linecases`: what the settings and the scrambler answer in the worked cases of document 01, how a data frame is switched,
// and how often each number comes back over settings in and out of range. Its expected output is written by hand, so that the proved code
// is held to what the paper says and not to itself.
#![tactic(auto)]

mod scrambling;
mod settings;

use std::io;

fn main(rt: HostRuntime) -> io::Result<()> {
    settings::cases(&rt)?;
    scrambling::responses(&rt)
}
