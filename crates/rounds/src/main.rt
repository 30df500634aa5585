// Workerwax, program `rounds`: data frames written, read back and written again, for every symbol rate, data rate, shaping and role, three
// in a row from several states, with bits, labels and states compared; and labels that are damaged, so that each refusal of the reader is
// met. Its expected output is written by hand: it says how many must agree.
#![tactic(auto)]

mod damage;
mod round;
mod tally;

use std::io;

fn main(rt: HostRuntime) -> io::Result<()> {
    tally::rounds(&rt)?;
    damage::refusals(&rt)
}
