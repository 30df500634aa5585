// Workerwax, program `infocases`: the check of V.34's clause 10.1.2.3.2, INFO0 read and written in worked cases, and how many of all sets
// of fields come back. Its expected output was worked out apart, with another program's CRC, so that the proved code is held to V.34 and
// not to itself.
//
// `reportcases` has functions of the same names (`spelled`, `reads`, `writes`, `sequence_of`, `answered`, `comes_back`). The sequences are of
// other lengths, the fields of other types, and another line is printed of each, so that a shared one would be a call of closures alone.
#![tactic(auto)]

mod accepted;
mod check;
mod reading;
mod refused;
mod sweep;
mod writing;

use std::io;

fn main(rt: HostRuntime) -> io::Result<()> {
    check::cases(&rt)?;
    accepted::cases(&rt)?;
    refused::forms(&rt)?;
    refused::contents(&rt)?;
    writing::cases(&rt)?;
    sweep::sweeps(&rt)
}
