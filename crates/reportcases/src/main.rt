// Workerwax, program `reportcases`: INFO1c of V.34's Table 15 read and written in worked cases, the offset in hertz among them, and how
// many counts, filters, rates and other fields come back. Its expected output was worked out apart, by another program from the table
// alone, so that the proved code is held to V.34 and not to itself.
//
// `infocases` has functions of the same names (`spelled`, `reads`, `writes`, `sequence_of`, `answered`, `comes_back`). The sequences are of
// other lengths, the fields of other types, and another line is printed of each, so that a shared one would be a call of closures alone.
#![tactic(auto)]

mod accepted;
mod counts;
mod reading;
mod refused;
mod show;
mod sweep;
mod writing;

use std::io;

fn main(rt: HostRuntime) -> io::Result<()> {
    accepted::cases(&rt)?;
    refused::forms(&rt)?;
    refused::contents(&rt)?;
    writing::cases(&rt)?;
    counts::sweeps(&rt)?;
    sweep::sweeps(&rt)
}
