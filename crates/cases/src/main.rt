// Workerwax, program `cases`: what the mapper and the ranker answer, in the worked cases, on each side of each limit, and in sweeps over all
// numbers of an M. Its expected output is written by hand, so that the proved code is held to what the paper says and not to itself.
#![tactic(auto)]

mod limits;
mod order;
mod show;
mod sweep;
mod tally;
mod worked;

use std::io;

fn main(rt: HostRuntime) -> io::Result<()> {
    worked::cases(&rt)?;
    limits::k_limit(&rt)?;
    limits::m_limit(&rt)?;
    limits::powers(&rt)?;
    limits::lengths(&rt)?;
    limits::s_limit(&rt)?;
    limits::ring_limit(&rt)?;
    limits::rank_limit(&rt)?;
    limits::ties(&rt)?;
    tally::sweeps(&rt)
}
