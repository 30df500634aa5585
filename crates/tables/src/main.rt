// The 65 rows of V.34's Tables 8 and 10 without the auxiliary channel, as the proved settings give them. The expected output is V.34's own
// numbers, so a row that is missing, short or different fails the gate.
//
//     s n   b and the switching sequence SWP in hexadecimal, from Table 8; K, M minimum, M expanded, L minimum, L expanded, from Table 10
#![tactic(auto)]

mod row;

use row::show;
use std::io;

// Every n that some symbol rate takes; `show` passes over what is refused.
fn main(rt: HostRuntime) -> io::Result<()> {
    for s in 0..6 {
        for n in 1..15 {
            show(&rt, s, n)?;
        }
    }
    Ok(())
}
