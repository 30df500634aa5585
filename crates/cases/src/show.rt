// One line for each call of an entry: what it was given, its refusal number, and what it gave back.
ghost use Rattle.std.specs.Prelude.{◌≤◌};

use refusals::code;
use spelling::show::Spaced;
use std::io;

// The mapper is lent the first bytes of nine that hold 9, and all nine are shown after the call: a refusal leaves them as they
// were, and a success writes exactly eight.
pub fn map_lent(rt: &impl Print, k: u64, m: u64, s: u64, lent: usize) -> io::Result<()>
    requires { lent ≤ 9 }
{
    let mut nine = [9u8; 9];
    let refusal = code(rings::map(k, m, s, &mut nine[..lent]));
    println!(rt;
        "map K {k} M {m} S {s} lent {lent}: {refusal},{}",
        Spaced(&nine)
    )
}

// What the mapper answers where it is lent eight.
pub fn map(rt: &impl Print, k: u64, m: u64, s: u64) -> io::Result<()> {
    map_lent(rt, k, m, s, 8)
}

// What the ranker answers: the refusal number, and the number of the rings, 0 where it refuses.
pub fn rank(rt: &impl Print, k: u64, m: u64, set: &[u8]) -> io::Result<()> {
    let ranked = rings::rank(k, m, set);
    let refusal = code(ranked);
    let number = ranked.unwrap_or(0);
    println!(rt;
        "rank K {k} M {m} rings{}: {refusal}, {number}",
        Spaced(set)
    )
}
