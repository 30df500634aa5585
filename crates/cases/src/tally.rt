// The sweeps' lines: what was swept, and how many agreed.
use crate::sweep::Sweep;
use refusals::Refusal;
use spelling::show::Spaced;
use std::io;

fn there_and_back(rt: &impl Print, sweep: &Sweep) -> io::Result<()> {
    let agree = sweep.agreed(|s| sweep.comes_back(s));
    println!(rt; "{sweep} numbers mapped and ranked back: {agree} agree")
}

fn in_listing_order(rt: &impl Print, sweep: &Sweep) -> io::Result<()> {
    let agree = sweep.agreed(|i| sweep.in_order(i));
    println!(rt; "{sweep} sets ranked by how many stand before them: {agree} agree")
}

fn ranked_or_refused(rt: &impl Print, sweep: &Sweep) -> io::Result<()> {
    let unsent = Refusal::UnsentRings;
    let ranked = sweep.agreed(|i| sweep.rank_of(i).is_ok());
    let refused = sweep.agreed(|i| sweep.rank_of(i) == Err(unsent));
    println!(rt;
        "{sweep} sets: {ranked} ranked, {refused} refused with {}",
        unsent.number()
    )
}

fn stand_before(rt: &impl Print, sweep: &Sweep, set: &[u8; 8]) -> io::Result<()> {
    let standing = sweep.standing(set);
    println!(rt;
        "M {}, sets that stand before{}: {standing}",
        sweep.m,
        Spaced(set)
    )
}

// The last two sets are those on the two sides of 2^12, by the order alone.
pub fn sweeps(rt: &impl Print) -> io::Result<()> {
    let small = Sweep {
        k: 8,
        m: 2,
        swept: 256,
    };
    let numbers = Sweep {
        k: 12,
        m: 3,
        swept: 4096,
    };
    let sets = Sweep {
        k: 12,
        m: 3,
        swept: 6561,
    };
    println!(rt; "\nsweeps")?;
    there_and_back(rt, &small)?;
    there_and_back(rt, &numbers)?;
    in_listing_order(rt, &small)?;
    ranked_or_refused(rt, &sets)?;
    stand_before(rt, &sets, &[0, 0, 2, 2, 1, 1, 1, 2])?;
    stand_before(rt, &sets, &[0, 1, 1, 2, 1, 1, 1, 2])
}
