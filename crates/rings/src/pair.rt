// Pairs of rings: the pair at a place among those of its sum, and the place of a pair (clause 9.4, (9-17) to (9-24)).
ghost use Rattle.std.specs.Prelude.{◌≡◌, ◌<◌};
ghost use Rattle.listing.specs.Counts.{g2};
ghost use Rattle.listing.specs.Number.{pair_at, place_of_pair};
ghost use Rattle.listing.specs.Sets.{Below2, weight2};
ghost use Rattle.rings.specs.Parts.{pair_of};
ghost use Rattle.counts.specs.Rows.{Known};

#[derive(Clone, Copy)]
pub struct PairOfRings {
    pub first: u8,
    pub second: u8,
}

impl PairOfRings {
    // What its rings add up to.
    pub fn weight(self) -> usize
        ensures { result ≡ weight2 (pair_of self) }
    {
        usize::from(self.first) + usize::from(self.second)
    }
}

// The pair of sum t at place e. Here and in `place_of_pair` M is a number, of which their contracts, which docs/ARCHITECTURE.md names, ask
// `Known m`.
pub fn pair_at(m: u64, t: u64, e: u64) -> PairOfRings
    requires known { Known m }
    requires e_bound { e < g2 m t }
    ensures { pair_of result ≡ pair_at m t e }
{
    if t < m {
        return PairOfRings {
            first: e as u8,
            second: (t - e) as u8,
        };
    }
    let second = m - 1 - e;
    PairOfRings {
        first: (t - second) as u8,
        second: second as u8,
    }
}

// The place of a pair among those of its sum.
pub fn place_of_pair(m: u64, pair: PairOfRings) -> u64
    requires known { Known m }
    requires below2 { Below2 m (pair_of pair) }
    ensures { result ≡ place_of_pair m (pair_of pair) }
{
    let first = u64::from(pair.first);
    let second = u64::from(pair.second);
    if first + second < m {
        first
    } else {
        m - 1 - second
    }
}
