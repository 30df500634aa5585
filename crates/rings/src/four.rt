// Fours of rings: the four at a place among those of its sum, and the place of a four (clause 9.4, steps 5 and 6).
ghost use Rattle.std.specs.Prelude.{◌≡◌, ◌<◌};
ghost use Rattle.listing.specs.Counts.{g2, g4};
ghost use Rattle.listing.specs.Number.{four_at, place_of_four};
ghost use Rattle.listing.specs.Sets.{Below4, weight4};
ghost use Rattle.counts.specs.Rows.{at, Known};
ghost use Rattle.rings.specs.Parts.{four_of, four_in, rings_in};

use crate::pair::{PairOfRings, pair_at, place_of_pair};
use counts::{lighter_sum, locate};

// A pair is found by its place alone and a four by counts of pairs, so one generic type for both would share the names of its fields and
// `weight`, and nothing else.
#[derive(Clone, Copy)]
pub struct FourRings {
    pub first: PairOfRings,
    pub second: PairOfRings,
}

// Four rings in their order as two pairs, and back.
impl From<[u8; 4]> for FourRings {
    ghost from_gives = { λ rings four. four_of four ≡ four_in rings };

    fn from(rings: [u8; 4]) -> FourRings {
        let [m1, m2, m3, m4] = rings;
        FourRings {
            first: PairOfRings {
                first: m1,
                second: m2,
            },
            second: PairOfRings {
                first: m3,
                second: m4,
            },
        }
    }
}

impl From<FourRings> for [u8; 4] {
    ghost from_gives = { λ four rings. rings ≡ rings_in (four_of four) };

    fn from(four: FourRings) -> [u8; 4] {
        [
            four.first.first,
            four.first.second,
            four.second.first,
            four.second.second,
        ]
    }
}

impl FourRings {
    // What its rings add up to.
    pub fn weight(self) -> usize
        ensures { result ≡ weight4 (four_of self) }
    {
        self.first.weight() + self.second.weight()
    }
}

// The four of sum t at place i. The first pair takes the remainder, the second the quotient. Here and in `place_of_four` M and the row of
// pairs are enough, so no more of the counts is asked for.
pub fn four_at(m: u64, pairs: &[u64; 69], t: usize, i: u64) -> FourRings
    requires known { Known m }
    requires pairs_value { at pairs.now ≡ g2 m }
    requires i_bound { i < g4 m t }
    ensures { four_of result ≡ four_at m t i }
{
    let found = locate(pairs, t, i);
    let c = found.at;
    let first_pairs = pairs[c];
    let first = pair_at(m, c as u64, found.rest % first_pairs);
    let second = pair_at(m, (t - c) as u64, found.rest / first_pairs);
    FourRings { first, second }
}

// The place of a four among those of its sum.
pub fn place_of_four(m: u64, pairs: &[u64; 69], four: FourRings) -> u64
    requires known { Known m }
    requires pairs_value { at pairs.now ≡ g2 m }
    requires below4 { Below4 m (four_of four) }
    ensures { result ≡ place_of_four m (four_of four) }
{
    let c = four.first.weight();
    let first = place_of_pair(m, four.first);
    let second = place_of_pair(m, four.second);
    lighter_sum(pairs, four.weight(), c) + (second * pairs[c] + first)
}
