// Eight rings of a number, and the number of eight rings, over counts that were laid out once (clause 9.4, steps 2 to 6).
ghost use Rattle.std.specs.Prelude.{◌≡◌, ◌^◌, ◌<◌};
ghost use Rattle.listing.specs.Number.{rings_of, number};
ghost use Rattle.listing.specs.Sets.{Below8, as_list, of_list};
ghost use Rattle.rings.specs.Parts.{halves_of};

use crate::four::{FourRings, four_at, place_of_four};
use counts::{Counts, lighter_sum, locate, locate_weight};

// The weight of a set and of its first four, and the places of its two fours: A, B, R2 and R3.
#[derive(Clone, Copy)]
pub struct Halves {
    pub weight: usize,
    pub first_weight: usize,
    pub first_place: u64,
    pub second_place: u64,
}

// Steps 2 to 4. The first four takes the remainder, the second the quotient.
fn halves_of(counts: &Counts, s: u64) -> Halves
    requires { s < counts.now.m ^ 8 }
    ensures { result ≡ halves_of counts.now.m s }
{
    let top = 8 * (counts.m as usize - 1);
    let whole = locate_weight(&counts.lighter, top, s);
    let found = locate(&counts.fours, whole.at, whole.rest);
    let b = found.at;
    let first_fours = counts.fours[b];
    Halves {
        weight: whole.at,
        first_weight: b,
        first_place: found.rest % first_fours,
        second_place: found.rest / first_fours,
    }
}

// The eight rings of s, m1 to m8, below the M of the counts.
pub fn rings_of(counts: &Counts, s: u64) -> [u8; 8]
    requires { s < counts.now.m ^ 8 }
    ensures { result ≡ as_list (rings_of counts.now.m s) }
{
    let halves = halves_of(counts, s);
    let front = four_at(
        counts.m,
        &counts.pairs,
        halves.first_weight,
        halves.first_place,
    );
    let back = four_at(
        counts.m,
        &counts.pairs,
        halves.weight - halves.first_weight,
        halves.second_place,
    );
    let [m1, m2, m3, m4] = <[u8; 4]>::from(front);
    let [m5, m6, m7, m8] = <[u8; 4]>::from(back);
    [m1, m2, m3, m4, m5, m6, m7, m8]
}

// The number of eight rings, m1 to m8, below the M of the counts.
pub fn number_of(counts: &Counts, rings: &[u8; 8]) -> u64
    requires { Below8 counts.now.m (of_list rings.now) }
    ensures { result ≡ number counts.now.m (of_list rings.now) }
{
    let [m1, m2, m3, m4, m5, m6, m7, m8] = *rings;
    let front = FourRings::from([m1, m2, m3, m4]);
    let back = FourRings::from([m5, m6, m7, m8]);
    let b = front.weight();
    let a = b + back.weight();
    let first = place_of_four(counts.m, &counts.pairs, front);
    let second = place_of_four(counts.m, &counts.pairs, back);
    counts.lighter[a] + (lighter_sum(&counts.fours, a, b) + (second * counts.fours[b] + first))
}
