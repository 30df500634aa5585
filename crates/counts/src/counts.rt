// The counts of an M, laid out once for as many numbers as are wanted.
ghost use Rattle.std.specs.Prelude.{◌≡◌, ℕ, ◌-◌, ◌≤◌, ◌<◌};
ghost use Rattle.laws.specs.Sum.{sum};
ghost use Rattle.listing.specs.Counts.{g2, g4};
ghost use Rattle.counts.specs.Counts.{CountsOf};
ghost use Rattle.counts.specs.Rows.{at, Known};

use crate::ring_count::RingCount;
pub use crate::rows::Counts;

// How many pairs weigh less than n, for n = 0 to 69. By place, since each sum needs the one before it: an iterator over the sums would have
// to carry that beside it.
fn pair_sums(pairs: &[u64; 69]) -> [u64; 70]
    requires { (p : ℕ) → at pairs.now p ≤ 18 }
    ensures { (n : ℕ) → n ≤ 69 → at result n ≡ sum (at pairs.now) n }
{
    let mut sums = [0u64; 70];
    for (n, count) in pairs.iter().enumerate() {
        sums[n + 1] = sums[n] + *count;
    }
    sums
}

// How many pairs weigh less than n − k; none where k is more than n. Tried by `saturating_sub`, as the first sum is 0: slower.
fn lighter_pairs(sums: &[u64; 70], n: usize, k: usize) -> u64
    requires n_bound { n ≤ 69 }
    requires none { at sums.now 0 ≡ 0 }
    ensures { result ≡ at sums.now (n - k) }
{
    if n < k { 0 } else { sums[n - k] }
}

impl RingCount {
    // How many pairs of rings below M have the sum p, (9-3): M less the distance of p from M − 1, and 0 from 2M − 1 on.
    fn pair_count(self, p: u64) -> u64
        ensures { result ≡ g2 self.m p }
    {
        self.m.saturating_sub(p.abs_diff(self.m - 1))
    }

    // Pairs by the formula: none weighs more than 2(m − 1). Tried by `array::from_fn`: slower.
    fn pair_row(self) -> [u64; 69]
        ensures { at result ≡ g2 self.m }
    {
        let mut row = [0u64; 69];
        for p in 0..2 * self.m as usize - 1 {
            row[p] = self.pair_count(p as u64);
        }
        row
    }

    // The count of fours of sum p, out of the one before it: no product, since the counts of pairs rise by one and then fall by one.
    fn next_four(self, sums: &[u64; 70], before: u64, p: usize) -> u64
        requires by_index { (n : ℕ) → n ≤ 69 → at sums.now n ≡ sum (g2 self.m) n }
        requires le_p { (1 ≤ p) × (p ≤ 68) × (before ≡ g4 self.m (p - 1)) }
        ensures { result ≡ g4 self.m p }
    {
        let k = self.m as usize;
        let all = sums[p + 1];
        let fallen = lighter_pairs(sums, p + 1, k);
        let gone = lighter_pairs(sums, p + 1, 2 * k);
        before + all + gone - 2 * fallen
    }

    // Fours one after the other: none weighs more than 4(m − 1). By place, since each count needs the one before it: an iterator over the
    // row would have to carry that beside it.
    fn four_row(self, pairs: &[u64; 69]) -> [u64; 137]
        requires { at pairs.now ≡ g2 self.m }
        ensures { at result ≡ g4 self.m }
    {
        let sums = pair_sums(pairs);
        let mut row = [0u64; 137];
        row[0] = 1;
        for p in 1..4 * self.m as usize - 3 {
            row[p] = self.next_four(&sums, row[p - 1], p);
        }
        row
    }
}

// The counts of M, which comes as a number: the contract asks `Known m` of one, and with a `RingCount` in its place every caller would have
// to make that first.
pub fn counts_of(m: u64) -> Counts
    requires { Known m }
    ensures { CountsOf m result }
{
    let rings = RingCount { m };
    let pairs = rings.pair_row();
    let fours = rings.four_row(&pairs);
    let lighter = rings.lighter_row();
    Counts {
        m,
        pairs,
        fours,
        lighter,
    }
}
