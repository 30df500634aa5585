// Finding a place among running sums, and the sums themselves.
ghost use Rattle.std.specs.Prelude.{◌≡◌};
ghost use Rattle.listing.specs.Counts.{lighter};
ghost use Rattle.counts.specs.Rows.{at};
ghost use Rattle.counts.specs.Located.{located_of};
ghost use Rattle.counts.specs.Requires.{Summable, Locatable, Ascending};

// A place in a row, and what is left there.
#[derive(Clone, Copy)]
pub struct Located {
    pub at: usize,
    pub rest: u64,
}

// The sum of row[p]·row[t − p] over p < b. By place, as (9-4) and (9-5) write it: a `zip` of the row with its part up to t turned round
// would not show that the two places add up to t.
pub fn lighter_sum(row: &[u64], t: usize, b: usize) -> u64
    requires { Summable row.now t b }
    ensures { result ≡ lighter (at row.now) t b }
{
    let mut sum = 0;
    for p in 0..b {
        sum += row[p] * row[t - p];
    }
    sum
}

// The largest b whose sum of row[p]·row[t − p] over p < b is at most r, and r less that sum. Candidates are tried from 0 up, and
// each trial takes one product off. By place, since the row is read at b and at t − b, and b is answered.
pub fn locate(row: &[u64], t: usize, r: u64) -> Located
    requires { Locatable row.now t r }
    ensures { result ≡ located_of (lighter (at row.now) t) r t }
{
    let mut rest = r;
    for b in 0..t {
        let product = row[b] * row[t - b];
        if rest < product {
            return Located { at: b, rest };
        }
        rest -= product;
    }
    Located { at: t, rest }
}

// The largest place up to `top` where a row of running sums is at most s, and s less that sum. Candidates are tried from 0 up, one comparison
// each: halving would find the place in fewer, but then how many a mapping passes over could not be told from the set (docs/DECISIONS.md,
// "Candidates are tried from 0 up"). By place, since the row is read at a + 1 and at a, and a is answered.
pub fn locate_weight(row: &[u64], top: usize, s: u64) -> Located
    requires { Ascending row.now top s }
    ensures { result ≡ located_of (at row.now) s top }
{
    for a in 0..top {
        if s < row[a + 1] {
            return Located {
                at: a,
                rest: s - row[a],
            };
        }
    }
    Located {
        at: top,
        rest: s - row[top],
    }
}
