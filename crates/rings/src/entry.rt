// The two entries, for whatever they are given (document 01, "What comes back").
ghost use Rattle.std.specs.Prelude.{◌≡◌};
ghost use Rattle.refusals.specs.Numbers.{code};
ghost use Rattle.rings.specs.Mapping.{MapAnswer, ranked, ranked_of};

use crate::check::{map_tested, rank_tested};
use crate::number::{number_of, rings_of};
use counts::counts_of;
use refusals::Refusal;

// The mapper: eight rings below m for the number s, into the lent slice, which a refusal leaves as it was.
pub fn map(k: u64, m: u64, s: u64, out: &mut [u8]) -> Result<(), Refusal>
    ensures { MapAnswer k m s out.old (code result) out.new }
{
    map_tested(k, m, s, out.len())?;
    let counts = counts_of(m);
    out.copy_from_slice(&rings_of(&counts, s));
    Ok(())
}

// The ranker: the number of eight rings below m.
pub fn rank(k: u64, m: u64, rings: &[u8]) -> Result<u64, Refusal>
    ensures { ranked result ≡ ranked_of k m rings.now }
{
    let eight = rank_tested(k, m, rings)?;
    let counts = counts_of(m);
    let number = number_of(&counts, eight);
    if number >= 1 << k {
        return Err(Refusal::UnsentRings);
    }
    Ok(number)
}
