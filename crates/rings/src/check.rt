// The tests of the entries and their refusals, in their order. Only 11 is tested in entry.rt, where the number that it needs is known.
//
// K and M stay two numbers beside each other: the contracts of `map` and `rank` name them so, and as both take any two, a struct of them
// would say nothing of either.
ghost use Rattle.std.specs.Prelude.{◌≡◌, eqb, length, IfOk};
ghost use Rattle.laws.specs.Choice.{refusal};
ghost use Rattle.refusals.specs.Numbers.{code};
ghost use Rattle.rings.specs.Mapping.{permitted, all_below, map_refusal, rank_tests};

use refusals::Refusal;

// Whether K bits can be put on eight rings below M.
pub fn is_permitted(k: u64, m: u64) -> bool
    ensures { result ≡ permitted k m }
{
    k <= 31 && 1 <= m && m <= 18 && 1 << k <= m.pow(8)
}

// Whether every ring is below m.
pub fn all_below(m: u64, rings: &[u8]) -> bool
    ensures { result ≡ all_below m rings.now }
{
    rings.iter().all(|ring| u64::from(*ring) < m)
}

// What the mapper tests; `lent` is the length of the slice lent to it.
pub fn map_tested(k: u64, m: u64, s: u64, lent: usize) -> Result<(), Refusal>
    ensures { code result ≡ map_refusal k m s lent }
{
    if !is_permitted(k, m) {
        return Err(Refusal::NotPermitted);
    }
    if lent != 8 {
        return Err(Refusal::WrongLength);
    }
    if s >= 1 << k {
        return Err(Refusal::NumberTooLarge);
    }
    Ok(())
}

// What the ranker tests before it ranks: the eight rings, where no test refuses.
pub fn rank_tested(k: u64, m: u64, rings: &[u8]) -> Result<&[u8; 8], Refusal>
    ensures tested { code result ≡ refusal (rank_tests (eqb (length rings.now) 8) k m rings.now) }
    ensures same { IfOk result (λ eight. eight.now ≡ rings.now) }
{
    if !is_permitted(k, m) {
        return Err(Refusal::NotPermitted);
    }
    let Ok(eight) = <&[u8; 8]>::try_from(rings) else {
        return Err(Refusal::WrongLength);
    };
    if !all_below(m, rings) {
        return Err(Refusal::OutOfRange);
    }
    Ok(eight)
}
