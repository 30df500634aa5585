// The mapper and the ranker (V.34, clause 9.4).
ghost use Rattle.std.specs.Prelude.{◌≡◌, ◌≤◌};
ghost use Rattle.refusals.specs.Numbers.{code};
ghost use Rattle.rings.specs.Mapping.{MapAnswer};
ghost use Rattle.workerwax.specs.Calls.{RankCall};
ghost use Rattle.workerwax.specs.Lending.{shown_rings};

use crate::layout::put_numbers;
use refusals::{Refusal, code};

// Eight rings for a number.
pub fn ww_map(k: u64, m: u64, number: u64, rings: &mut [u8]) -> u32
    ensures { MapAnswer k m number rings.old result rings.new }
{
    code(rings::map(k, m, number, rings))
}

// How many rings the ranker is shown. Where it is shown none it refuses with 8 (`WrongLength`), in its place among the other refusals. So
// that is what it is shown where the answer has not its four bytes, and no order is said twice.
#[tactic(auto, using(std::proofs::lemmas::Bool::Decides::nat_tests), unfolding(crate::specs::Lending::shown_rings))]
fn shown_rings(rings: usize, answer: usize) -> usize
    ensures value { result ≡ shown_rings rings answer }
    ensures within { result ≤ rings }
{
    if answer == 4 { rings } else { 0 }
}

// The number of eight rings, into four bytes.
pub fn ww_rank(k: u64, m: u64, rings: &[u8], answer: &mut [u8]) -> u32
    ensures { RankCall k m rings.now answer.old result answer.new }
{
    code(answer_rank(k, m, rings, answer))
}

// Lays out the number, if the ranker doesn't refuse.
fn answer_rank(k: u64, m: u64, rings: &[u8], answer: &mut [u8]) -> Result<(), Refusal>
    ensures { RankCall k m rings.now answer.old (code result) answer.new }
{
    let shown = shown_rings(rings.len(), answer.len());
    let number = rings::rank(k, m, &rings[..shown])?;
    put_numbers(answer, &[number]);
    Ok(())
}
