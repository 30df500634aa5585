// N, b, r, q, K and L (document 01, "Numbers that follow from the settings").
ghost use Rattle.std.specs.Prelude.{◌≡◌, ◌≤◌};
ghost use Rattle.line.specs.Numbers.{bits_of, high_of, step_of, uncoded_of, shell_of, points_of};

// N: 96·n where J is 7, and 84·n where J is 8.
#[tactic(auto, unfolding(crate::specs::Numbers::bits_of))]
pub fn bits_of(j: u64, n: u64) -> u64
    requires { n ≤ 14 }
    ensures { result ≡ bits_of j n }
{
    match j {
        7 => 96 * n,
        _ => 84 * n,
    }
}

// b: N over P, rounded up.
#[tactic(auto, using(crate::proofs::Divisions::high_ceiled))]
pub fn high_of(bits: u64, frames: u64) -> u64
    requires { (bits ≤ 1344) × (1 ≤ frames) × (frames ≤ 16) }
    ensures { result ≡ high_of bits frames }
{
    bits.div_ceil(frames)
}

// r: what P frames of b − 1 bits leave of N.
#[tactic(auto, using(crate::proofs::Divisions::steps), unfolding(crate::specs::Numbers::step_of))]
pub fn step_of(bits: u64, frames: u64, high: u64) -> u64
    requires { (1 ≤ bits) × (1 ≤ frames) × (high ≡ high_of bits frames) }
    ensures { result ≡ step_of bits frames high }
{
    bits - (high - 1) * frames
}

// q: what b − 12 has above 24, in eights.
#[tactic(auto, using(crate::proofs::Divisions::uncoded_is))]
pub fn uncoded_of(high: u64) -> u64
    ensures { result ≡ uncoded_of high }
{
    high.saturating_sub(36) / 8
}

// K: what is left of b − 12.
#[tactic(auto, using(crate::proofs::Divisions::uncoded_is, crate::proofs::Divisions::shell_is))]
pub fn shell_of(high: u64, uncoded: u64) -> u64
    requires { uncoded ≡ uncoded_of high }
    ensures { result ≡ shell_of high }
{
    high.saturating_sub(12 + 8 * uncoded)
}

// L: four points to each of M rings of 2^q.
#[tactic(auto, using(laws::proofs::Powers::shifted_one), unfolding(crate::specs::Numbers::points_of))]
pub fn points_of(rings: u64, uncoded: u64) -> u64
    requires { (rings ≤ 18) × (uncoded ≤ 9) }
    ensures { result ≡ points_of rings uncoded }
{
    4 * rings * (1 << uncoded)
}
