// One 4D symbol, out of a frame's bits (clause 9.3), and the differential coder (clause 9.5).
ghost use Rattle.std.specs.Prelude.{cond, ◌≡◌, ◌+◌, ◌≤◌, length, get_or};
ghost use Rattle.bits.specs.Digits.{Bits};
ghost use Rattle.frame.specs.Shape.{symbol_length, SymbolFits};
ghost use Rattle.frame.specs.Writing.{symbol_of, turned};

use bits::value_at;

// I1, I2, I3, and the q bits of the first and of the second 2D symbol, as numbers. Their bounds, those of q and that of Z stay in the
// contracts and are no types: specs/ makes symbols of any labels and any q (`symbol_read`, `symbol_of`), the theorems on frames hold of any
// q (`written`, `accepted`), and a state can hold any Z, which 7, `UnfitState`, refuses.
#[derive(Clone, Copy)]
pub struct Symbol {
    pub i1: u64,
    pub i2: u64,
    pub i3: u64,
    pub first: u64,
    pub second: u64,
}

// How many bits stand before the q bits: I1, I2, and I3 where the symbol carries it.
pub fn lead(three: bool) -> usize
    ensures { result ≡ cond three 3 2 }
{
    if three { 3 } else { 2 }
}

// I3: 0 where the symbol carries none, and no Option, since the definition `symbol_of` says 0 there.
fn third(bits: &[u8], three: bool) -> u64
    requires { cond three 3 2 ≤ length bits.now }
    ensures { result ≡ cond three (get_or bits.now 2 0) 0 }
{
    if three { u64::from(bits[2]) } else { 0 }
}

// The symbol out of the bits at the head of those that are lent; `three` says whether it carries I3. That they are bits is asked here and
// is no type: they are a part of the bytes that `writer::write` is lent, as C lends them to it.
pub fn symbol_at(bits: &[u8], q: usize, three: bool) -> Symbol
    requires { (symbol_length q three ≤ length bits.now) × (q ≤ 5) × Bits bits.now }
    ensures value { result ≡ symbol_of q three bits.now }
    ensures fits { SymbolFits q three result }
{
    let lead = lead(three);
    Symbol {
        i1: u64::from(bits[0]),
        i2: u64::from(bits[1]),
        i3: third(bits, three),
        first: value_at(bits, lead, q),
        second: value_at(bits, lead + q, q),
    }
}

// Z after a symbol.
#[tactic(auto, unfolding(crate::specs::Writing::turned))]
pub fn turn(z: u64, symbol: Symbol) -> u64
    requires { (z ≤ 3) × (symbol.i2 ≤ 1) × (symbol.i3 ≤ 1) }
    ensures value { result ≡ turned z symbol }
    ensures most { result ≤ 3 }
{
    (z + symbol.i2 + 2 * symbol.i3) % 4
}
