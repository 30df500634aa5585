// Reading one mapping frame.
ghost use Rattle.std.specs.Prelude.{cond, [], ◌∷◌, ◌≡◌, ◌+◌, ◌-◌, ◌/◌, ◌%◌, ◌^◌, ◌≤◌, ◌<◌, length, get_or, drop};
ghost use Rattle.laws.specs.Put.{Put};
ghost use Rattle.frame.specs.Reading.{symbol_read, symbol_bits, rings_read, bits_read, frame_read_turned};
ghost use Rattle.frame.specs.Requires.{RingsFit, Readable};
ghost use Rattle.frame.specs.Shape.{symbol_length};

use crate::shape::Shape;
use crate::symbol::Symbol;
use bits::{put_bit, put_digits};

// The label at `at`: a place, which is its contract, and docs/ARCHITECTURE.md names it.
pub fn label_at(labels: &[u16], at: usize) -> u64
    requires { at < length labels.now }
    ensures { result ≡ get_or labels.now at 0 }
{
    u64::from(labels[at])
}

// The ring of the label at `at`, by place as `label_at`.
fn ring_at(q: usize, labels: &[u16], at: usize) -> u8
    requires { (at < length labels.now) × (q ≤ 5) × (get_or labels.now at 0 / 2 ^ q < 256) }
    ensures { result ≡ get_or labels.now at 0 / 2 ^ q }
{
    (labels[at] >> q) as u8
}

// The eight rings of sixteen labels: those of the first two of each four.
pub fn rings_read(q: usize, labels: &[u16]) -> [u8; 8]
    requires { RingsFit q labels.now }
    ensures { result ≡ rings_read q 4 labels.now }
{
    [
        ring_at(q, labels, 0),
        ring_at(q, labels, 1),
        ring_at(q, labels, 4),
        ring_at(q, labels, 5),
        ring_at(q, labels, 8),
        ring_at(q, labels, 9),
        ring_at(q, labels, 12),
        ring_at(q, labels, 13),
    ]
}

// The step from one Z to the next: I2 + 2·I3.
pub fn z_step(z: u64, next: u64) -> u64
    requires { (z ≤ 3) × (next ≤ 3) }
    ensures { result ≡ (next + 4 - z) % 4 }
{
    (next + 4 - z) % 4
}

// The symbol that four labels say.
#[tactic(auto, unfolding(crate::specs::Reading::symbol_read))]
fn symbol_read(q: usize, z: u64, four: &[u16]) -> Symbol
    requires { (length four.now ≡ 4) × (q ≤ 5) × (z ≤ 3) × (get_or four.now 2 0 ≤ 3) }
    ensures { result ≡ symbol_read q z four.now }
{
    let step = z_step(z, u64::from(four[2]));
    let scale = 1 << q;
    Symbol {
        i1: u64::from(four[3]),
        i2: step % 2,
        i3: step / 2,
        first: u64::from(four[0]) % scale,
        second: u64::from(four[1]) % scale,
    }
}

// I3, where the symbol carries it. It answers the position after it, as `put_symbol` needs it.
fn put_third(x: u64, three: bool, bits: &mut [u8], at: usize) -> usize
    requires { (x ≤ 1) × (at + cond three 1 0 ≤ length bits.old) }
    ensures { Put (cond three (x ∷ []) []) bits.old bits.new at result }
{
    if three {
        put_bit(x, bits, at);
        at + 1
    } else {
        at
    }
}

// The bits of a symbol, from `at` on. It answers the position after them. The whole buffer with a place, and no part of it as the writer
// lends: tried, and a data frame then took 3 % more instructions to read. `three` stands beside I3, as in the definition `symbol_bits`:
// that of `symbol_read` has an I3 whether it is carried or not.
fn put_symbol(symbol: Symbol, q: usize, three: bool, bits: &mut [u8], at: usize) -> usize
    requires { (symbol.i1 ≤ 1) × (symbol.i2 ≤ 1) × (symbol.i3 ≤ 1) × (at + symbol_length q three ≤ length bits.old) }
    ensures { Put (symbol_bits q three symbol) bits.old bits.new at result }
{
    put_bit(symbol.i1, bits, at);
    put_bit(symbol.i2, bits, at + 1);
    let next = put_third(symbol.i3, three, bits, at + 2);
    put_digits(symbol.first, q, bits, next);
    put_digits(symbol.second, q, bits, next + q);
    next + 2 * q
}

// The bits of a frame out of its sixteen labels and the number of their rings, into the part of the bit buffer that is lent. It answers Z
// after the frame.
pub fn read_frame(shape: Shape, number: u64, z: u64, labels: &[u16], bits: &mut [u8]) -> u64
    requires { Readable shape number z labels.now bits.old }
    ensures { (bits.new ≡ bits_read shape number z labels.now) × (result ≡ frame_read_turned labels.now) }
{
    let q = shape.uncoded;
    let threes = shape.threes;
    let mut at = shape.shell;
    put_digits(number, at, bits, 0);
    let mut turned = z;
    for (j, four) in labels.chunks_exact(4).enumerate() {
        let symbol = symbol_read(q, turned, four);
        at = put_symbol(symbol, q, j < threes, bits, at);
        turned = u64::from(four[2]);
    }
    turned
}
