// Writing one mapping frame.
ghost use Rattle.std.specs.Prelude.{◌≡◌, ◌+◌, ◌*◌, ◌^◌, ◌≤◌, ◌<◌, length};
ghost use Rattle.frame.specs.Requires.{Writable};
ghost use Rattle.frame.specs.Writing.{labels_written, turn_written};

use crate::shape::Shape;
use crate::symbol::{Symbol, lead, symbol_at, turn};

// The label of a ring and q bits.
fn label(q: usize, ring: u8, low: u64) -> u16
    requires { (q ≤ 5) × (ring < 18) × (low < 2 ^ q) }
    ensures { result ≡ 2 ^ q * ring + low }
{
    ((u64::from(ring) << q) + low) as u16
}

// The sixteen labels of a frame with these eight rings, into the part of the output that is lent. It answers Z after the frame.
pub fn write_frame(shape: Shape, ring: &[u8; 8], z: u64, bits: &[u8], out: &mut [u16]) -> u64
    requires { Writable shape ring.now z bits.now out.old }
    ensures out_after { out.new ≡ labels_written shape ring.now z bits.now }
    ensures value { result ≡ turn_written shape ring.now z bits.now }
{
    let q = shape.uncoded;
    let mut at = shape.shell;
    let mut turned = z;
    // By place: after a loop over `chunks_exact_mut` a proof knows how long the labels are, and not what they are.
    for j in 0..4 {
        let three = j < shape.threes;
        let symbol = symbol_at(&bits[at..], q, three);
        turned = turn(turned, symbol);
        let first = label(q, ring[2 * j], symbol.first);
        let second = label(q, ring[2 * j + 1], symbol.second);
        let four = &mut out[4 * j..4 * j + 4];
        four[0] = first;
        four[1] = second;
        four[2] = turned as u16;
        four[3] = symbol.i1 as u16;
        at += lead(three) + 2 * q;
    }
    turned
}
