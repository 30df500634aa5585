// Whether sixteen labels are accepted: one test for each refusal (document 01, "What comes back").
ghost use Rattle.std.specs.Prelude.{◌||◌, ◌≡◌, ◌+◌, ◌≤◌, ltb, length};
ghost use Rattle.frame.specs.Reading.{in_range, in_range_at, shell_holds, steps_fit};
ghost use Rattle.frame.specs.Requires.{Stepped};

use crate::read::z_step;
use crate::shape::Shape;

// Whether the four labels of a symbol are in their ranges, `top` being M·2^q.
fn symbol_in_range(top: u64, four: &[u16]) -> bool
    requires { length four.now ≡ 4 }
    ensures { result ≡ in_range_at top four.now 0 }
{
    u64::from(four[0]) < top && u64::from(four[1]) < top && four[2] <= 3 && four[3] <= 1
}

// Refusal 10, `OutOfRange`: whether all labels are in their ranges.
pub fn in_range(m: u64, q: usize, labels: &[u16]) -> bool
    requires { (length labels.now ≡ 16) × (m ≤ 18) × (q ≤ 5) }
    ensures { result ≡ in_range m q 4 labels.now }
{
    let top = m << q;
    labels
        .chunks_exact(4)
        .all(|four| symbol_in_range(top, four))
}

// Refusal 11, `UnsentRings`: whether the frame has the bits to write the number of the eight rings.
pub fn number_fits(shape: Shape, number: u64) -> bool
    requires { shape.shell ≤ 31 }
    ensures { result ≡ shell_holds shape number }
{
    number < 1u64 << shape.shell
}

// Whether a symbol can say a step of Z: one that carries no I3 says 0 or 1.
fn step_fits(three: bool, step: u64) -> bool
    ensures { result ≡ (three || ltb step 2) }
{
    three || step < 2
}

// Refusal 12, `UnsentStep`: whether no symbol steps further than it can say.
pub fn steps_fit(threes: usize, z: u64, labels: &[u16]) -> bool
    requires { Stepped z labels.now }
    ensures { result ≡ steps_fit threes z 4 labels.now }
{
    let mut turned = z;
    for (j, four) in labels.chunks_exact(4).enumerate() {
        let next = u64::from(four[2]);
        if !step_fits(j < threes, z_step(turned, next)) {
            return false;
        }
        turned = next;
    }
    true
}
