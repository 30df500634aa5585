// How many bits of a frame go where.
ghost use Rattle.std.specs.Prelude.{false, ◌≡◌, ◌≤◌};
ghost use Rattle.frame.specs.Requires.{Shaped};
ghost use Rattle.frame.specs.Shape.{length_of, shape_of};

use line::Settings;

// How many bits of S, how many symbols with I3, and q. Its limits stay in the contracts (`Limited`) and are no ghost field, since specs/ makes
// shapes of any settings (`shape_of`), and the theorems on frames speak of any shape.
#[derive(Clone, Copy)]
pub struct Shape {
    pub shell: usize,
    pub threes: usize,
    pub uncoded: usize,
}

// How many of b bits a frame has: one less where it is low.
fn length_of(b: u64, high: bool) -> u64
    requires { high ≡ false → 1 ≤ b }
    ensures { result ≡ length_of b high }
{
    if high { b } else { b - 1 }
}

// The shape of a high or a low frame of a line.
#[tactic(auto, unfolding(crate::specs::Shape::shape_of))]
pub fn shape_of(c: Settings, high: bool) -> Shape
    requires { Shaped c high }
    ensures { result ≡ shape_of c high }
{
    if c.high <= 12 {
        return Shape {
            shell: 0,
            threes: length_of(c.high, high) as usize - 8,
            uncoded: 0,
        };
    }
    Shape {
        shell: length_of(c.shell, high) as usize,
        threes: 4,
        uncoded: c.uncoded as usize,
    }
}
