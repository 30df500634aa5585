// The picture of a sequence: a character to a place, `0` or `1` where the place always holds that bit, and `.` where it is free.
ghost use Rattle.std.specs.Prelude.{◌≡◌, length};
ghost use Rattle.sequences.specs.Picture.{free, inside, around, holds, all_hold};

// A place that is free.
pub const FREE: u8 = b'.';

// A place that is free, or holds what it always holds.
fn holds(place: u8, bit: u8) -> bool
    ensures { result ≡ holds place bit }
{
    place == FREE || bit == place % 2
}

// The test of 16: every place does. Here and below the lengths are a `requires`: docs/ARCHITECTURE.md names these workers, and an array type
// for both would narrow what they take.
pub fn all_hold(picture: &[u8], bits: &[u8]) -> bool
    requires { length bits.now ≡ length picture.now }
    ensures { result ≡ all_hold picture.now bits.now }
{
    picture
        .iter()
        .zip(bits)
        .all(|(place, bit)| holds(*place, *bit))
}

// What stands in the free places, into a body that has just room for it. It goes by place on both sides, as `put_around`, which is its way back:
// the body is filled by a count of the free places so far.
pub fn take_inside(picture: &[u8], bits: &[u8], body: &mut [u8])
    requires { (length bits.now ≡ length picture.now) × (length body.old ≡ free picture.now) }
    ensures { body.new ≡ inside picture.now bits.now }
{
    let mut k = 0;
    for (i, place) in picture.iter().enumerate() {
        if *place == FREE {
            body[k] = bits[i];
            k += 1;
        }
    }
}

// The sequence around a body. `bits[i]`, since of what a zip with `iter_mut` writes a proof knows nothing. The body is taken by
// a count of the free places so far: `next` of an iterator over it would answer an `Option`, whose `None` the lengths rule out.
pub fn put_around(picture: &[u8], body: &[u8], bits: &mut [u8])
    requires { (length bits.old ≡ length picture.now) × (length body.now ≡ free picture.now) }
    ensures { bits.new ≡ around picture.now body.now }
{
    let mut k = 0;
    for (i, place) in picture.iter().enumerate() {
        if *place == FREE {
            bits[i] = body[k];
            k += 1;
        } else {
            bits[i] = *place % 2;
        }
    }
}
