// The table of a sequence's fields.
ghost use Rattle.std.specs.Prelude.{◌≡◌, ◌≤◌, length};
ghost use Rattle.laws.specs.Put.{put};
ghost use Rattle.bits.specs.Digits.{Bits};
ghost use Rattle.sequences.specs.Table.{lies, fields_in, field_bits, in_range, bit_count};
ghost use Rattle.fields.specs.Requires.{Within};

use bits::{put_digits, value_at};
use sequences::Field;

// A number between the least and the most of its field.
fn lies(field: Field, number: u64) -> bool
    ensures { result ≡ lies field number }
{
    field.least <= number && number <= field.most
}

// The numbers that the fields are. `numbers[k]`, since of what a zip with `iter_mut` writes a proof knows nothing. Here and below a number for
// each row is a `requires`: docs/ARCHITECTURE.md names these workers, and an array type for both would narrow what they take.
pub fn fields_in(table: &[Field], bits: &[u8], numbers: &mut [u64])
    requires { (length table.now ≡ length numbers.old) × Within (length bits.now) table.now × Bits bits.now }
    ensures { numbers.new ≡ fields_in table.now bits.now }
{
    for (k, field) in table.iter().enumerate() {
        numbers[k] = value_at(bits, field.first, field.width);
    }
}

// The test of 18: each number lies in its range.
pub fn in_range(table: &[Field], numbers: &[u64]) -> bool
    requires { length table.now ≡ length numbers.now }
    ensures { result ≡ in_range table.now numbers.now }
{
    table
        .iter()
        .zip(numbers)
        .all(|(field, number)| lies(*field, *number))
}

// The bits of the numbers, field after field, from the front of a body on. Each field has its own width, so the place is counted on, and no
// `chunks` give it.
pub fn put_fields(table: &[Field], numbers: &[u64], body: &mut [u8])
    requires { (length table.now ≡ length numbers.now) × (bit_count table.now ≤ length body.old) }
    ensures { body.new ≡ put body.old 0 (field_bits table.now numbers.now) }
{
    let mut at = 0;
    for (field, number) in table.iter().zip(numbers) {
        put_digits(*number, field.width, body, at);
        at += field.width;
    }
}
