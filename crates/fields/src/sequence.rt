// Reader and writer of any sequence: over slices of whatever length, and as methods of what is known beforehand.
ghost use Rattle.std.specs.Prelude.{◌≡◌, true, length};
ghost use Rattle.sequences.specs.Picture.{free};
ghost use Rattle.sequences.specs.Sequence.{is_whole, FieldsAnswer, SequenceAnswer};
ghost use Rattle.refusals.specs.Numbers.{code};
ghost use Rattle.fields.specs.Requires.{sequence, is_narrow, Ready, ReadBy, WrittenBy};
ghost use Rattle.fields.specs.Told.{numbers_told};

use crate::check::{crc_inside, crc_of, seal};
use crate::picture::{all_hold, put_around, take_inside};
use crate::table::{fields_in, in_range, put_fields};
use bits::all_bits;
use refusals::Refusal;
use sequences::Field;

// The numbers of the fields. `body` is room for what stands in the free places, the bits of the fields and then their check. What stands in
// `numbers` after a refusal is not said. Fields and their own check leave 0.
pub fn read_sequence(
    picture: &[u8],
    table: &[Field],
    bits: &[u8],
    body: &mut [u8],
    numbers: &mut [u64],
) -> Result<(), Refusal>
    requires { Ready picture.now table.now body.old numbers.old }
    ensures { ReadBy picture.now table.now bits.now (code result) numbers.new }
{
    if bits.len() != picture.len() {
        return Err(Refusal::WrongLength);
    }
    if !all_bits(bits) {
        return Err(Refusal::NotABit);
    }
    if !all_hold(picture, bits) {
        return Err(Refusal::WrongPicture);
    }
    take_inside(picture, bits, body);
    if crc_of(body) != 0 {
        return Err(Refusal::WrongCheck);
    }
    fields_in(table, bits, numbers);
    if !in_range(table, numbers) {
        return Err(Refusal::FieldOutOfRange);
    }
    Ok(())
}

// The sequence of the numbers in `lent`, by way of the same room.
pub fn write_sequence(
    picture: &[u8],
    table: &[Field],
    numbers: &[u64],
    body: &mut [u8],
    lent: &mut [u8],
) -> Result<(), Refusal>
    requires { Ready picture.now table.now body.old numbers.now }
    ensures { WrittenBy picture.now table.now numbers.now lent.old (code result) lent.new }
{
    if lent.len() != picture.len() {
        return Err(Refusal::WrongLength);
    }
    if !in_range(table, numbers) {
        return Err(Refusal::FieldOutOfRange);
    }
    put_fields(table, numbers, body);
    seal(body);
    put_around(picture, body, lent);
    Ok(())
}

// What says of a sequence which places and which fields it has. The free places, `FREE` of them, hold the bits of the fields and then
// their check. Picture and table are lent: a constant that held them would be laid out on the stack at each call, before anything is tested.
pub struct Layout<'a, const PLACES: usize, const FIELDS: usize, const FREE: usize> {
    pub picture: &'a [u8],
    pub table: &'a [Field],
    ghost places: { length picture.now ≡ PLACES },
    ghost fields: { length table.now ≡ FIELDS },
    ghost whole: { is_whole (sequence picture.now table.now) ≡ true },
    ghost narrow: { is_narrow table.now ≡ true },
    ghost room: { free picture.now ≡ FREE },
}

impl<'a, const PLACES: usize, const FIELDS: usize, const FREE: usize> Layout<
    'a,
    PLACES,
    FIELDS,
    FREE,
> {
    // The numbers of the fields. Fields and their own check leave 0.
    pub fn read_sequence(&self, bits: &[u8]) -> Result<[u64; FIELDS], Refusal>
        ensures { FieldsAnswer (sequence self.now.picture.now self.now.table.now) bits.now (code result) (numbers_told FIELDS result) }
    {
        if bits.len() != PLACES {
            return Err(Refusal::WrongLength);
        }
        if !all_bits(bits) {
            return Err(Refusal::NotABit);
        }
        if !all_hold(self.picture, bits) {
            return Err(Refusal::WrongPicture);
        }
        if crc_inside(self.picture, bits) != 0 {
            return Err(Refusal::WrongCheck);
        }
        let mut numbers = [0u64; FIELDS];
        fields_in(self.table, bits, &mut numbers);
        if !in_range(self.table, &numbers) {
            return Err(Refusal::FieldOutOfRange);
        }
        Ok(numbers)
    }

    // The sequence of the numbers in `lent`.
    pub fn write_sequence(&self, numbers: &[u64; FIELDS], lent: &mut [u8]) -> Result<(), Refusal>
        ensures { SequenceAnswer (sequence self.now.picture.now self.now.table.now) numbers.now lent.old (code result) lent.new }
    {
        if lent.len() != PLACES {
            return Err(Refusal::WrongLength);
        }
        if !in_range(self.table, numbers) {
            return Err(Refusal::FieldOutOfRange);
        }
        let mut room = [0u8; FREE];
        let body = &mut room[..];
        put_fields(self.table, numbers, body);
        seal(body);
        put_around(self.picture, body, lent);
        Ok(())
    }
}
