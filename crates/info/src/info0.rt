// INFO0 (V.34, Table 14): 49 bits, 14 fields.
ghost use Rattle.std.specs.Prelude.{◌≡◌};
ghost use Rattle.refusals.specs.Numbers.{code};
ghost use Rattle.sequences.specs.Sequence.{FieldsAnswer, SequenceAnswer};
ghost use Rattle.info.specs.Info0.{info0, numbers_of, numbers_told};

use fields::sequence::Layout;
use refusals::Refusal;
use sequences::{Field, field};

// Fill, sync, seventeen bits of fields, sixteen of their check, fill.
const PICTURE: [u8; 49] = *b"111101110010.................................1111";

// First bit, width, least and most of each field.
const TABLE: [Field; 14] = [
    field!(12, 1, 0..=1), // support of 2743
    field!(13, 1, 0..=1), // support of 2800
    field!(14, 1, 0..=1), // support of 3429
    field!(15, 1, 0..=1), // low carrier at 3000
    field!(16, 1, 0..=1), // high carrier at 3000
    field!(17, 1, 0..=1), // low carrier at 3200
    field!(18, 1, 0..=1), // high carrier at 3200
    field!(19, 1, 0..=1), // 3429 not disabled
    field!(20, 1, 0..=1), // power reduction
    field!(21, 3, 0..=5), // largest difference of symbol rates
    field!(24, 1, 0..=1), // CME
    field!(25, 1, 0..=1), // the mark
    field!(26, 2, 0..=2), // clock source
    field!(28, 1, 0..=1), // acknowledgement
];

const INFO0: Layout<'static, 49, 14, 33> = Layout {
    picture: &PICTURE,
    table: &TABLE,
};

// What an end says of itself. 1 is yes, unless the line says otherwise. Flags and clock stay numbers: C hands numbers over, and one out of
// its range must be seen and refused with 18 (`in_range` of crate `fields`).
#[derive(Clone, Copy, PartialEq, Eq)]
pub struct Info0 {
    pub support_2743: u64, // bit 12: it supports the symbol rate 2743
    pub support_2800: u64, // bit 13: 2800
    pub support_3429: u64, // bit 14: 3429
    pub low_3000: u64, // bit 15: it can send at the low carrier with 3000
    pub high_3000: u64, // bit 16: at the high carrier with 3000
    pub low_3200: u64, // bit 17: at the low carrier with 3200
    pub high_3200: u64, // bit 18: at the high carrier with 3200
    pub allowed_3429: u64, // bit 19: 0 says that sending with 3429 is disabled
    pub reduction: u64, // bit 20: it can reduce its power below the nominal one
    pub difference: u64, // bits 21 to 23: by how many steps the symbol rates of both directions may differ, 0 to 5
    pub cme: u64, // bit 24: it is a CME modem
    pub mark: u64, // bit 25: it takes constellations of up to 1664 points
    pub clock: u64, // bits 26 and 27: its transmit clock, 0 internal, 1 synchronised to receive, 2 external
    pub acknowledged: u64, // bit 28: it has received an INFO0 well, in error recovery
}

// Numbers in the order of the table as fields, and back.
impl From<[u64; 14]> for Info0 {
    ghost from_gives = { λ numbers fields. numbers_of fields ≡ numbers };

    fn from(numbers: [u64; 14]) -> Info0 {
        Info0 {
            support_2743: numbers[0],
            support_2800: numbers[1],
            support_3429: numbers[2],
            low_3000: numbers[3],
            high_3000: numbers[4],
            low_3200: numbers[5],
            high_3200: numbers[6],
            allowed_3429: numbers[7],
            reduction: numbers[8],
            difference: numbers[9],
            cme: numbers[10],
            mark: numbers[11],
            clock: numbers[12],
            acknowledged: numbers[13],
        }
    }
}

impl From<Info0> for [u64; 14] {
    ghost from_gives = { λ fields numbers. numbers ≡ numbers_of fields };

    fn from(fields: Info0) -> [u64; 14] {
        [
            fields.support_2743,
            fields.support_2800,
            fields.support_3429,
            fields.low_3000,
            fields.high_3000,
            fields.low_3200,
            fields.high_3200,
            fields.allowed_3429,
            fields.reduction,
            fields.difference,
            fields.cme,
            fields.mark,
            fields.clock,
            fields.acknowledged,
        ]
    }
}

// The fields of a sequence that was received.
pub fn read(bits: &[u8]) -> Result<Info0, Refusal>
    ensures { FieldsAnswer info0 bits.now (code result) (numbers_told result) }
{
    let numbers = INFO0.read_sequence(bits)?;
    Ok(Info0::from(numbers))
}

// The sequence of some fields, into a slice of 49 bytes.
pub fn write(fields: Info0, lent: &mut [u8]) -> Result<(), Refusal>
    ensures { SequenceAnswer info0 (numbers_of fields) lent.old (code result) lent.new }
{
    INFO0.write_sequence(&fields.into(), lent)
}
