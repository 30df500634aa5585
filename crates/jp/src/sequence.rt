// Jp (V.92, Table 22): 72 bits, of which six fields, and of these three are shown.
ghost use Rattle.std.specs.Prelude.{◌≡◌};
ghost use Rattle.refusals.specs.Numbers.{code};
ghost use Rattle.sequences.specs.Sequence.{SequenceAnswer};
ghost use Rattle.jp.specs.Jp.{jp, fields_of, sent_numbers, answer, told};

use crate::part::part_of;
use fields::sequence::Layout;
use refusals::Refusal;
use sequences::{Field, field};

// Seventeen ones of sync; a start bit before each sixteen bits, of which the last sixteen are the check; fill.
const PICTURE: [u8; 72] =
    *b"111111111111111110................0................0................0000";

// Places that are free: those of the fields and of their check.
const CARRIED: usize = 48;

// First bit, width, least and most of each field.
const TABLE: [Field; 6] = [
    field!(18, 16, 0..=65535), // fraction
    field!(35, 12, 0..=4095), // reserved
    field!(47, 1, 1..=1), // 1: this is Jp
    field!(48, 1, 0..=1), // size in training
    field!(49, 1, 0..=1), // size in rate renegotiations
    field!(50, 1, 0..=1), // reserved
];

const JP: Layout<'static, 72, 6, CARRIED> = Layout {
    picture: &PICTURE,
    table: &TABLE,
};

// What the digital modem asks for. A size is that of the constellation of CPu, E2u, SUVu and TRN2u: 0 four points, 1 eight. Both sizes stay
// numbers: C hands numbers over, and one out of its range must be seen and refused with 18 (`in_range` of crate `fields`).
#[derive(Clone, Copy, PartialEq, Eq)]
pub struct Jp {
    pub fraction: u64, // bits 18 to 33: by how much of a symbol Su inverted is to be extended, in 65,536ths, 0 to 65535
    pub training: u64, // bit 48: the size in the training sequences
    pub renegotiation: u64, // bit 49: the size in rate renegotiations
}

// What was heard: the fields, and the fraction as a part of a symbol.
#[derive(Clone, Copy, PartialEq)]
pub struct JpRead {
    pub fields: Jp,
    pub part: f64,
}

impl Jp {
    // Numbers in the order of the table as fields. What is reserved, and the bit that is always 1, is not among them. So this and the way back
    // are no pair of `From`, as they are for INFO0: what was read here is not what the way back gives.
    fn from_numbers(numbers: [u64; 6]) -> Jp
        ensures { result ≡ fields_of numbers }
    {
        Jp {
            fraction: numbers[0],
            training: numbers[3],
            renegotiation: numbers[4],
        }
    }

    // Fields as numbers in the order of the table, with 0 in the reserved places.
    fn numbers(self) -> [u64; 6]
        ensures { result ≡ sent_numbers self }
    {
        [self.fraction, 0, 1, self.training, self.renegotiation, 0]
    }
}

// What a sequence that was received says.
pub fn read(bits: &[u8]) -> Result<JpRead, Refusal>
    ensures { told result ≡ answer bits.now }
{
    let numbers = JP.read_sequence(bits)?;
    let fields = Jp::from_numbers(numbers);
    let part = part_of(fields.fraction);
    Ok(JpRead { fields, part })
}

// The sequence of some fields, into a slice of 72 bytes.
pub fn write(fields: Jp, lent: &mut [u8]) -> Result<(), Refusal>
    ensures { SequenceAnswer jp (sent_numbers fields) lent.old (code result) lent.new }
{
    JP.write_sequence(&fields.numbers(), lent)
}
