// INFO1c (V.34, Table 15): 109 bits, 22 fields. The call modem sends it.
ghost use Rattle.std.specs.Prelude.{◌≡◌, ◌+◌, ◌≤◌};
ghost use Rattle.refusals.specs.Numbers.{code};
ghost use Rattle.sequences.specs.Sequence.{SequenceAnswer};
ghost use Rattle.info.specs.Info1c.{info1c, block_of, fields_of, numbers_of, count_bits, report, told};

use fields::sequence::Layout;
use offset::reading::reading_of;
use offset::signed::{signed, unsigned};
use refusals::Refusal;
use sequences::{Field, field};

// Fill, sync, 77 bits of fields, sixteen of their check, fill.
const PICTURE: [u8; 109] =
    *b"111101110010.............................................................................................1111";

// First bit, width, least and most of each field.
const TABLE: [Field; 22] = [
    field!(12, 3, 0..=7), // least power reduction of the answer modem, in dB
    field!(15, 3, 0..=7), // further reduction that would be accepted, in dB
    field!(18, 7, 0..=127), // length of the signal MD, in units of 35 ms
    field!(25, 1, 0..=1), // 2400: carrier
    field!(26, 4, 0..=10), // 2400: filter
    field!(30, 4, 0..=14), // 2400: rate
    field!(34, 1, 0..=1), // 2743: carrier
    field!(35, 4, 0..=10), // 2743: filter
    field!(39, 4, 0..=14), // 2743: rate
    field!(43, 1, 0..=1), // 2800: carrier
    field!(44, 4, 0..=10), // 2800: filter
    field!(48, 4, 0..=14), // 2800: rate
    field!(52, 1, 0..=1), // 3000: carrier
    field!(53, 4, 0..=10), // 3000: filter
    field!(57, 4, 0..=14), // 3000: rate
    field!(61, 1, 0..=1), // 3200: carrier
    field!(62, 4, 0..=10), // 3200: filter
    field!(66, 4, 0..=14), // 3200: rate
    field!(70, 1, 0..=1), // 3429: carrier
    field!(71, 4, 0..=10), // 3429: filter
    field!(75, 4, 0..=14), // 3429: rate
    field!(79, 10, 0..=1023), // frequency offset, the count's ten bits
];

const INFO1C: Layout<'static, 109, 22, 93> = Layout {
    picture: &PICTURE,
    table: &TABLE,
};

// The weight of the highest of the count's ten bits. It counts negative.
const HALF: u64 = 512;

// What is proposed to the answer modem for one symbol rate. All stay numbers, as in `Info0`.
#[derive(Clone, Copy, PartialEq, Eq)]
pub struct Block {
    pub carrier: u64, // first bit: 1 the high carrier, 0 the low one
    pub filter: u64, // four bits: the pre-emphasis filter, 0 to 10 (Tables 3 and 4)
    pub rate: u64, // four bits: the highest data rate in steps of 2,400 bit/s, 0 to 14; 0: this symbol rate can't be used
}

// What the call modem says after probing the line. The offset stands apart, in the report. Each block has a name, since the definitions of
// Table 15 and the theorems over them go by these names.
#[derive(Clone, Copy, PartialEq, Eq)]
pub struct Info1c {
    pub power: u64, // bits 12 to 14: by how many dB the answer modem is to reduce its power at least, 0 to 7
    pub extra: u64, // bits 15 to 17: how many dB more would be accepted, 0 to 7
    pub md: u64, // bits 18 to 24: length of the call modem's signal MD in units of 35 ms, 0 to 127
    pub at_2400: Block, // bits 25 to 33
    pub at_2743: Block, // bits 34 to 42
    pub at_2800: Block, // bits 43 to 51
    pub at_3000: Block, // bits 52 to 60
    pub at_3200: Block, // bits 61 to 69
    pub at_3429: Block, // bits 70 to 78
}

// The line report: the fields; the whole count, in steps of 0.02 Hz; and beside it the reading in hertz, or none.
#[derive(Clone, Copy, PartialEq)]
pub struct Report {
    pub fields: Info1c,
    pub count: i32,
    pub reading: Option<f64>,
}

// Three numbers in the order of the table, from `at` on, as a block. No `From<[u64; 3]>`: the three would have to be cut out of the 22 first,
// at each of the six calls.
fn block_of(numbers: [u64; 22], at: usize) -> Block
    requires { at + 3 ≤ 22 }
    ensures { result ≡ block_of numbers at }
{
    Block {
        carrier: numbers[at],
        filter: numbers[at + 1],
        rate: numbers[at + 2],
    }
}

impl Info1c {
    // Numbers in the order of the table as fields. The last one is the count's, and is no field. So this and the way back, which takes the
    // count beside the fields, are no pair of `From`, as they are for INFO0.
    pub fn from_numbers(numbers: [u64; 22]) -> Info1c
        ensures { result ≡ fields_of numbers }
    {
        Info1c {
            power: numbers[0],
            extra: numbers[1],
            md: numbers[2],
            at_2400: block_of(numbers, 3),
            at_2743: block_of(numbers, 6),
            at_2800: block_of(numbers, 9),
            at_3000: block_of(numbers, 12),
            at_3200: block_of(numbers, 15),
            at_3429: block_of(numbers, 18),
        }
    }

    // Fields, and the number of the count, as numbers in the order of the table.
    pub fn numbers(self, count: u64) -> [u64; 22]
        ensures { result ≡ numbers_of self count }
    {
        [
            self.power,
            self.extra,
            self.md,
            self.at_2400.carrier,
            self.at_2400.filter,
            self.at_2400.rate,
            self.at_2743.carrier,
            self.at_2743.filter,
            self.at_2743.rate,
            self.at_2800.carrier,
            self.at_2800.filter,
            self.at_2800.rate,
            self.at_3000.carrier,
            self.at_3000.filter,
            self.at_3000.rate,
            self.at_3200.carrier,
            self.at_3200.filter,
            self.at_3200.rate,
            self.at_3429.carrier,
            self.at_3429.filter,
            self.at_3429.rate,
            count,
        ]
    }
}

// The report of a sequence that was received.
pub fn read(bits: &[u8]) -> Result<Report, Refusal>
    ensures { told result ≡ report bits.now }
{
    let numbers = INFO1C.read_sequence(bits)?;
    let fields = Info1c::from_numbers(numbers);
    let count = signed(numbers[21], HALF);
    let reading = reading_of(count);
    Ok(Report {
        fields,
        count,
        reading,
    })
}

// The sequence of some fields and a count, into a slice of 109 bytes. The count alone is sent, so nothing is rounded on the way.
pub fn write(fields: Info1c, count: i32, lent: &mut [u8]) -> Result<(), Refusal>
    ensures { SequenceAnswer info1c (numbers_of fields (count_bits count)) lent.old (code result) lent.new }
{
    let numbers = fields.numbers(unsigned(count, HALF));
    INFO1C.write_sequence(&numbers, lent)
}
