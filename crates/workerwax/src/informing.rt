// The INFO sequences, by which each end says what it can (V.34, clause 10.1.2.3): bits to fields, and back.
//
// Each call has its own test of a length, entry and layout. A function for all sequences would be handed the last two as closures, and be
// longer than these three steps.
ghost use Rattle.std.specs.Prelude.{◌≡◌};
ghost use Rattle.refusals.specs.Numbers.{code};
ghost use Rattle.offset.specs.Requires.{NoNan};
ghost use Rattle.workerwax.specs.Info.{Info0ReadCall, Info0WriteCall, Info1cReadCall, Info1cWriteCall, reading_numbers};

use crate::layout::{halves_of, put_numbers, take_numbers};
use info::info0::{self, Info0};
use info::info1c::{self, Info1c};
use offset::reading::{is_reading, pattern_of};
use offset::signed::{signed, unsigned};
use refusals::{Refusal, code};

// The weight of the highest of 32 bits, which counts negative: C has the count of a frequency offset in 32.
const TOP_BIT: u64 = 2147483648;

// The fields of an INFO0 sequence that was received.
pub fn ww_info0_read(bits: &[u8], fields: &mut [u8]) -> u32
    ensures { Info0ReadCall bits.now fields.old result fields.new }
{
    code(answer_info0(bits, fields))
}

// Reads INFO0, and lays out its fields.
fn answer_info0(bits: &[u8], fields: &mut [u8]) -> Result<(), Refusal>
    ensures { Info0ReadCall bits.now fields.old (code result) fields.new }
{
    if fields.len() != 56 {
        return Err(Refusal::WrongLength);
    }
    let numbers: [u64; 14] = info0::read(bits)?.into();
    put_numbers(fields, &numbers);
    Ok(())
}

// The INFO0 sequence of some fields.
pub fn ww_info0_write(fields: &[u8], bits: &mut [u8]) -> u32
    ensures { Info0WriteCall fields.now bits.old result bits.new }
{
    code(send_info0(fields, bits))
}

// Takes the fields from their bytes, and has INFO0 written.
fn send_info0(fields: &[u8], bits: &mut [u8]) -> Result<(), Refusal>
    ensures { Info0WriteCall fields.now bits.old (code result) bits.new }
{
    if fields.len() != 56 {
        return Err(Refusal::WrongLength);
    }
    let mut numbers = [0; 14];
    take_numbers(fields, &mut numbers);
    info0::write(Info0::from(numbers), bits)
}

// Whether there is a reading, and its bit pattern in two halves, the lower one first.
fn reading_numbers(reading: Option<f64>) -> [u64; 3]
    requires { NoNan reading }
    ensures { result ≡ reading_numbers reading }
{
    let [low, high] = halves_of(pattern_of(reading));
    [is_reading(reading), low, high]
}

// The line report of an INFO1c sequence that was received: the fields, the count in 32 bits, and the offset in hertz.
pub fn ww_info1c_read(bits: &[u8], report: &mut [u8]) -> u32
    ensures { Info1cReadCall bits.now report.old result report.new }
{
    code(answer_info1c(bits, report))
}

// Reads INFO1c, and lays out its fields, with the count in 32 bits, and the reading behind them.
fn answer_info1c(bits: &[u8], report: &mut [u8]) -> Result<(), Refusal>
    ensures { Info1cReadCall bits.now report.old (code result) report.new }
{
    if report.len() != 100 {
        return Err(Refusal::WrongLength);
    }
    let found = info1c::read(bits)?;
    let count = unsigned(found.count, TOP_BIT);
    let (sent, offset) = report.split_at_mut(88);
    put_numbers(sent, &found.fields.numbers(count));
    put_numbers(offset, &reading_numbers(found.reading));
    Ok(())
}

// The INFO1c sequence of some fields, whose count comes in 32 bits.
pub fn ww_info1c_write(fields: &[u8], bits: &mut [u8]) -> u32
    ensures { Info1cWriteCall fields.now bits.old result bits.new }
{
    code(send_info1c(fields, bits))
}

// Takes the fields from their bytes, with the count out of 32 bits, and has INFO1c written.
fn send_info1c(fields: &[u8], bits: &mut [u8]) -> Result<(), Refusal>
    ensures { Info1cWriteCall fields.now bits.old (code result) bits.new }
{
    if fields.len() != 88 {
        return Err(Refusal::WrongLength);
    }
    let mut numbers = [0; 22];
    take_numbers(fields, &mut numbers);
    let count = signed(numbers[21], TOP_BIT);
    info1c::write(Info1c::from_numbers(numbers), count, bits)
}
