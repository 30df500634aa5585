// The sequence Jp, by which a digital modem tells the analogue one how to send (V.92, clause 8.6.3): bits to fields, and back.
ghost use Rattle.std.specs.Prelude.{not, ◌≡◌, T, Ok};
ghost use Rattle.std.specs.Float.Ieee.{is_nan};
ghost use Rattle.refusals.specs.Numbers.{code};
ghost use Rattle.jp.specs.Jp.{told};
ghost use Rattle.workerwax.specs.Jp.{answer_numbers, JpReadCall, JpWriteCall};

use crate::layout::{halves_of, put_numbers};
use jp::sequence::{Jp, JpRead, read, write};
use refusals::{Refusal, code};

// The fields, and the bit pattern of the fraction as a part of a symbol in two halves, the lower one first.
fn answer_numbers(heard: JpRead) -> [u64; 5]
    requires { T (not (is_nan heard.part)) }
    ensures { result ≡ answer_numbers (told (Ok heard)) }
{
    let [low, high] = halves_of(f64::to_bits(heard.part));
    [
        heard.fields.fraction,
        heard.fields.training,
        heard.fields.renegotiation,
        low,
        high,
    ]
}

// What a Jp sequence that was received says.
pub fn ww_jp_read(bits: &[u8], answer: &mut [u8]) -> u32
    ensures { JpReadCall bits.now answer.old result answer.new }
{
    code(answer_jp(bits, answer))
}

// Reads Jp, and lays out what it says. The test of the length, the entry and the layout are its own, for the reason at the head of
// informing.rt.
fn answer_jp(bits: &[u8], answer: &mut [u8]) -> Result<(), Refusal>
    ensures { JpReadCall bits.now answer.old (code result) answer.new }
{
    if answer.len() != 20 {
        return Err(Refusal::WrongLength);
    }
    let heard = read(bits)?;
    put_numbers(answer, &answer_numbers(heard));
    Ok(())
}

// The Jp sequence of a fraction and both sizes.
pub fn ww_jp_write(fraction: u64, training: u64, renegotiation: u64, bits: &mut [u8]) -> u32
    ensures { JpWriteCall fraction training renegotiation bits.old result bits.new }
{
    let fields = Jp {
        fraction,
        training,
        renegotiation,
    };
    code(write(fields, bits))
}
