// One data frame: bits to the bytes of labels, and back.
ghost use Rattle.std.specs.Prelude.{◌≡◌, ◌≤◌, ◌*◌, Ok};
ghost use Rattle.refusals.specs.Numbers.{code};
ghost use Rattle.line.specs.Asked.{asked};
ghost use Rattle.coder.specs.State.{state_of};
ghost use Rattle.coder.specs.Answers.{answered};
ghost use Rattle.workerwax.specs.Calls.{WriteCall, ReadCall, coded_numbers};
ghost use Rattle.workerwax.specs.Lending.{lent_labels};

use crate::asked::asked_of;
use crate::layout::{put_numbers, take_numbers};
use crate::starting::numbers_of;
use coder::{Coded, State};
use refusals::{Refusal, code};

// How many labels the coder is lent for slices of these lengths. No data frame has 0 labels, so the coder then refuses with 8
// (`WrongLength`), in its place among the other refusals, and no order is said twice.
#[tactic(auto, using(std::proofs::lemmas::Bool::Decides::nat_tests), unfolding(crate::specs::Lending::lent_labels))]
fn lent_labels(labels: usize, answer: usize) -> usize
    ensures value { result ≡ lent_labels labels answer }
    ensures most { result ≤ 256 }
    ensures within { 2 * result ≤ labels }
{
    if answer == 32 && labels <= 512 && labels % 2 == 0 {
        labels / 2
    } else {
        0
    }
}

// N, and the numbers of the state that comes next.
fn coded_numbers(coded: Coded) -> [u64; 8]
    ensures { result ≡ coded_numbers (answered coded.state (Ok coded)) }
{
    let [role, s, n, shaping, mark, register, z] = numbers_of(coded.state);
    [coded.bits, role, s, n, shaping, mark, register, z]
}

// The labels of a data frame's bits, two bytes each, low byte first, and the state that comes next.
pub fn ww_write(
    role: u64,
    s: u64,
    n: u64,
    shaping: u64,
    mark: u64,
    register: u64,
    z: u64,
    bits: &[u8],
    labels: &mut [u8],
    answer: &mut [u8],
) -> u32
    ensures { WriteCall (state_of (asked role s n shaping mark) register z) bits.now labels.old answer.old result labels.new answer.new }
{
    let asked = asked_of(role, s, n, shaping, mark);
    let st = State { asked, register, z };
    code(answer_write(st, bits, labels, answer))
}

// Lays out the labels and the next state, if the writer doesn't refuse. The labels are written into an array as long as the longest data
// frame, of which a part is lent, since nothing is allocated (a rule of the project: no heap).
fn answer_write(st: State, bits: &[u8], labels: &mut [u8], answer: &mut [u8]) -> Result<(), Refusal>
    ensures { WriteCall st bits.now labels.old answer.old (code result) labels.new answer.new }
{
    let lent = lent_labels(labels.len(), answer.len());
    let mut room = [0; 256];
    let space = &mut room[..lent];
    let coded = writer::write(st, bits, space)?;
    put_numbers(labels, space);
    put_numbers(answer, &coded_numbers(coded));
    Ok(())
}

// The bits of a data frame's labels, and the state that comes next.
pub fn ww_read(
    role: u64,
    s: u64,
    n: u64,
    shaping: u64,
    mark: u64,
    register: u64,
    z: u64,
    labels: &[u8],
    bits: &mut [u8],
    answer: &mut [u8],
) -> u32
    ensures { ReadCall (state_of (asked role s n shaping mark) register z) labels.now bits.old answer.old result bits.new answer.new }
{
    let asked = asked_of(role, s, n, shaping, mark);
    let st = State { asked, register, z };
    code(answer_read(st, labels, bits, answer))
}

// Takes the labels from their bytes, into an array as above, and lays out the next state, if the reader doesn't refuse.
fn answer_read(st: State, labels: &[u8], bits: &mut [u8], answer: &mut [u8]) -> Result<(), Refusal>
    ensures { ReadCall st labels.now bits.old answer.old (code result) bits.new answer.new }
{
    let lent = lent_labels(labels.len(), answer.len());
    let mut room = [0; 256];
    let space = &mut room[..lent];
    take_numbers(&labels[..2 * lent], space);
    let coded = reader::read(st, space, bits)?;
    put_numbers(answer, &coded_numbers(coded));
    Ok(())
}
