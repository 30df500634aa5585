// The tests of the reader, one for each refusal, each over the whole data frame, and the refusals in their order.
ghost use Rattle.std.specs.Prelude.{true, false, ◌≡◌, ℕ, ◌≤◌, MatchOption, IfOk};
ghost use Rattle.refusals.specs.Numbers.{code};
ghost use Rattle.line.specs.Worked.{Accepted};
ghost use Rattle.coder.specs.Answers.{read_refusal};
ghost use Rattle.reader.specs.OneFrame.{Ranked};
ghost use Rattle.reader.specs.Requires.{Complete, Ranging};
ghost use Rattle.coder.specs.Receiving.{receiving_of, all_in_range, numbers_fit, all_steps_fit};
ghost use Rattle.coder.specs.Sending.{ring_count};
ghost use Rattle.coder.specs.State.{worked_in};

use coder::answers::is_exact;
use coder::states::State;
use counts::Counts;
use frame::check::{in_range, number_fits, steps_fit};
use frame::read::{label_at, rings_read};
use line::Settings;
use mapping_frames::Frames;
use refusals::Refusal;
use rings::number_of;

// Refusal 10, `OutOfRange`: whether all labels are in their ranges. Settings and labels stand side by side, here and below, since the
// definitions of `coder` speak of both: `all_in_range`, `numbers_fit`, `all_steps_fit`.
fn all_in_range(c: Settings, labels: &[u16]) -> bool
    requires { Complete c labels.now }
    ensures { result ≡ all_in_range c labels.now }
{
    let m = c.shaping.rings();
    let q = c.uncoded as usize;
    labels
        .chunks_exact(16)
        .all(|sixteen| in_range(m, q, sixteen))
}

// Refusal 11, `UnsentRings`: the numbers of all frames' rings, for reading, if each fits.
fn numbers_of(c: Settings, counts: &Counts, labels: &[u16]) -> Option<[u64; 16]>
    requires ranging { Ranging c labels.now }
    requires counted { counts.now.m ≡ ring_count c }
    ensures { MatchOption result
        ((z : ℕ) → numbers_fit c c.frames (receiving_of z labels.now) ≡ false)
        (λ numbers. ((z : ℕ) → numbers_fit c c.frames (receiving_of z labels.now) ≡ true) × Ranked c labels.now numbers) }
{
    let q = c.uncoded as usize;
    let mut numbers = [0; 16];
    for (frame, sixteen) in Frames::of(c).zip(labels.chunks_exact(16)) {
        let number = number_of(counts, &rings_read(q, sixteen));
        if !number_fits(frame.shape, number) {
            return None;
        }
        // By place, since no clause says what a zip with `iter_mut` writes.
        numbers[frame.index] = number;
    }
    Some(numbers)
}

// Refusal 12, `UnsentStep`: whether the steps of Z of every frame fit.
fn steps_all_fit(c: Settings, z: u64, labels: &[u16]) -> bool
    requires ranging { Ranging c labels.now }
    requires z_bound { z ≤ 3 }
    ensures { result ≡ all_steps_fit c c.frames (receiving_of z labels.now) }
{
    let mut turned = z;
    for (frame, sixteen) in Frames::of(c).zip(labels.chunks_exact(16)) {
        if !steps_fit(frame.shape.threes, turned, sixteen) {
            return false;
        }
        turned = label_at(sixteen, 14);
    }
    true
}

// The reader's refusal where the settings are accepted: each test is of the whole data frame. Where none refuses, the numbers of the
// frames' rings are answered. Settings and state stand side by side, since `read_refusal` speaks of both.
#[tactic(auto, using(std::proofs::lemmas::Bool::Decides::nat_tests), unfolding(laws::specs::Choice::refusal))]
pub fn test(
    c: Settings,
    counts: &Counts,
    st: State,
    labels: &[u16],
    lent: usize,
) -> Result<[u64; 16], Refusal>
    requires st_value { worked_in st ≡ Accepted c }
    requires counted { counts.now.m ≡ ring_count c }
    ensures refusal { code result ≡ read_refusal (Accepted c) st labels.now lent }
    ensures ranked { IfOk result (λ numbers. Ranked c labels.now numbers) }
{
    if st.is_unfit() {
        return Err(Refusal::UnfitState);
    }
    if !is_exact(c, lent, labels.len()) {
        return Err(Refusal::WrongLength);
    }
    if !all_in_range(c, labels) {
        return Err(Refusal::OutOfRange);
    }
    let Some(numbers) = numbers_of(c, counts, labels) else {
        return Err(Refusal::UnsentRings);
    };
    if !steps_all_fit(c, st.z, labels) {
        return Err(Refusal::UnsentStep);
    }
    Ok(numbers)
}
