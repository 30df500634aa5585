// From the input of the settings program to the line that it prints.
ghost use Rattle.std.specs.Prelude.{◌≡◌, ◌++◌, ◌+◌, ◌≤◌, length};
ghost use Rattle.line.specs.Worked.{told};
ghost use Rattle.settings.specs.Lines.{answer_of, text_of, line_of, Answers};

use crate::text::{ROOM, Text};
use line::{Asked, Settings};
use refusals::Refusal;

// What is answered: a byte for each setting worked out, and the refusal of a wrong length for any other input.
#[tactic(auto, unfolding(crate::specs::Lines::answer_of))]
fn worked_of(input: &[u8]) -> Result<Settings, Refusal>
    ensures { told result ≡ answer_of input.now }
{
    let &[role, s, n, shaping, mark] = input else {
        return Err(Refusal::WrongLength);
    };
    line::work_out(Asked {
        role: u64::from(role),
        s: u64::from(s),
        n: u64::from(n),
        shaping: u64::from(shaping),
        mark: u64::from(mark),
    })
}

// The text of an answer: the eight values, or `refused` and the number.
#[tactic(auto, using(crate::proofs::Fitting::texts), unfolding(crate::specs::Lines::text_of))]
fn put_text(text: &mut Text, worked: Result<Settings, Refusal>)
    requires { length text.old + length (text_of (told worked)) ≤ ROOM }
    ensures { text.new ≡ text.old ++ text_of (told worked) }
{
    match worked {
        Ok(settings) => text.put_joined(&settings.values()),
        Err(refusal) => {
            text.put_bytes(b"refused");
            text.put_spaced(u64::from(refusal.number()));
        }
    }
}

// The line of an input: the text of its answer, and the line feed.
#[tactic(auto, using(crate::proofs::Fitting::lines), unfolding(crate::specs::Lines::line_of, crate::specs::Lines::ended))]
fn line_of(input: &[u8]) -> Text
    ensures { result ≡ line_of input.now }
{
    let mut text = Text::new();
    put_text(&mut text, worked_of(input));
    text.put_byte(b'\n');
    text
}

// Puts the line for the input at the front of `line`, and answers how long it is. The text is put together
// in a `Text` and copied once: docs/PROMISES.md names this function with the buffer that it is lent.
pub fn answer(input: &[u8], line: &mut [u8; ROOM]) -> usize
    ensures { Answers input.now line.old line.new result }
{
    let text = line_of(input);
    let bytes = text.as_bytes();
    line[..bytes.len()].copy_from_slice(bytes);
    bytes.len()
}
