// Workerwax, crate `settings`: the settings program (document 01, "Settings program").
//
// What does it do? It reads a byte for each setting from standard input, role, s, n, shaping and mark, and prints N P b r K q M L in
// decimal, or `refused` and the number. Any other number of bytes is `refused 8`.
// How does it work? `main` only reads and writes; `answer::answer` turns the input into the line, and its contract gives every byte.
#![tactic(auto)]

ghost use Rattle.std.specs.Prelude.{IfOk, ◌≤◌, ◌<◌, length, take};
ghost use Rattle.std.specs.Io.KnownBytes.{Consumes, IsAtEnd};

mod answer;
mod text;

use std::io;
use std::io::Read;

// Fills the front of `space` with the input, as far as there is input and room, and answers how many bytes that is.
// The loop counts bytes read, and no index. std's `read_exact` refuses an input that is shorter than the space, and `read_to_end` needs a
// heap.
fn read_full<R: Read>(input: &mut R, space: &mut [u8]) -> io::Result<usize>
    ensures within { IfOk result (λ read. read ≤ length space.new) }
    ensures bytes { IfOk result (λ read. Consumes (R.remaining input.old) (R.remaining input.new) (take read space.new)) }
    ensures ended { IfOk result (λ read. read < length space.new → IsAtEnd (R.remaining input.new)) }
{
    let mut done = 0;
    while done < space.len() {
        let read = input.read(&mut space[done..])?;
        if read == 0 {
            break;
        }
        done += read;
    }
    Ok(done)
}

// The buffer holds far more than these bytes, so that an input that is too long is seen to be.
fn main(rt: HostRuntime) -> io::Result<()> {
    let mut input = [0u8; 4096];
    let read = read_full(&mut rt.stdin(), &mut input)?;
    let mut line = [0u8; text::ROOM];
    let count = answer::answer(&input[..read], &mut line);
    rt.write_all(&line[..count])
}
