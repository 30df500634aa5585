// The mapping frames of a data frame, written one after the other.
ghost use Rattle.std.specs.Prelude.{◌≡◌};
ghost use Rattle.coder.specs.Answers.{Sendable};
ghost use Rattle.writer.specs.OneFrame.{FrameSent};
ghost use Rattle.writer.specs.Requires.{FrameSendable};
ghost use Rattle.coder.specs.Sending.{data_labels, data_register, data_turned};

use bits::value_at;
use coder::states::{Moved, State};
use counts::{Counts, counts_of};
use frame::shape::Shape;
use frame::write::write_frame;
use line::Settings;
use mapping_frames::Frames;
use rings::rings_of;
use scrambler::scramble_part;

// One mapping frame: its bits are scrambled, S gives the rings, and the labels go straight into the part that is lent.
// The role stands apart from the register, which alone moves on: `scramble_part` takes both.
fn send_frame(
    counts: &Counts,
    role: u64,
    shape: Shape,
    before: Moved,
    bits: &[u8],
    out: &mut [u16],
) -> Moved
    requires { FrameSendable counts.now.m shape before bits.now out.old }
    ensures { FrameSent counts.now.m shape role before bits.now result out.new }
{
    // A frame has at most 80 bits: fixed memory, of which they take the front.
    let mut space = [0; 80];
    let register = scramble_part(role, before.register, bits, &mut space);
    let scrambled = &space[..bits.len()];
    let s = value_at(scrambled, 0, shape.shell);
    let rings = rings_of(counts, s);
    let z = write_frame(shape, &rings, before.z, scrambled, out);
    Moved { register, z }
}

// The labels of a data frame, straight into the lent buffer. State and settings stand side by side, since `Sendable` speaks of both.
pub fn send(st: State, c: Settings, bits: &[u8], out: &mut [u16]) -> Moved
    requires { Sendable st c bits.now out.old }
    ensures out_after { out.new ≡ data_labels c st.register st.z bits.now }
    ensures register_value { result.register ≡ data_register c st.register bits.now }
    ensures z_value { result.z ≡ data_turned c st.register st.z bits.now }
{
    let counts = counts_of(c.shaping.rings());
    let mut moved = Moved::from(st);
    for frame in Frames::of(c) {
        // By place, since no clause of `chunks_exact_mut` says what the slice holds once its chunks are written: the proof does not close.
        let at = 16 * frame.index;
        moved = send_frame(
            &counts,
            c.role,
            frame.shape,
            moved,
            &bits[frame.start..frame.end],
            &mut out[at..at + 16],
        );
    }
    moved
}
