// The mapping frames of a data frame, read one after the other.
ghost use Rattle.std.specs.Prelude.{◌≡◌};
ghost use Rattle.coder.specs.Answers.{Receivable};
ghost use Rattle.reader.specs.OneFrame.{Ranked, FrameReceived};
ghost use Rattle.reader.specs.Requires.{FrameReceivable};
ghost use Rattle.coder.specs.Receiving.{data_bits, data_read_register, data_read_turned};

use coder::states::{Moved, State};
use frame::read::read_frame;
use frame::shape::Shape;
use line::Settings;
use mapping_frames::Frames;
use scrambler::descramble_part;

// The bits of one frame, `number` being that of its rings, into the part of the bit buffer that is lent for them, and the register and Z
// after it. The role stands apart from the register, which alone moves on: `descramble_part` takes both.
fn receive_frame(
    role: u64,
    shape: Shape,
    number: u64,
    before: Moved,
    labels: &[u16],
    bits: &mut [u8],
) -> Moved
    requires { FrameReceivable shape number before labels.now bits.old }
    ensures { FrameReceived role shape number before labels.now result bits.new }
{
    let size = bits.len();
    // A frame has at most 80 bits: fixed memory, of which they take the front.
    let mut space = [0; 80];
    let z = read_frame(shape, number, before.z, labels, &mut space[..size]);
    let register = descramble_part(role, before.register, &space[..size], bits);
    Moved { register, z }
}

// The bits of a data frame, straight into the lent buffer. Its frames are ranked already. State and settings stand side by
// side, since `Receivable` speaks of both.
pub fn receive(st: State, c: Settings, labels: &[u16], numbers: &[u64], bits: &mut [u8]) -> Moved
    requires receivable { Receivable st c labels.now bits.old }
    requires ranked { Ranked c labels.now numbers.now }
    ensures bits_after { bits.new ≡ data_bits c st.register st.z labels.now }
    ensures register_value { result.register ≡ data_read_register c st.register st.z labels.now }
    ensures z_value { result.z ≡ data_read_turned c st.z labels.now }
{
    let mut moved = Moved::from(st);
    // The numbers by place, which the frame tells anyway: a zip of three nests its pattern, `((frame, sixteen), number)`.
    for (frame, sixteen) in Frames::of(c).zip(labels.chunks_exact(16)) {
        moved = receive_frame(
            c.role,
            frame.shape,
            numbers[frame.index],
            moved,
            sixteen,
            &mut bits[frame.start..frame.end],
        );
    }
    moved
}
