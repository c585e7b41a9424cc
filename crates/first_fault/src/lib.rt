// The first fault of a frame, which ends the search.
#![tactic(auto)]

mod sequence;

ghost use Rattle.std.specs.Prelude.{◌≡◌, ◌*◌, length};
ghost use Rattle.paper.specs.Causes.{number_said};
ghost use Rattle.rules_format.specs.Systems.{sequences_of};
ghost use Rattle.rules_surveys.specs.FaultLists.{frame_faults};
ghost use Rattle.first_fault.specs.Asked.{FirstFaultIs, first_or_length};

use layout::{CHANNELS, DifSequence, Frame, SEQUENCE};
use paper::{Cause, System};

// The first fault, sequence by sequence.
fn first_in(frame: &Frame) -> Result<(), Cause>
    ensures { FirstFaultIs (number_said result) (frame_faults frame.now.system frame.now.bytes.now) }
{
    let n = layout::sequences(frame.system);
    for j in 0..n * CHANNELS {
        let at = (j as usize) * SEQUENCE;
        let dif = DifSequence {
            channel: j / n,
            sequence: j % n,
        };
        sequence::first_sequence(&frame.bytes[at..at + SEQUENCE], dif)?;
    }
    Ok(())
}

// The first fault of a frame in stream order; 2 where the frame has not its length.
pub fn first_fault(y: System, frame: &[u8]) -> Result<(), Cause>
    ensures { number_said result ≡ first_or_length y frame.now }
{
    if frame.len() != layout::frame_bytes(y) {
        return Err(Cause::FrameLength);
    }
    let whole = Frame {
        system: y,
        bytes: frame,
    };
    first_in(&whole)
}
