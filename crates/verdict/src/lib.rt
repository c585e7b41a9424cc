// What is answered of an input that was read to its end: refusal 2, or the survey of the frame.
#![tactic(auto)]

ghost use Rattle.verdict.specs.Length.{Judged, Answered};

use paper::{Survey, System};
use stream::Reading;

// The length of an input, for a frame of its system.
#[derive(Clone, Copy)]
pub enum FrameLength {
    Right,
    Wrong,
}

// "frame length is not 48,000·n": fewer than four bytes are a wrong length too.
pub fn length_of(y: System, count: u32) -> FrameLength
    ensures { Judged y count result }
{
    if (count as usize) == layout::frame_bytes(y) {
        FrameLength::Right
    } else {
        FrameLength::Wrong
    }
}

// The answer to an input, of a list of so many numbers.
pub fn answer(r: Reading, size: usize) -> Survey
    ensures { Answered r size result }
{
    let y = r.system;
    let length = length_of(y, r.count);
    match length {
        FrameLength::Right => fault_list::answered(r.total, size),
        FrameLength::Wrong => fault_list::refused(2),
    }
}
