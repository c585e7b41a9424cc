// Refusals as document 01's numbers, and the two that every call on a frame begins with.
ghost use Rattle.std.specs.Prelude.{◌≡◌, IfOk};
ghost use Rattle.base.specs.Calls.{first_of};
ghost use Rattle.paper.specs.Causes.{cause_number, number_said};
ghost use Rattle.layout.specs.Asked.{FrameKnown, frame_rows};

use crate::systems;
use paper::{Cause, System};

// A cause's number.
pub fn number_of(cause: Cause) -> u32
    ensures { result ≡ cause_number cause }
{
    cause as u32
}

// The number that an answer says, 0 where nothing refuses.
pub fn number<T: Copy>(said: Result<T, Cause>) -> u32
    ensures { result ≡ number_said said }
{
    match said {
        Ok(_) => 0,
        Err(cause) => number_of(cause),
    }
}

// The system of a frame of so many bytes. Refusals: 1, 2.
pub fn system_of_frame(system: u32, bytes: usize) -> Result<System, Cause>
    ensures said { number_said result ≡ first_of (frame_rows system bytes) }
    ensures known { IfOk result (λ y. FrameKnown system bytes y) }
{
    let y = systems::system_of(system).ok_or(Cause::NoSystem)?;
    if bytes != systems::frame_bytes(y) {
        return Err(Cause::FrameLength);
    }
    Ok(y)
}
