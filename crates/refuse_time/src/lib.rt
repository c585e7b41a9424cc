// The time code read's refusals.
#![tactic(auto)]

ghost use Rattle.std.specs.Prelude.{◌≡◌, IfOk, length};
ghost use Rattle.base.specs.Calls.{first_of};
ghost use Rattle.paper.specs.Causes.{number_said};
ghost use Rattle.layout.specs.Asked.{FrameKnown};
ghost use Rattle.rules_reads.specs.Time.{time_rows, time_number};

use judges::Test;
use paper::{Cause, SubcodeData, System};

// What a frame is refused for beyond the frame check: 23, 26, 27.
fn refuse_clock(y: System, frame: &[u8]) -> Result<(), Cause>
    ensures { number_said result ≡ first_of (time_rows y frame.now) }
{
    if !judges::every_sequence(y, frame, Test::Unflagged(3)) {
        return Err(Cause::Flagged);
    }
    let time = judges::time_first(y, frame);
    let group = judges::group_first(y, frame);
    if !(packs::time_ok(y, time) & packs::group_ok(group)) {
        return Err(Cause::SubcodeBreaksRules);
    }
    if !judges::every_sequence(y, frame, Test::Subcode(SubcodeData { time, group })) {
        return Err(Cause::SubcodeDiffers);
    }
    Ok(())
}

// A time code read: 1, 2, the frame check's, 23, 26, 27.
pub fn refuse(system: u32, frame: &[u8]) -> Result<System, Cause>
    ensures said { number_said result ≡ time_number system frame.now }
    ensures known { IfOk result (λ y. FrameKnown system (length frame.now) y) }
{
    let y = layout::system_of_frame(system, frame.len())?;
    refuse_check::refuse_known(y, frame)?;
    refuse_clock(y, frame)?;
    Ok(y)
}
