// The macroblock read's refusals.
#![tactic(auto)]

ghost use Rattle.std.specs.Prelude.{◌≡◌, IfOk, length};
ghost use Rattle.base.specs.Calls.{first_of};
ghost use Rattle.paper.specs.Causes.{number_said};
ghost use Rattle.layout.specs.Asked.{FrameKnown};
ghost use Rattle.rules_reads.specs.Macroblock.{picture_rows, MacroblockNumbered};

use judges::Test;
use paper::{Cause, System};

// What a frame is refused for beyond the frame check: 23.
fn refuse_picture(y: System, frame: &[u8]) -> Result<(), Cause>
    ensures { number_said result ≡ first_of (picture_rows y frame.now) }
{
    if !judges::every_sequence(y, frame, Test::Unflagged(2)) {
        return Err(Cause::Flagged);
    }
    Ok(())
}

// A read of macroblock b: 1, 2, 3, the frame check's, 23.
pub fn refuse(system: u32, frame: &[u8], b: u32) -> Result<System, Cause>
    ensures said { MacroblockNumbered system frame.now b (number_said result) }
    ensures known { IfOk result (λ y. FrameKnown system (length frame.now) y) }
{
    let y = layout::system_of_frame(system, frame.len())?;
    let within = b < layout::macroblocks(y);
    if !within {
        return Err(Cause::OutsideSystem);
    }
    refuse_check::refuse_known(y, frame)?;
    refuse_picture(y, frame)?;
    Ok(y)
}
