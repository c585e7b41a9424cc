// The frame check, which every strict read asks for itself.
#![tactic(auto)]

ghost use Rattle.std.specs.Prelude.{◌≡◌, IfOk, length};
ghost use Rattle.paper.specs.Causes.{number_said};
ghost use Rattle.rules_reads.specs.Check.{Checked};
ghost use Rattle.layout.specs.Asked.{FrameKnown};
ghost use Rattle.refuse_check.specs.Asked.{whole_number};

use judges::Test;
use paper::{Cause, System};

// What a frame of a known system is refused for: 2, 11 to 15 of its first faulty block, 21, 22.
pub fn refuse_known(y: System, frame: &[u8]) -> Result<(), Cause>
    ensures { number_said result ≡ whole_number y frame.now }
{
    first_fault::first_fault(y, frame)?;
    if !judges::every_sequence(y, frame, Test::Dsf) {
        return Err(Cause::DsfDisagrees);
    }
    if !judges::every_sequence(y, frame, Test::Vs) {
        return Err(Cause::VsDisagrees);
    }
    Ok(())
}

// The frame check: 1, 2, 11 to 15, 21, 22.
pub fn refuse(system: u32, frame: &[u8]) -> Result<System, Cause>
    ensures said { Checked system frame.now (number_said result) }
    ensures known { IfOk result (λ y. FrameKnown system (length frame.now) y) }
{
    let y = layout::system_of_frame(system, frame.len())?;
    refuse_known(y, frame)?;
    Ok(y)
}
