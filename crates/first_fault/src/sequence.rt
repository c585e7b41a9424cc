// The first fault of one sequence.
ghost use Rattle.paper.specs.Causes.{number_said};
ghost use Rattle.rules_surveys.specs.FaultLists.{sequence_faults};
ghost use Rattle.judged_bits.specs.Clean.{PartAsked};
ghost use Rattle.first_fault.specs.Asked.{FirstFaultIs};

use layout::{BLOCK, DifSequence, PLACES};
use paper::{Cause, Place};

// The first fault, block by block.
fn first_part(part: &[u8], dif: DifSequence) -> Result<(), Cause>
    requires { PartAsked part.now dif.channel dif.sequence }
    ensures { FirstFaultIs (number_said result) (sequence_faults part.now dif.channel dif.sequence) }
{
    for p in 0..PLACES {
        let at = (p as usize) * BLOCK;
        faults::fault_at(&part[at..at + BLOCK], dif, Place(p))?;
    }
    Ok(())
}

// The first fault of a sequence's 12,000 bytes: block by block only where the judged bits are not all clear.
pub(crate) fn first_sequence(part: &[u8], dif: DifSequence) -> Result<(), Cause>
    requires { PartAsked part.now dif.channel dif.sequence }
    ensures { FirstFaultIs (number_said result) (sequence_faults part.now dif.channel dif.sequence) }
{
    if judged_bits::clean_part::<false>(part, dif) {
        return Ok(());
    }
    first_part(part, dif)
}
