// The survey of one sequence.
ghost use Rattle.std.specs.Prelude.{◌≡◌, IfOk};
ghost use Rattle.paper.specs.Causes.{number_said};
ghost use Rattle.rules_surveys.specs.Survey.{SequenceSurveyed, sequence_number};
ghost use Rattle.surveys.specs.Asked.{SequenceKnown};

use fault_list::FaultList;
use layout::{DifSequence, SEQUENCE};
use paper::{Cause, Survey, System};

// What the survey of a sequence of so many bytes is refused for: 1, 3, 4.
fn refuse(system: u32, dif: DifSequence, bytes: usize) -> Result<System, Cause>
    ensures said { number_said result ≡ sequence_number system dif.channel dif.sequence bytes }
    ensures known { IfOk result (λ y. SequenceKnown system dif.channel dif.sequence bytes y) }
{
    let y = layout::system_of(system).ok_or(Cause::NoSystem)?;
    let out = faults::outside(y, dif);
    if out {
        return Err(Cause::OutsideSystem);
    }
    if bytes != SEQUENCE {
        return Err(Cause::LentLength);
    }
    Ok(y)
}

// The survey of one sequence. Refusals: 1, 3, 4.
pub fn survey_sequence(
    system: u32,
    channel: u32,
    sequence: u32,
    part: &[u8],
    list: &mut [u32],
) -> Survey
    ensures { SequenceSurveyed system channel sequence part.now list.old result list.new }
{
    let dif = DifSequence { channel, sequence };
    let y = match refuse(system, dif, part.len()) {
        Ok(y) => y,
        Err(cause) => return fault_list::refused(layout::number_of(cause)),
    };
    let mut found = FaultList {
        numbers: list,
        total: 0,
    };
    found.survey_next(y, dif, part);
    found.answered()
}
