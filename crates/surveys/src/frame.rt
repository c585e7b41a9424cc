// The survey of a frame, sequence by sequence.
ghost use Rattle.std.specs.Prelude.{◌≡◌};
ghost use Rattle.rules_format.specs.Blocks.{sequence_at};
ghost use Rattle.rules_surveys.specs.FaultLists.{channel_faults, frame_faults};
ghost use Rattle.rules_surveys.specs.Survey.{FrameSurveyed};
ghost use Rattle.fault_list.specs.Listed.{NotedIn};
ghost use Rattle.surveys.specs.Asked.{PartAsked, ChannelAsked};

use fault_list::FaultList;
use layout::{CHANNELS, DifSequence, Frame, SEQUENCE};
use paper::Survey;

// The bytes of a sequence in its frame.
fn part_of<'a>(frame: &Frame<'a>, dif: DifSequence) -> &'a [u8]
    requires { PartAsked frame.now.system dif.channel dif.sequence }
    ensures { result.now ≡ sequence_at frame.now.system frame.now.bytes.now dif.channel dif.sequence }
{
    let at = dif.start(frame.system);
    &frame.bytes[at..at + SEQUENCE]
}

// The survey of one DIF channel.
fn survey_channel(frame: &Frame, h: u32, list: &mut FaultList)
    requires { ChannelAsked h list.old.total }
    ensures { NotedIn list.old (channel_faults frame.now.system frame.now.bytes.now h) list.new }
{
    for q in 0..layout::sequences(frame.system) {
        let dif = DifSequence {
            channel: h,
            sequence: q,
        };
        list.survey_next(frame.system, dif, part_of(frame, dif));
    }
}

// The survey of a frame.
fn survey_all(frame: &Frame, list: &mut FaultList)
    requires { list.old.total ≡ 0 }
    ensures { NotedIn list.old (frame_faults frame.now.system frame.now.bytes.now) list.new }
{
    for h in 0..CHANNELS {
        survey_channel(frame, h, list);
    }
}

// The survey of a frame. Refusals: 1, 2.
pub fn survey(system: u32, frame: &[u8], list: &mut [u32]) -> Survey
    ensures { FrameSurveyed system frame.now list.old result list.new }
{
    let y = match layout::system_of_frame(system, frame.len()) {
        Ok(y) => y,
        Err(cause) => return fault_list::refused(layout::number_of(cause)),
    };
    let mut found = FaultList {
        numbers: list,
        total: 0,
    };
    let whole = Frame {
        system: y,
        bytes: frame,
    };
    survey_all(&whole, &mut found);
    found.answered()
}
