// The call: its refusals in their order, then the audio channels one after the other.
ghost use Rattle.std.specs.Prelude.{◌≡◌, ◌*◌, IfOk, length};
ghost use Rattle.rules_format.specs.Systems.{positions_of};
ghost use Rattle.paper.specs.Causes.{number_said};
ghost use Rattle.rules_surveys.specs.Salvage.{salvage_number, Salvaged};
ghost use Rattle.rescue.specs.Asked.{FrameSalvaged, LentKnown};

use crate::half;
use fault_list::FaultList;
use layout::Frame;
use paper::{Cause, Survey, System};

// Every audio channel.
fn salvage_all(frame: &Frame, samples: &mut [i32], list: &mut FaultList)
    requires room { length samples.old ≡ 8 * positions_of frame.now.system }
    requires first { list.old.total ≡ 0 }
    ensures { FrameSalvaged frame.now.system frame.now.bytes.now samples.new list.old list.new }
{
    let size = layout::positions(frame.system) as usize;
    for i in 0..8u32 {
        let at = (i as usize) * size;
        let to = at + size;
        half::salvage_half(frame, i, &mut samples[at..to], list);
    }
}

// What is lent, so many numbers for samples, is refused for: 1, 2, 4.
fn refuse(system: u32, frame: &[u8], samples: usize) -> Result<System, Cause>
    ensures said { number_said result ≡ salvage_number system frame.now samples }
    ensures known { IfOk result (λ y. LentKnown system frame.now samples y) }
{
    let y = layout::system_of_frame(system, frame.len())?;
    if samples != 8 * (layout::positions(y) as usize) {
        return Err(Cause::LentLength);
    }
    Ok(y)
}

// Every position of every audio channel, and the fault list. Refusals: 1, 2, 4.
pub fn salvage(system: u32, frame: &[u8], samples: &mut [i32], list: &mut [u32]) -> Survey
    ensures { Salvaged system frame.now samples.old list.old result samples.new list.new }
{
    let y = match refuse(system, frame, samples.len()) {
        Ok(y) => y,
        Err(cause) => return fault_list::refused(layout::number_of(cause)),
    };
    let mut found = FaultList {
        numbers: list,
        total: 0,
    };
    let whole = Frame {
        system: y,
        bytes: frame,
    };
    salvage_all(&whole, samples, &mut found);
    found.answered()
}
