// What the writer is lent: its refusals in their order.
#![tactic(auto)]

ghost use Rattle.std.specs.Prelude.{◌≡◌, IfOk};
ghost use Rattle.paper.specs.Causes.{number_said};
ghost use Rattle.layout.specs.Asked.{FrameKnown};
ghost use Rattle.rules_writes.specs.Write.{contents_of, lengths_fit, write_number};

use paper::{Cause, System};

// The lengths are the system's and the count's.
fn lengths_ok(
    y: System,
    count: u32,
    sound: &[i32],
    macroblocks: &[u8],
    time: &[u8],
    group: &[u8],
) -> bool
    ensures { result ≡ lengths_fit y count sound.now macroblocks.now time.now group.now }
{
    (sound.len() == 8 * (count as usize))
        & (macroblocks.len() == 77 * (layout::macroblocks(y) as usize))
        & (time.len() == 4)
        & (group.len() == 4)
}

// What is lent for a frame of so many bytes: 1, 2, 3, 4, 31, 32.
pub fn refuse(
    system: u32,
    count: u32,
    sound: &[i32],
    macroblocks: &[u8],
    time: &[u8],
    group: &[u8],
    size: usize,
) -> Result<System, Cause>
    ensures said { number_said result ≡ write_number system (contents_of count sound.now macroblocks.now time.now group.now) size }
    ensures known { IfOk result (λ y. FrameKnown system size y) }
{
    let y = layout::system_of_frame(system, size)?;
    let counted = layout::is_count(y, count);
    let lengths = lengths_ok(y, count, sound, macroblocks, time, group);
    if !counted {
        return Err(Cause::OutsideSystem);
    }
    if !lengths {
        return Err(Cause::LentLength);
    }
    if !sound::all_in_range(sound) {
        return Err(Cause::NoSample);
    }
    if !packs::time_taken(y, packs::pack_of(0x13, time)) {
        return Err(Cause::TimeBreaksRules);
    }
    Ok(y)
}
