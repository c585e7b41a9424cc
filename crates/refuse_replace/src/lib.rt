// The refusals of a new audio channel.
#![tactic(auto)]

ghost use Rattle.std.specs.Prelude.{◌≡◌, IfOk, length};
ghost use Rattle.base.specs.Calls.{first_of};
ghost use Rattle.paper.specs.Causes.{number_said};
ghost use Rattle.layout.specs.Asked.{FrameKnown};
ghost use Rattle.rules_replaces.specs.Replace.{replace_rows, replace_number};

use paper::{Cause, System};

// What is refused beyond the audio read: 29, 31, 33.
fn refuse_list(y: System, frame: &[u8], audio: u32, samples: &[i32]) -> Result<(), Cause>
    ensures { number_said result ≡ first_of (replace_rows y frame.now audio samples.now) }
{
    let first = judges::first_as(y, frame, audio);
    let count = packs::count_in(first) as usize;
    if samples.len() != count {
        return Err(Cause::NotTheCount);
    }
    if !sound::all_in_range(samples) {
        return Err(Cause::NoSample);
    }
    if packs::is_mark(packs::mode_in(first)) {
        return Err(Cause::Unrecorded);
    }
    Ok(())
}

// A new audio channel: 1, 2, 3, the frame check's, 23, 24, 25, 29, 31, 33.
pub fn refuse(system: u32, frame: &[u8], audio: u32, samples: &[i32]) -> Result<System, Cause>
    ensures said { number_said result ≡ replace_number system frame.now audio samples.now }
    ensures known { IfOk result (λ y. FrameKnown system (length frame.now) y) }
{
    let y = layout::system_of_frame(system, frame.len())?;
    let within = (0 < audio) & (audio < 9);
    if !within {
        return Err(Cause::OutsideSystem);
    }
    refuse_check::refuse_known(y, frame)?;
    refuse_audio::refuse_sound(y, frame, audio)?;
    refuse_list(y, frame, audio, samples)?;
    Ok(y)
}
