// The audio read's refusals.
#![tactic(auto)]

ghost use Rattle.std.specs.Prelude.{◌≡◌, IfOk, length};
ghost use Rattle.base.specs.Calls.{first_of};
ghost use Rattle.paper.specs.Causes.{number_said};
ghost use Rattle.layout.specs.Asked.{FrameKnown};
ghost use Rattle.rules_reads.specs.Audio.{as_agree, audio_rows, audio_number};

use judges::Test;
use paper::{Cause, System};

// The AS packs of an audio channel say one count and one mode (25).
fn as_agree(y: System, frame: &[u8], audio: u32) -> bool
    ensures { result ≡ as_agree y frame.now audio }
{
    let first = judges::first_as(y, frame, audio);
    let count = packs::count_in(first);
    let mode = packs::mode_in(first);
    let one_count = judges::every_in_half(y, frame, audio, Test::CountIs(count));
    let one_mode = judges::every_in_half(y, frame, audio, Test::ModeIs(mode));
    one_count & one_mode
}

// What a frame is refused for beyond the frame check: 23, 24, 25.
pub fn refuse_sound(y: System, frame: &[u8], audio: u32) -> Result<(), Cause>
    ensures { number_said result ≡ first_of (audio_rows y frame.now audio) }
{
    if !judges::every_sequence(y, frame, Test::Unflagged(1)) {
        return Err(Cause::Flagged);
    }
    if !judges::every_in_half(y, frame, audio, Test::AsKeeps(audio)) {
        return Err(Cause::AsBreaksRules);
    }
    if !as_agree(y, frame, audio) {
        return Err(Cause::AsDiffers);
    }
    Ok(())
}

// An audio read into a list of so many entries: 1, 2, 3, 4, the frame check's, 23, 24, 25.
pub fn refuse(system: u32, frame: &[u8], audio: u32, size: usize) -> Result<System, Cause>
    ensures said { number_said result ≡ audio_number system frame.now audio size }
    ensures known { IfOk result (λ y. FrameKnown system (length frame.now) y) }
{
    let y = layout::system_of_frame(system, frame.len())?;
    let within = (0 < audio) & (audio < 9);
    let room = size == (layout::positions(y) as usize);
    if !within {
        return Err(Cause::OutsideSystem);
    }
    if !room {
        return Err(Cause::LentLength);
    }
    refuse_check::refuse_known(y, frame)?;
    refuse_sound(y, frame, audio)?;
    Ok(y)
}
