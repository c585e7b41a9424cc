// The view of one block: its number by one call, its bytes as a part of the frame by another, or where that part lies.
#![tactic(auto)]

ghost use Rattle.std.specs.Prelude.{◌≡◌, IfOk};
ghost use Rattle.paper.specs.Causes.{number_said};
ghost use Rattle.rules_surveys.specs.View.{ViewLies, ViewNumbered, Viewed, view_number};
ghost use Rattle.views.specs.Asked.{FoundAt, InFrame, StartIs};

use layout::{BLOCK, DifSequence, PLACES};
use paper::{Cause, Part, Place, System};

// Where a block starts.
fn block_start(y: System, dif: DifSequence, p: Place) -> usize
    requires { InFrame y dif.channel dif.sequence p.0 }
    ensures { StartIs y dif.channel dif.sequence p.0 result }
{
    dif.start(y) + p.0 as usize * BLOCK
}

// Where the block starts whose view is not refused.
fn viewed(
    system: u32,
    frame: &[u8],
    channel: u32,
    sequence: u32,
    place: Place,
) -> Result<usize, Cause>
    ensures said { number_said result ≡ view_number system frame.now channel sequence place }
    ensures lies { IfOk result (λ at. FoundAt system frame.now channel sequence place at) }
{
    let y = layout::system_of_frame(system, frame.len())?;
    let dif = DifSequence { channel, sequence };
    let out = faults::outside(y, dif) | (PLACES <= place.0);
    if out {
        return Err(Cause::OutsideSystem);
    }
    let at = block_start(y, dif, place);
    faults::fault_at(&frame[at..at + BLOCK], dif, place)?;
    Ok(at)
}

// Where the view of a block lies: its first byte and its length, 80. Refusals: 1, 2, 3 and the block's own 11 to 15.
pub fn view_at(system: u32, frame: &[u8], channel: u32, sequence: u32, place: Place) -> Part
    ensures { ViewLies system frame.now channel sequence place result }
{
    match viewed(system, frame, channel, sequence, place) {
        Ok(at) => Part {
            number: 0,
            start: at as u32,
            length: BLOCK as u32,
        },
        Err(cause) => layout::no_part(layout::number_of(cause)),
    }
}

// The number of a block view.
pub fn view_number(system: u32, frame: &[u8], channel: u32, sequence: u32, place: Place) -> u32
    ensures { ViewNumbered system frame.now channel sequence place result }
{
    view_at(system, frame, channel, sequence, place).number
}

// The 80 bytes of a block, a part of the frame; none where its number is a refusal.
pub fn view(system: u32, frame: &[u8], channel: u32, sequence: u32, place: Place) -> &[u8]
    ensures { Viewed system frame.now channel sequence place result.now }
{
    let part = view_at(system, frame, channel, sequence, place);
    let start = part.start as usize;
    let end = start + part.length as usize;
    &frame[start..end]
}
