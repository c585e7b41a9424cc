// The macroblock read: its number by one call, its bytes as a part of the frame by another, or where that part lies.
ghost use Rattle.rules_reads.specs.Macroblock.{MacroblockLies, MacroblockNumbered, MacroblockRead};
ghost use Rattle.reader.specs.Asked.{SlotAsked, SlotStart};

use layout::{BLOCK, DifSequence};
use paper::{Part, Section, Slot, System};

// Where the 77 bytes of a slot start, behind the ID.
fn slot_start(y: System, s: Slot) -> usize
    requires { SlotAsked y s.channel s.sequence s.video }
    ensures { SlotStart y s.channel s.sequence s.video result }
{
    let dif = DifSequence {
        channel: s.channel,
        sequence: s.sequence,
    };
    let p = layout::place_in(Section::Video, s.video);
    dif.start(y) + p.0 as usize * BLOCK + 3
}

// The number of a read of macroblock b. Refusals: 1, 2, 3, the frame check's, 23.
pub fn macroblock_number(system: u32, frame: &[u8], b: u32) -> u32
    ensures { MacroblockNumbered system frame.now b result }
{
    layout::number(refuse_macroblock::refuse(system, frame, b))
}

// Where macroblock b lies: its first byte and its length, 77; zeros where its number is a refusal.
pub fn macroblock_at(system: u32, frame: &[u8], b: u32) -> Part
    ensures { MacroblockLies system frame.now b result }
{
    let y = match refuse_macroblock::refuse(system, frame, b) {
        Ok(y) => y,
        Err(cause) => return layout::no_part(layout::number_of(cause)),
    };
    let s = picture::carrier(y, b).unwrap();
    Part {
        number: 0,
        start: slot_start(y, s) as u32,
        length: 77,
    }
}

// The 77 bytes of macroblock b, a part of the frame; none where its number is a refusal.
pub fn macroblock(system: u32, frame: &[u8], b: u32) -> &[u8]
    ensures { MacroblockRead system frame.now b result.now }
{
    let part = macroblock_at(system, frame, b);
    let start = part.start as usize;
    let end = start + part.length as usize;
    &frame[start..end]
}
