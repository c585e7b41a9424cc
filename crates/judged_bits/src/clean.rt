// Whether a sequence has no fault.
ghost use Rattle.std.specs.Prelude.{◌≡◌};
ghost use Rattle.rules_surveys.specs.FaultLists.{sequence_faults};
ghost use Rattle.judged_bits.specs.Clean.{is_named, all_clear, Clean};

use layout::{BLOCK, CHANNELS, DifSequence, PLACES, SEQUENCE};
use paper::IdAnswer;

// Whether an ID names a block at all.
fn is_named(id: IdAnswer) -> bool
    ensures { result ≡ is_named id }
{
    matches!(id, IdAnswer::Named(_, _))
}

// Whether the judged bits of every block's ID are its place's and, where ASK, the ID reader names a block too. No early return in
// the loop, and the bits are asked before the ID, so that a block costs few instructions.
pub fn clean_part<const ASK: bool>(part: &[u8], dif: DifSequence) -> bool
    ensures is { result ≡ all_clear ASK part.now dif.channel dif.sequence }
    ensures clean { Clean result (sequence_faults part.now dif.channel dif.sequence) }
{
    if part.len() != SEQUENCE || CHANNELS <= dif.channel || 16 <= dif.sequence {
        return false;
    }
    let table = layout::printed_places();
    let key = crate::key(dif);
    let mut good = true;
    for p in 0..PLACES {
        let i = p as usize;
        let at = i * BLOCK;
        let block = &part[at..at + BLOCK];
        let bits = crate::judged(block);
        let named = !ASK || is_named(layout::read_block(block));
        good = good & (named & (bits == table[i] + key));
    }
    good
}
