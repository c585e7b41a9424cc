// The fault of a block where it stands, and whether a sequence is one of the system's.
#![tactic(auto)]

ghost use Rattle.std.specs.Prelude.{◌≡◌, eqb, Some};
ghost use Rattle.paper.specs.Causes.{number_said};
ghost use Rattle.rules_format.specs.Ids.{block_answer};
ghost use Rattle.rules_format.specs.Faults.{misnamed, fault_of, fault_at};
ghost use Rattle.rules_surveys.specs.Survey.{outside_sequences};

use layout::{CHANNELS, DifSequence};
use paper::{BlockId, Cause, Entry, IdAnswer, Place, System};

// The fault of a named block where an entry stands.
fn named_fault(b: BlockId, dif: DifSequence, e: Entry) -> Result<(), Cause>
    ensures { number_said result ≡ misnamed b dif.channel dif.sequence e }
{
    if b.section != e.section {
        return Err(Cause::OtherSection);
    }
    if b.channel != dif.channel {
        return Err(Cause::OtherChannel);
    }
    if b.dseq != dif.sequence {
        return Err(Cause::OtherDseq);
    }
    if b.dbn != e.number {
        return Err(Cause::OtherDbn);
    }
    Ok(())
}

// The fault of a block by the answer to its ID.
pub fn fault_of(id: IdAnswer, dif: DifSequence, e: Entry) -> Result<(), Cause>
    ensures { number_said result ≡ fault_of id dif.channel dif.sequence e }
{
    match id {
        IdAnswer::Named(b, _) => named_fault(b, dif, e),
        IdAnswer::Reserved => Err(Cause::ReservedSection),
        IdAnswer::WrongLength => Err(Cause::LentLength),
    }
}

// The fault of a block where it stands.
pub fn fault_at(block: &[u8], dif: DifSequence, p: Place) -> Result<(), Cause>
    ensures { number_said result ≡ fault_at block.now dif.channel dif.sequence p.0 }
{
    fault_of(layout::read_block(block), dif, layout::entry_at(p))
}

// Whether a block names the place of an entry.
pub fn names_entry(block: &[u8], dif: DifSequence, e: Entry) -> bool
    ensures { result ≡ eqb (fault_of (block_answer block.now) dif.channel dif.sequence e) 0 }
{
    fault_of(layout::read_block(block), dif, e).is_ok()
}

// DIF channel or sequence outside the system.
pub fn outside(y: System, dif: DifSequence) -> bool
    ensures { result ≡ outside_sequences (Some y) dif.channel dif.sequence }
{
    (CHANNELS <= dif.channel) | (layout::sequences(y) <= dif.sequence)
}
