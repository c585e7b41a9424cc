// The survey of one sequence, block by block.
ghost use Rattle.std.specs.Prelude.{◌<◌};
ghost use Rattle.rules_surveys.specs.FaultLists.{block_faults, sequence_faults};
ghost use Rattle.judged_bits.specs.Clean.{BlockAsked, PartAsked};
ghost use Rattle.fault_list.specs.Asked.{next_faults};
ghost use Rattle.fault_list.specs.Listed.{NotedIn};

use crate::list::FaultList;
use layout::{BLOCK, DifSequence, PLACES, SEQUENCE};
use paper::{Fault, Place, System};

// The survey of one block. The place's entry in print is `printed`, and `key` what DIF channel and sequence add to it.
fn survey_block(
    block: &[u8],
    dif: DifSequence,
    p: Place,
    printed: u32,
    key: u32,
    list: &mut FaultList,
)
    requires block_asked { BlockAsked block.now dif.channel dif.sequence p.0 printed key }
    requires t_bound { list.old.total < 10000 }
    ensures { NotedIn list.old (block_faults block.now dif.channel dif.sequence p.0) list.new }
{
    let id = layout::read_block(block);
    if judged_bits::judged(block) == printed + key {
        return;
    }
    let Err(cause) = faults::fault_of(id, dif, layout::entry_of(printed)) else {
        return;
    };
    list.note(Fault {
        channel: dif.channel,
        sequence: dif.sequence,
        place: p,
        fault: layout::number_of(cause),
    });
}

// The survey of one sequence's 12,000 bytes.
fn survey_part(part: &[u8], dif: DifSequence, list: &mut FaultList)
    requires part_asked { PartAsked part.now dif.channel dif.sequence }
    requires t_bound { list.old.total < 8000 }
    ensures { NotedIn list.old (sequence_faults part.now dif.channel dif.sequence) list.new }
{
    let table = layout::printed_places();
    let key = judged_bits::key(dif);
    for p in 0..PLACES {
        let i = p as usize;
        let at = i * BLOCK;
        survey_block(&part[at..at + BLOCK], dif, Place(p), table[i], key, list);
    }
}

impl FaultList<'_> {
    // The survey of one sequence more: block by block only where it is not clean. Nothing is surveyed where the sequence is none
    // of the system's, or after 8,000 faults.
    pub fn survey_next(&mut self, y: System, dif: DifSequence, part: &[u8])
        ensures { NotedIn self.old (next_faults y dif.channel dif.sequence part.now self.old.total) self.new }
    {
        if faults::outside(y, dif) {
            return;
        }
        if part.len() != SEQUENCE {
            return;
        }
        if 8000 <= self.total {
            return;
        }
        if judged_bits::clean_part::<true>(part, dif) {
            return;
        }
        survey_part(part, dif, self);
    }
}
