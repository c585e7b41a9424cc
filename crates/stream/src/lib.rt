// An input that comes refill by refill: how many bytes there were, the system of its rate, and the survey of its whole sequences.
#![tactic(auto)]

ghost use Rattle.std.specs.Prelude.{◌≡◌, ◌+◌, min, length};
ghost use Rattle.stream.specs.Input.{counted_to, of_rate, nothing, system_after, Next, Refilled};

use fault_list::FaultList;
use layout::{DifSequence, SEQUENCE};
use paper::System;

// What is known of the bytes so far: their count, up to COUNTED, the 1080 system of the first block's rate, the faults found,
// and how many bytes the last refill gave.
#[derive(Clone, Copy)]
pub struct Reading {
    pub count: u32,
    pub system: System,
    pub total: u32,
    pub last: usize,
}

// More bytes than any frame has: an endless input is counted no further.
const COUNTED: usize = 1000000;

// Before the first refill.
pub fn start() -> Reading
    ensures { result ≡ nothing }
{
    Reading {
        count: 0,
        system: System::I60,
        total: 0,
        last: 0,
    }
}

// The count after `more` bytes.
fn counted(count: u32, more: usize) -> u32
    ensures { result ≡ min (count + more) counted_to }
{
    (count as usize).saturating_add(more).min(COUNTED) as u32
}

// The 1080 system of a rate. Faults depend on the sequences alone, which are the same for every system of a rate.
fn system_of_rate(dsf: u32) -> System
    ensures { result ≡ of_rate dsf }
{
    match dsf {
        0 => System::I60,
        _ => System::I50,
    }
}

// The system after one part more: the first block's DSF bit gives the rate.
fn system_after(count: u32, system: System, part: &[u8]) -> System
    ensures { result ≡ system_after count system part.now }
{
    if count == 0 {
        return system_of_rate(u32::from(base::byte_at(part, 3)) / 128);
    }
    system
}

// One part more. A whole sequence of the frame is surveyed, and nothing else is.
fn next(r: Reading, part: &[u8], list: &mut [u32]) -> Reading
    ensures { Next r part.now list.old result list.new }
{
    let before = r.system;
    let y = system_after(r.count, before, part);
    let n = layout::sequences(y);
    let k = r.count / (SEQUENCE as u32);
    let dif = DifSequence {
        channel: k / n,
        sequence: k % n,
    };
    let mut found = FaultList {
        numbers: list,
        total: r.total,
    };
    found.survey_next(y, dif, part);
    Reading {
        count: counted(r.count, part.len()),
        system: y,
        total: found.total,
        last: part.len(),
    }
}

// One refill more, which gave the first `got` bytes of the buffer: what stands behind them is of an earlier one.
pub fn refill(r: Reading, got: usize, buf: &[u8], list: &mut [u32]) -> Reading
    ensures { Refilled r got buf.now list.old result list.new }
{
    next(r, &buf[..got.min(buf.len())], list)
}
