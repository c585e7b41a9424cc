// A lent list of survey records, and what a survey answers of it.
ghost use Rattle.std.specs.Prelude.{◌≡◌, [], ◌∷◌, ◌/◌, ◌<◌, min, length};
ghost use Rattle.rules_surveys.specs.Records.{numbers, width};
ghost use Rattle.rules_surveys.specs.Survey.{refusal};
ghost use Rattle.fault_list.specs.Asked.{tallied};
ghost use Rattle.fault_list.specs.Listed.{NotedIn};

use paper::{Fault, Survey};

// How many numbers a record has.
pub const RECORD: usize = 4;

// The part becomes the numbers of a record.
fn put_record(part: &mut [u32], f: Fault)
    requires { length part.old ≡ width }
    ensures { part.new ≡ numbers f }
{
    part[0] = f.channel;
    part[1] = f.sequence;
    part[2] = f.place.0;
    part[3] = f.fault;
}

// A lent list of survey records, and how many faults were found so far: those past its room are counted and not kept.
#[derive(Drop)]
pub struct FaultList<'a> {
    pub numbers: &'a mut [u32],
    pub total: u32,
}

impl<'a> FaultList<'a> {
    // One record more: it is stored where there is room.
    pub(crate) fn note(&mut self, f: Fault)
        requires { self.old.total < 10000 }
        ensures { NotedIn self.old (f ∷ []) self.new }
    {
        let at = self.total as usize;
        self.total += 1;
        if self.numbers.len() / RECORD <= at {
            return;
        }
        let k = RECORD * at;
        put_record(&mut self.numbers[k..k + RECORD], f);
    }

    // The answer of a survey that went through.
    pub fn answered(&self) -> Survey
        ensures { result ≡ tallied self.now.total (length self.now.numbers.now) }
    {
        answered(self.total, self.numbers.len())
    }
}

// How many of the records a list of so many numbers keeps.
fn kept(total: u32, size: usize) -> u32
    ensures { result ≡ min (size / width) total }
{
    (size / RECORD).min(total as usize) as u32
}

// The answer of a survey that went through and found so many faults, of a list of so many numbers.
pub fn answered(total: u32, size: usize) -> Survey
    ensures { result ≡ tallied total size }
{
    Survey {
        number: 0,
        total: total,
        kept: kept(total, size),
    }
}

// A refusal: its number, and zeros.
pub fn refused(number: u32) -> Survey
    ensures { result ≡ refusal number }
{
    Survey {
        number: number,
        total: 0,
        kept: 0,
    }
}
