// The time code read.
ghost use Rattle.std.specs.Prelude.{◌≡◌};
ghost use Rattle.paper.specs.Causes.{cause_number};
ghost use Rattle.rules_packs.specs.Packs.{four_bytes};
ghost use Rattle.rules_reads.specs.Time.{time_refused, TimeRead};

use paper::{Cause, Pack, TimeAnswer};

// The four bytes of a pack behind its header.
fn four_bytes(p: Pack) -> [u8; 4]
    ensures { result ≡ four_bytes p }
{
    [p.pc1, p.pc2, p.pc3, p.pc4]
}

// A refusal: its number, and zeros.
fn refused(cause: Cause) -> TimeAnswer
    ensures { result ≡ time_refused (cause_number cause) }
{
    TimeAnswer {
        number: layout::number_of(cause),
        time: [0; 4],
        group: [0; 4],
    }
}

// The time code and the binary group of a frame. Refusals: 1, 2, the frame check's, 23, 26, 27.
pub fn read_time(system: u32, frame: &[u8]) -> TimeAnswer
    ensures { TimeRead system frame.now result }
{
    let y = match refuse_time::refuse(system, frame) {
        Ok(y) => y,
        Err(cause) => return refused(cause),
    };
    let first = judges::time_first(y, frame);
    let time = judges::settled(y, first);
    let group = judges::group_first(y, frame);
    TimeAnswer {
        number: 0,
        time: four_bytes(time),
        group: four_bytes(group),
    }
}
