// The audio read.
ghost use Rattle.std.specs.Prelude.{◌≡◌, length, replicate};
ghost use Rattle.base.specs.Pick.{pick};
ghost use Rattle.paper.specs.Causes.{cause_number};
ghost use Rattle.rules_format.specs.Samples.{lost};
ghost use Rattle.rules_reads.specs.Audio.{AudioRead};
ghost use Rattle.rescue.specs.Taken.{samples_left};

use paper::{AudioAnswer, Cause, Sample, System};

// A refusal: its number, and no count.
fn refused(cause: Cause) -> AudioAnswer
    ensures { result ≡ record { number = cause_number cause; count = 0 } }
{
    AudioAnswer {
        number: layout::number_of(cause),
        count: 0,
    }
}

// The first samples of an audio channel, as many as are lent; all of them lost where it is marked 1111.
fn hear(y: System, frame: &[u8], audio: u32, marked: bool, samples: &mut [i32])
    ensures { samples.new ≡ pick marked (replicate (length samples.old) lost) (samples_left y frame.now audio samples.old) }
{
    if marked {
        samples.fill(sound::number_of(Sample::Lost));
    } else {
        rescue::samples_of(y, frame, audio, samples);
    }
}

// The samples of an audio channel, and their count. Refusals: 1, 2, 3, 4, the frame check's, 23, 24, 25.
pub fn read_audio(system: u32, frame: &[u8], audio: u32, samples: &mut [i32]) -> AudioAnswer
    ensures { AudioRead system frame.now audio samples.old result samples.new }
{
    let size = samples.len();
    let y = match refuse_audio::refuse(system, frame, audio, size) {
        Ok(y) => y,
        Err(cause) => return refused(cause),
    };
    let first = judges::first_as(y, frame, audio);
    let count = packs::count_in(first);
    let marked = packs::is_mark(packs::mode_in(first));
    let end = count as usize;
    hear(y, frame, audio, marked, &mut samples[..end]);
    AudioAnswer {
        number: 0,
        count: count,
    }
}
