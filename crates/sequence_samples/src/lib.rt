// The samples of one sequence, audio block by audio block.
#![tactic(auto)]

ghost use Rattle.std.specs.Prelude.{◌≡◌, ℕ, ◌+◌, ◌*◌, length};
ghost use Rattle.base.specs.Pick.{pick};
ghost use Rattle.rules_format.specs.Systems.{half_of};
ghost use Rattle.rules_format.specs.Sound.{rank_at};
ghost use Rattle.sequence_samples.specs.Taken.{held_word, held_block, held_part, Placed, Between, blocks_taken};
ghost use Rattle.sequence_samples.specs.Asked.{WordsAsked, BlockAsked, PartAsked};

use layout::{BLOCK, DifSequence, SEQUENCE};
use paper::{BlockNumber, Entry, Sample, Section, System};

// A sample of a block, lost where the block does not name its place.
fn or_lost(named: bool, s: Sample) -> Sample
    ensures { result ≡ pick named s Sample.Lost }
{
    if named { s } else { Sample::Lost }
}

// The words of a block: its samples are `step` apart, as many as there is room for.
fn put_words(block: &[u8], named: bool, first: usize, step: usize, samples: &mut [i32])
    requires { WordsAsked block.now first step (length samples.old) }
    ensures { Placed first step (λ (k : ℕ). held_word named block.now (8 + 2 * k)) 36 samples.old samples.new }
{
    let mut t = first;
    let mut w = 0;
    while t < samples.len() {
        let high = block[8 + 2 * w];
        let low = block[9 + 2 * w];
        let x = sound::number_of(or_lost(named, sound::sample_of(high, low)));
        samples[t] = x;
        t += step;
        w += 1;
    }
}

// The samples of audio block a of a sequence.
fn take_block(block: &[u8], y: System, dif: DifSequence, a: BlockNumber, samples: &mut [i32])
    requires { BlockAsked block.now y a.0 (length samples.old) }
    ensures { Between (half_of y) (9 * rank_at (half_of y) dif.sequence + a.0) (9 * rank_at (half_of y) dif.sequence + a.0 + 1) (held_block (half_of y) block.now dif.channel dif.sequence) samples.old samples.new }
{
    let entry = Entry {
        section: Section::Audio,
        number: a,
    };
    let named = faults::names_entry(block, dif, entry);
    let first = sound::first_at(y, dif.sequence, a) as usize;
    let step = (9 * layout::half(y)) as usize;
    put_words(block, named, first, step, samples);
}

// The nine audio blocks of a sequence.
fn take_part(part: &[u8], y: System, dif: DifSequence, samples: &mut [i32])
    requires { PartAsked part.now y (length samples.old) }
    ensures { Between (half_of y) (9 * rank_at (half_of y) dif.sequence) (9 * rank_at (half_of y) dif.sequence + 9) (held_part (half_of y) part.now dif.channel dif.sequence) samples.old samples.new }
{
    for a in 0..9 {
        let p = layout::place_in(Section::Audio, BlockNumber(a));
        let at = p.0 as usize * BLOCK;
        take_block(&part[at..at + BLOCK], y, dif, BlockNumber(a), samples);
    }
}

// The samples of a sequence; none where its bytes or the list do not fit the system.
pub fn take_sequence(part: &[u8], y: System, dif: DifSequence, samples: &mut [i32])
    ensures { Between (half_of y) (9 * rank_at (half_of y) dif.sequence) (9 * rank_at (half_of y) dif.sequence + blocks_taken y (length part.now) (length samples.old)) (held_part (half_of y) part.now dif.channel dif.sequence) samples.old samples.new }
{
    let room = layout::positions(y) as usize;
    let fits = (part.len() == SEQUENCE) & (samples.len() <= room);
    if fits {
        take_part(part, y, dif, samples);
    }
}
