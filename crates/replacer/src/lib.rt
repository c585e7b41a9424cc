// A new audio channel in a finished frame: a refusal, or the new samples in their places.
#![tactic(auto)]

ghost use Rattle.std.specs.Prelude.{◌≡◌};
ghost use Rattle.base.specs.Put.{put_at, turns};
ghost use Rattle.rules_format.specs.Systems.{half_of};
ghost use Rattle.rules_replaces.specs.Replace.{Replaced};
ghost use Rattle.replacer.specs.Asked.{BlockAsked, PartAsked, RankAsked, FrameAsked};
ghost use Rattle.replacer.specs.Turns.{block_words, block_turn, rank_start, rank_turn};

use layout::{BLOCK, SEQUENCE};
use paper::{BlockNumber, Section, System};

// Audio block a of the sequence of rank r: its words stand behind the ID and a pack.
fn replace_block(block: &mut [u8], y: System, samples: &[i32], r: u32, a: BlockNumber)
    requires { BlockAsked block.old y samples.now a.0 }
    ensures { block.new ≡ put_at 8 (block_words y samples.now r a.0) block.old }
{
    sample_words::put_samples(&mut block[8..BLOCK], y, samples, r, a);
}

// The nine audio blocks of the sequence of rank r.
fn replace_sequence(part: &mut [u8], y: System, samples: &[i32], r: u32)
    requires { PartAsked part.old y samples.now }
    ensures { part.new ≡ turns (block_turn y samples.now r) 9 part.old }
{
    for a in 0..9 {
        let p = layout::place_in(Section::Audio, BlockNumber(a));
        let at = p.0 as usize * BLOCK;
        let to = at + BLOCK;
        replace_block(&mut part[at..to], y, samples, r, BlockNumber(a));
    }
}

// Where the sequence of rank r of an audio channel starts; audio channels count from 0 here.
fn rank_start(y: System, i: u32, r: u32) -> usize
    requires { RankAsked y i r }
    ensures { result ≡ rank_start y i r }
{
    ((layout::half(y) * i + r) as usize) * SEQUENCE
}

// Its sequences, one after the other.
fn replace_channel(frame: &mut [u8], y: System, i: u32, samples: &[i32])
    requires { FrameAsked frame.old y i samples.now }
    ensures { frame.new ≡ turns (rank_turn y i samples.now) (half_of y) frame.old }
{
    for r in 0..layout::half(y) {
        let at = rank_start(y, i, r);
        let to = at + SEQUENCE;
        replace_sequence(&mut frame[at..to], y, samples, r);
    }
}

// Replaces the samples of an audio channel. Refusals: 1, 2, 3, the frame check's, 23, 24, 25, 29, 31, 33; a refusal writes nothing.
pub fn replace_audio(system: u32, frame: &mut [u8], audio: u32, samples: &[i32]) -> u32
    ensures { Replaced system frame.old audio samples.now result frame.new }
{
    let y = match refuse_replace::refuse(system, frame, audio, samples) {
        Ok(y) => y,
        Err(cause) => return layout::number_of(cause),
    };
    replace_channel(frame, y, audio - 1, samples);
    0
}
