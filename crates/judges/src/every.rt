// What is asked of all sequences of a frame, or of an audio channel's half.
ghost use Rattle.std.specs.Prelude.{◌≡◌};
ghost use Rattle.rules_format.specs.Sound.{dif_of};
ghost use Rattle.rules_reads.specs.Check.{every_from, every_sequence};
ghost use Rattle.rules_reads.specs.Audio.{every_in_half, first_as};
ghost use Rattle.judges.specs.Asked.{FirstInHalf, SequencesAsked};
ghost use Rattle.judges.specs.Tests.{test_of};

use crate::Test;
use crate::read::Sequence;
use layout::{CHANNELS, DifSequence};
use paper::{Pack, System};

// The DIF channel of an audio channel; there is no audio channel 0, and 0 stands in.
fn dif_of(c: u32) -> u32
    ensures { result ≡ dif_of c }
{
    if c == 0 { 0 } else { (c - 1) / 2 }
}

// The first sequence of its half: the second half is for even audio channels.
fn first_in_half(y: System, c: u32) -> u32
    ensures { FirstInHalf y c result }
{
    layout::half(y) * (1 - c % 2)
}

// So many sequences of DIF channel h, from sequence q on, pass.
fn every_from(y: System, frame: &[u8], test: Test, h: u32, q: u32, k: u32) -> bool
    requires { SequencesAsked q k }
    ensures { result ≡ every_from y frame.now h q k (test_of y test) }
{
    let mut good = true;
    for r in 0..k {
        let dif = DifSequence {
            channel: h,
            sequence: q + r,
        };
        good = Sequence::of(y, frame, dif).passes(test) & good;
    }
    good
}

// Every sequence of the frame passes.
pub fn every_sequence(y: System, frame: &[u8], test: Test) -> bool
    ensures { result ≡ every_sequence y frame.now (test_of y test) }
{
    let mut good = true;
    for h in 0..CHANNELS {
        good = every_from(y, frame, test, h, 0, layout::sequences(y)) & good;
    }
    good
}

// Every sequence of an audio channel's half passes.
pub fn every_in_half(y: System, frame: &[u8], audio: u32, test: Test) -> bool
    ensures { result ≡ every_in_half y frame.now audio (test_of y test) }
{
    let q = first_in_half(y, audio);
    every_from(y, frame, test, dif_of(audio), q, layout::half(y))
}

// The first AS of an audio channel.
pub fn first_as(y: System, frame: &[u8], audio: u32) -> Pack
    ensures { result ≡ first_as y frame.now audio }
{
    let dif = DifSequence {
        channel: dif_of(audio),
        sequence: first_in_half(y, audio),
    };
    Sequence::of(y, frame, dif).source()
}
