// The samples of an audio channel, sequence by sequence. A sequence has its rank r among those of its audio channel; audio channels count from 0 here.
ghost use Rattle.std.specs.Prelude.{◌≡◌, ◌+◌, ◌*◌, ◌/◌, ◌≤◌, ◌<◌, length};
ghost use Rattle.rules_format.specs.Systems.{half_of, positions_of};
ghost use Rattle.rules_format.specs.Blocks.{sequence_at};
ghost use Rattle.rules_format.specs.Sound.{dif_of};
ghost use Rattle.fault_list.specs.Listed.{NotedIn};
ghost use Rattle.sequence_samples.specs.Taken.{Between};
ghost use Rattle.rescue.specs.Taken.{held_sample, samples_fit, samples_left, rank_sequence, rank_faults};
ghost use Rattle.rescue.specs.Asked.{RankAsked, HalfAsked, HalfSalvaged};

use fault_list::FaultList;
use layout::{DifSequence, Frame, SEQUENCE};
use paper::System;

// The bytes of the sequence of rank r.
fn rank_part<'a>(frame: &Frame<'a>, i: u32, r: u32) -> &'a [u8]
    requires { RankAsked frame.now.system i r }
    ensures { result.now ≡ sequence_at frame.now.system frame.now.bytes.now (dif_of (i + 1)) (rank_sequence frame.now.system i r) }
{
    let at = ((layout::half(frame.system) * i + r) as usize) * SEQUENCE;
    &frame.bytes[at..at + SEQUENCE]
}

// Its DIF channel, and its number there.
fn rank_dif(y: System, i: u32, r: u32) -> DifSequence
    requires { r < half_of y }
    ensures channel { result.channel ≡ i / 2 }
    ensures sequence { result.sequence ≡ rank_sequence y i r }
{
    DifSequence {
        channel: i / 2,
        sequence: layout::half(y) * (i % 2) + r,
    }
}

// Its samples.
fn take_rank(frame: &Frame, i: u32, r: u32, samples: &mut [i32])
    requires rank_asked { RankAsked frame.now.system i r }
    requires samples_len_bound { length samples.old ≤ positions_of frame.now.system }
    ensures { Between (half_of frame.now.system) (9 * r) (9 * r + 9) (held_sample frame.now.system frame.now.bytes.now (i + 1)) samples.old samples.new }
{
    let part = rank_part(frame, i, r);
    sequence_samples::take_sequence(part, frame.system, rank_dif(frame.system, i, r), samples);
}

// Its faults.
fn survey_rank(frame: &Frame, i: u32, r: u32, list: &mut FaultList)
    requires rank_asked { RankAsked frame.now.system i r }
    requires t_bound { list.old.total ≤ 7200 }
    ensures { NotedIn list.old (rank_faults frame.now.system frame.now.bytes.now i r) list.new }
{
    let part = rank_part(frame, i, r);
    list.survey_next(frame.system, rank_dif(frame.system, i, r), part);
}

// The samples of an audio channel.
fn take_half(frame: &Frame, i: u32, samples: &mut [i32])
    requires half_asked { HalfAsked i 0 }
    requires samples_len_bound { length samples.old ≤ positions_of frame.now.system }
    ensures { Between (half_of frame.now.system) 0 (9 * half_of frame.now.system) (held_sample frame.now.system frame.now.bytes.now (i + 1)) samples.old samples.new }
{
    for r in 0..layout::half(frame.system) {
        take_rank(frame, i, r, samples);
    }
}

// The samples and the faults of an audio channel, in one pass.
pub(crate) fn salvage_half(frame: &Frame, i: u32, samples: &mut [i32], list: &mut FaultList)
    requires half_asked { HalfAsked i list.old.total }
    requires samples_len_bound { length samples.old ≤ positions_of frame.now.system }
    ensures { HalfSalvaged frame.now.system frame.now.bytes.now i samples.old samples.new list.old list.new }
{
    let ranks = layout::half(frame.system);
    for r in 0..ranks {
        survey_rank(frame, i, r, list);
        take_rank(frame, i, r, samples);
    }
}

// What is lent fits the system.
fn samples_fit(y: System, size: usize, audio: u32, room: usize) -> bool
    ensures { result ≡ samples_fit y size audio room }
{
    (size == layout::frame_bytes(y))
        & (((0 < audio) & (audio < 9)) & (room <= (layout::positions(y) as usize)))
}

// The first samples of an audio channel, as many as are lent; nothing where the frame or the list does not fit the system.
pub fn samples_of(y: System, frame: &[u8], audio: u32, samples: &mut [i32])
    ensures { samples.new ≡ samples_left y frame.now audio samples.old }
{
    if !samples_fit(y, frame.len(), audio, samples.len()) {
        return;
    }
    let whole = Frame {
        system: y,
        bytes: frame,
    };
    take_half(&whole, audio - 1, samples);
}
