// The face for C, declared in include/dv100.h: the library's calls under C's names. A slice passes as a pointer and a length,
// an answer as a struct by value with its number first. Each call meets the contract of the library's own.
#![tactic(auto)]

mod ids;

ghost use Rattle.rules_reads.specs.Audio.{AudioRead};
ghost use Rattle.rules_reads.specs.Check.{Checked};
ghost use Rattle.rules_reads.specs.Macroblock.{MacroblockLies};
ghost use Rattle.rules_surveys.specs.ReadId.{IdSaid};
ghost use Rattle.rules_surveys.specs.Salvage.{Salvaged};
ghost use Rattle.rules_surveys.specs.Survey.{FrameSurveyed, SequenceSurveyed};
ghost use Rattle.rules_reads.specs.Time.{TimeRead};
ghost use Rattle.rules_surveys.specs.View.{ViewLies};
ghost use Rattle.rules_replaces.specs.Replace.{Replaced};
ghost use Rattle.rules_writes.specs.Write.{contents_of, Wrote};

use paper::{AudioAnswer, IdValues, Part, Place, Survey, TimeAnswer};

// What the three bytes of a block ID name. Refusals: 4, 11.
#[unsafe(no_mangle)]
pub extern "C" fn dv100_read_id(id: &[u8]) -> IdValues
    ensures { IdSaid id.now result }
{
    ids::values(layout::read_id(id))
}

// The blocks of a frame that do not name their place. Refusals: 1, 2.
#[unsafe(no_mangle)]
pub extern "C" fn dv100_survey(system: u32, frame: &[u8], list: &mut [u32]) -> Survey
    ensures { FrameSurveyed system frame.now list.old result list.new }
{
    surveys::survey(system, frame, list)
}

// The same for the 12,000 bytes of one sequence. Refusals: 1, 3, 4.
#[unsafe(no_mangle)]
pub extern "C" fn dv100_survey_sequence(
    system: u32,
    channel: u32,
    sequence: u32,
    bytes: &[u8],
    list: &mut [u32],
) -> Survey
    ensures { SequenceSurveyed system channel sequence bytes.now list.old result list.new }
{
    surveys::survey_sequence(system, channel, sequence, bytes, list)
}

// Where one block lies. Refusals: 1, 2, 3 and the block's own 11 to 15.
#[unsafe(no_mangle)]
pub extern "C" fn dv100_view(
    system: u32,
    frame: &[u8],
    channel: u32,
    sequence: u32,
    place: u32,
) -> Part
    ensures { ViewLies system frame.now channel sequence (record { 0 = place }) result }
{
    views::view_at(system, frame, channel, sequence, Place(place))
}

// Whether a frame is in order. Refusals: 1, 2, 11 to 15, 21, 22.
#[unsafe(no_mangle)]
pub extern "C" fn dv100_check(system: u32, frame: &[u8]) -> u32
    ensures { Checked system frame.now result }
{
    reader::check_frame(system, frame)
}

// The samples of an audio channel, and their count. Refusals: 1, 2, 3, 4, the frame check's, 23, 24, 25.
#[unsafe(no_mangle)]
pub extern "C" fn dv100_read_audio(
    system: u32,
    frame: &[u8],
    audio_channel: u32,
    samples: &mut [i32],
) -> AudioAnswer
    ensures { AudioRead system frame.now audio_channel samples.old result samples.new }
{
    reader::read_audio(system, frame, audio_channel, samples)
}

// Where a macroblock lies. Refusals: 1, 2, 3, the frame check's, 23.
#[unsafe(no_mangle)]
pub extern "C" fn dv100_macroblock(system: u32, frame: &[u8], macroblock: u32) -> Part
    ensures { MacroblockLies system frame.now macroblock result }
{
    reader::macroblock_at(system, frame, macroblock)
}

// Time code and binary group. Refusals: 1, 2, the frame check's, 23, 26, 27.
#[unsafe(no_mangle)]
pub extern "C" fn dv100_read_time(system: u32, frame: &[u8]) -> TimeAnswer
    ensures { TimeRead system frame.now result }
{
    reader::read_time(system, frame)
}

// Each sample whose block names its place as it is stored, the others as lost, and the fault list. Refusals: 1, 2, 4.
#[unsafe(no_mangle)]
pub extern "C" fn dv100_salvage(
    system: u32,
    frame: &[u8],
    samples: &mut [i32],
    list: &mut [u32],
) -> Survey
    ensures { Salvaged system frame.now samples.old list.old result samples.new list.new }
{
    rescue::salvage(system, frame, samples, list)
}

// Replaces the samples of an audio channel. Refusals: 1, 2, 3, the frame check's, 23, 24, 25, 29, 31, 33.
#[unsafe(no_mangle)]
pub extern "C" fn dv100_replace_audio(
    system: u32,
    frame: &mut [u8],
    audio_channel: u32,
    samples: &[i32],
) -> u32
    ensures { Replaced system frame.old audio_channel samples.now result frame.new }
{
    replacer::replace_audio(system, frame, audio_channel, samples)
}

// Fills a frame. Refusals: 1, 2, 3, 4, 31, 32.
#[unsafe(no_mangle)]
pub extern "C" fn dv100_write(
    system: u32,
    count: u32,
    sound: &[i32],
    macroblocks: &[u8],
    time_code: &[u8],
    binary_group: &[u8],
    frame: &mut [u8],
) -> u32
    ensures { Wrote system (contents_of count sound.now macroblocks.now time_code.now binary_group.now) frame.old result frame.new }
{
    writer::write_frame(
        system,
        count,
        sound,
        macroblocks,
        time_code,
        binary_group,
        frame,
    )
}
