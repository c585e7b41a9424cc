// Tries the public calls on good and bad input, and prints what each answers. The frame is all zeros: an ID of three zeros
// is that of H0 of DIF channel 2, sequence 0, so that one block names its place and no other does.
#![tactic(auto)]

ghost use Rattle.std.specs.Prelude.{◌≤◌};

use paper::{BlockId, BlockNumber, IdAnswer, Place, Section, Survey, System};
use std::io;
use try_kit::output::Output;
use try_kit::values;

// The numbers of a system: sequences, positions, counts, macroblocks, rate, STYPE and the frame's thousands of bytes.
fn system(rt: &impl Print, number: u32) -> io::Result<()> {
    let Some(y) = layout::system_of(number) else {
        return println!(rt; "system\t{number}");
    };
    let sequences = layout::sequences(y);
    let positions = layout::positions(y);
    let counts = layout::counts(y);
    print!(rt;
        "system\t{number}\t{sequences}\t{positions}\t{}\t{}",
        counts.fewer, counts.more
    )?;
    let macroblocks = layout::macroblocks(y);
    let rate = layout::rate(y);
    let stype = layout::stype(y);
    println!(rt;
        "\t{macroblocks}\t{rate}\t{stype}\t{}",
        layout::frame_bytes(y) / 1000
    )
}

// Which of three numbers are counts of the system, 1 for one that is.
fn counted(rt: &impl Print, y: System) -> io::Result<()> {
    print!(rt; "counts")?;
    for n in [1600, 1602, 1920] {
        print!(rt; "\t{}", u32::from(layout::is_count(y, n)))?;
    }
    println!(rt)
}

fn systems(rt: &impl Print) -> io::Result<()> {
    for number in 0..5 {
        system(rt, number)?;
    }
    for y in [System::I60, System::I50, System::P60, System::P50] {
        counted(rt, y)?;
    }
    Ok(())
}

// An ID read: the number, and the values of a named block with its spare bits, or zeros.
fn id(rt: &impl Print, bytes: &[u8]) -> io::Result<()> {
    match layout::read_id(bytes) {
        IdAnswer::Named(b, spare) => {
            let section = layout::section_code(b.section);
            print!(rt; "id\t0\t{section}\t{}\t{}\t{}", b.channel, b.dseq, b.dbn.0)?;
            println!(rt; "\t{}\t{}", spare.arbitrary, spare.reserved)
        }
        IdAnswer::Reserved => println!(rt; "id\t11\t0\t0\t0\t0\t0\t0"),
        IdAnswer::WrongLength => println!(rt; "id\t4\t0\t0\t0\t0\t0\t0"),
    }
}

fn ids(rt: &impl Print) -> io::Result<()> {
    id(rt, &[0x1F, 0x07, 0x00])?;
    id(rt, &[0x9F, 0x9B, 0x86])?;
    id(rt, &[0x00, 0x00, 0x00])?;
    id(rt, &[0x7F, 0xFF, 0xFF])?;
    id(rt, &[0x95, 0x1A, 0x86])?;
    id(rt, &[0x2A, 0x05, 0x01])
}

fn bad_ids(rt: &impl Print) -> io::Result<()> {
    id(rt, &[0xA0, 0x00, 0x00])?;
    id(rt, &[0xFF, 0xFF, 0xFF])?;
    id(rt, &[0x1F, 0x07])?;
    id(rt, &[0xFF, 0x07, 0x00, 0x00])
}

// An ID written.
fn written(rt: &impl Print, section: Section, channel: u32, dseq: u32, dbn: u32) -> io::Result<()> {
    let [first, second, third] = layout::id_bytes(BlockId {
        section,
        channel,
        dseq,
        dbn: BlockNumber(dbn),
    });
    println!(rt; "written\t{first}\t{second}\t{third}")
}

// A survey's answer, and its whole list.
fn answered(rt: &impl Print, name: &str, s: Survey, list: &[u32]) -> io::Result<()> {
    print!(rt; "{name}\t{}\t{}\t{}", s.number, s.total, s.kept)?;
    values::print_list(rt, list)?;
    println!(rt)
}

// A frame's survey with a list of so many numbers out of eight, each 7 before.
fn survey(rt: &impl Print, system: u32, frame: &[u8], size: usize) -> io::Result<()>
    requires { size ≤ 8 }
{
    let mut list = [7; 8];
    let s = surveys::survey(system, frame, &mut list[..size]);
    answered(rt, "survey", s, &list)
}

fn survey_sequence(
    rt: &impl Print,
    system: u32,
    channel: u32,
    sequence: u32,
    part: &[u8],
) -> io::Result<()> {
    let mut list = [7; 8];
    let s = surveys::survey_sequence(system, channel, sequence, part, &mut list);
    answered(rt, "sequence", s, &list)
}

// A block view: its number, and the length of its part.
fn view(
    rt: &impl Print,
    system: u32,
    frame: &[u8],
    channel: u32,
    sequence: u32,
    place: u32,
) -> io::Result<()> {
    let number = views::view_number(system, frame, channel, sequence, Place(place));
    let part = views::view(system, frame, channel, sequence, Place(place));
    println!(rt; "view\t{number}\t{}", part.len())
}

// A part of the frame, or all of it where there is no such part.
fn cut(frame: &[u8], from: usize, to: usize) -> &[u8] {
    frame.get(from..to).unwrap_or(frame)
}

fn surveys(rt: &impl Print, frame: &[u8]) -> io::Result<()> {
    survey(rt, 0, frame, 8)?;
    survey(rt, 2, frame, 7)?;
    survey(rt, 0, frame, 4)?;
    survey(rt, 0, frame, 3)?;
    survey(rt, 0, frame, 0)?;
    survey(rt, 4, cut(frame, 0, 3), 8)?;
    survey(rt, 1, frame, 8)?;
    survey(rt, 0, cut(frame, 0, 479999), 8)?;
    survey(rt, 0, &[], 8)
}

fn sequences(rt: &impl Print, frame: &[u8]) -> io::Result<()> {
    survey_sequence(rt, 0, 2, 0, cut(frame, 24000, 36000))?;
    survey_sequence(rt, 1, 0, 11, cut(frame, 24000, 36000))?;
    survey_sequence(rt, 4, 4, 12, cut(frame, 0, 11999))?;
    survey_sequence(rt, 0, 4, 0, cut(frame, 0, 11999))?;
    survey_sequence(rt, 0, 3, 10, cut(frame, 0, 12000))?;
    survey_sequence(rt, 3, 3, 12, cut(frame, 0, 12000))?;
    survey_sequence(rt, 0, 3, 9, cut(frame, 0, 11999))?;
    survey_sequence(rt, 0, 3, 9, cut(frame, 0, 12001))?;
    survey_sequence(rt, 0, 3, 9, &[])
}

fn views(rt: &impl Print, frame: &[u8]) -> io::Result<()> {
    view(rt, 0, frame, 2, 0, 0)?;
    view(rt, 2, frame, 2, 0, 0)?;
    view(rt, 0, frame, 3, 9, 149)?;
    view(rt, 0, frame, 0, 0, 0)?;
    view(rt, 0, frame, 2, 1, 0)?;
    view(rt, 4, cut(frame, 0, 3), 4, 12, 150)?;
    view(rt, 1, frame, 4, 12, 150)?;
    view(rt, 0, cut(frame, 0, 479999), 2, 0, 0)?;
    view(rt, 0, frame, 4, 0, 0)?;
    view(rt, 0, frame, 2, 10, 0)?;
    view(rt, 0, frame, 2, 0, 150)
}

fn calls(rt: &impl Print, frame: &[u8; 480000]) -> io::Result<()> {
    systems(rt)?;
    ids(rt)?;
    bad_ids(rt)?;
    written(rt, Section::Header, 0, 0, 0)?;
    written(rt, Section::Video, 3, 9, 134)?;
    surveys(rt, frame)?;
    sequences(rt, frame)?;
    views(rt, frame)
}

fn main(rt: HostRuntime) {
    let frame = [0u8; 480000];
    let output = Output { to: &rt };
    let _printed = calls(&output, &frame);
}
