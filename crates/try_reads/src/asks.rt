// What is asked of a frame, and printed of the answers.
use paper::{AudioAnswer, Survey};
use std::io;
use try_kit::script::Line;
use try_kit::values;
use values::{MARK, behind, count, first};

// ---- the strict reads

// An audio read into so many of the numbers, all of which hold the mark before.
fn hear(system: u32, whole: &[u8], c: u32, numbers: &mut [i32], room: usize) -> AudioAnswer {
    numbers.fill(MARK);
    match numbers.get_mut(..room) {
        Some(part) => reader::read_audio(system, whole, c, part),
        None => AudioAnswer {
            number: 99,
            count: 0,
        },
    }
}

// The four reads: number of the line, system, bytes of the frame, audio channel, macroblock, how many numbers for samples.
fn reads(
    rt: &impl Print,
    k: u32,
    system: u32,
    whole: &[u8],
    c: u32,
    b: u32,
    room: usize,
    numbers: &mut [i32],
) -> io::Result<()> {
    let heard = hear(system, whole, c, numbers, room);
    let clock = reader::read_time(system, whole);
    let checked = reader::check_frame(system, whole);
    let number = reader::macroblock_number(system, whole, b);
    let part = reader::macroblock(system, whole, b);
    print!(rt;
        "\t{k}\t{checked}\t{}\t{number}\t{}",
        heard.number, clock.number
    )?;
    print!(rt;
        "\t{}\t{}\t{}",
        heard.count,
        count(numbers, MARK),
        part.len()
    )?;
    values::print_hex(rt, &clock.time)?;
    values::print_hex(rt, &clock.group)?;
    println!(rt)
}

pub fn tried(rt: &impl Print, line: Line<'_>, frame: &[u8], numbers: &mut [i32]) -> io::Result<()> {
    let [k, system, size, c, b, room, ..] = line.numbers;
    let whole = first(frame, size as usize);
    reads(rt, k, system, whole, c, b, room as usize, numbers)
}

fn positions(system: u32) -> usize {
    if system % 2 == 1 { 1944 } else { 1620 }
}

// Audio channel 6 and macroblock 2,700, with right lengths.
pub fn plain(
    rt: &impl Print,
    k: u32,
    system: u32,
    frame: &[u8],
    numbers: &mut [i32],
) -> io::Result<()> {
    let whole = first(frame, values::size_of(system));
    reads(rt, k, system, whole, 6, 2700, positions(system), numbers)
}

// A checksum of the samples below the count, the marks left, and the first, second and last sample.
fn print_samples(rt: &impl Print, numbers: &[i32], n: usize) -> io::Result<()> {
    let (s1, s2) = values::sum_of_numbers(first(numbers, n));
    print!(rt; "\t{s1}\t{s2}\t{}", count(numbers, MARK))?;
    values::print_ends(rt, numbers, n)?;
    println!(rt)
}

// An audio read of a good frame: system, audio channel.
pub fn audio(rt: &impl Print, line: Line<'_>, frame: &[u8], numbers: &mut [i32]) -> io::Result<()> {
    let [system, c, ..] = line.numbers;
    let whole = first(frame, values::size_of(system));
    let heard = hear(system, whole, c, numbers, positions(system));
    print!(rt; "\t{c}\t{}\t{}", heard.number, heard.count)?;
    print_samples(rt, numbers, heard.count as usize)
}

// A macroblock read of a good frame: system, macroblock. Its number, the length of its part and a checksum of it.
pub fn macroblock(rt: &impl Print, line: Line<'_>, frame: &[u8]) -> io::Result<()> {
    let [system, b, ..] = line.numbers;
    let whole = first(frame, values::size_of(system));
    let number = reader::macroblock_number(system, whole, b);
    let part = reader::macroblock(system, whole, b);
    let (s1, s2) = values::sum_of_bytes(part);
    println!(rt; "\t{b}\t{number}\t{}\t{s1}\t{s2}", part.len())
}

// ---- salvage and survey

// The fault list holds this before a call.
const UNUSED: u32 = 777;

const NOT_ASKED: Survey = Survey {
    number: 99,
    total: 0,
    kept: 0,
};

// An answer, and so much of the fault list.
fn print_found(rt: &impl Print, s: Survey, list: &[u32], n: usize) -> io::Result<()> {
    print!(rt; "\t{}\t{}\t{}", s.number, s.total, s.kept)?;
    values::print_list(rt, first(list, n))
}

// The marks left, and a checksum of the numbers that were lent.
fn print_left(rt: &impl Print, numbers: &[i32], n: usize) -> io::Result<()> {
    let (s1, s2) = values::sum_of_numbers(first(numbers, n));
    println!(rt; "\t{}\t{s1}\t{s2}", count(numbers, MARK))
}

// System, bytes of the frame, how many numbers, length of the fault list.
pub fn salvage(
    rt: &impl Print,
    line: Line<'_>,
    frame: &[u8],
    numbers: &mut [i32],
) -> io::Result<()> {
    let [system, size, room, n, ..] = line.numbers;
    let whole = first(frame, size as usize);
    let mut list = [UNUSED; 32];
    numbers.fill(MARK);
    let s = match (numbers.get_mut(..room as usize), list.get_mut(..n as usize)) {
        (Some(samples), Some(faults)) => rescue::salvage(system, whole, samples, faults),
        _ => NOT_ASKED,
    };
    print_found(rt, s, &list, n as usize)?;
    print_left(rt, numbers, room as usize)
}

// System, length of the fault list. The survey's answer and its list.
pub fn survey(rt: &impl Print, line: Line<'_>, frame: &[u8]) -> io::Result<()> {
    let [system, n, ..] = line.numbers;
    let whole = first(frame, values::size_of(system));
    let mut list = [UNUSED; 32];
    let s = match list.get_mut(..n as usize) {
        Some(faults) => surveys::survey(system, whole, faults),
        None => NOT_ASKED,
    };
    print_found(rt, s, &list, n as usize)?;
    println!(rt)
}

// An audio channel of what was salvaged at 60 Hz: how many samples are lost, how many of those from 1,600 on are 0, a checksum, the
// first.
pub fn channel(rt: &impl Print, line: Line<'_>, numbers: &[i32]) -> io::Result<()> {
    let [c, ..] = line.numbers;
    let before = 1620 * ((c % 9 + 7) % 8) as usize;
    let part = first(behind(numbers, before), 1620);
    let lost = count(part, 32768);
    let zeros = count(behind(part, 1600), 0);
    let (s1, s2) = values::sum_of_numbers(part);
    print!(rt; "\t{c}\t{lost}\t{zeros}\t{s1}\t{s2}")?;
    values::print_number(rt, part, 0)?;
    println!(rt)
}
