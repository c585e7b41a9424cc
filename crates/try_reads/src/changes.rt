// Bytes of the frame that are changed. A block is named by DIF channel, sequence and place.
ghost use Rattle.std.specs.Prelude.{◌<◌};

use crate::asks;
use std::io;
use try_kit::script::Line;
use try_kit::values;
use values::{behind, byte, first};

// How many sequences stand before this one.
fn sequence_of(system: u32, h: u32, q: u32) -> u32 {
    if system % 2 == 1 {
        return 12 * (h % 4) + q % 16;
    }
    10 * (h % 4) + q % 16
}

// Where a byte of a block stands.
fn offset(system: u32, h: u32, q: u32, p: u32, byte: u32) -> usize
    ensures { result < 1000000 }
{
    let start = (sequence_of(system, h, q) % 64 * 150 + p % 150) * 80;
    (start + byte % 80) as usize
}

// Puts a byte, and answers what was there.
fn put(frame: &mut [u8], at: usize, value: u8) -> u8 {
    match frame.get_mut(at) {
        Some(place) => std::mem::replace(place, value),
        None => 0,
    }
}

// A byte of a block is changed, tried and taken back: number, system, block, byte, value.
pub fn patched(
    rt: &impl Print,
    line: Line<'_>,
    frame: &mut [u8],
    numbers: &mut [i32],
) -> io::Result<()> {
    let [k, system, h, q, p, at, value, ..] = line.numbers;
    let at = offset(system, h, q, p, at);
    let old = put(frame, at, byte(value));
    asks::plain(rt, k, system, frame, numbers)?;
    put(frame, at, old);
    Ok(())
}

// Bytes of a block become a value: block, byte, how many, value, system.
pub fn keep(line: Line<'_>, frame: &mut [u8]) {
    let [h, q, p, at, n, value, system, ..] = line.numbers;
    let start = offset(system, h, q, p, at);
    if let Some(part) = frame.get_mut(start..start + (n % 81) as usize) {
        part.fill(byte(value));
    }
}

// A block of a frame at 60 Hz is copied over another, ID and all: from block, to block.
pub fn over(line: Line<'_>, frame: &mut [u8]) {
    let [h, q, p, to_h, to_q, to_p, ..] = line.numbers;
    let from = offset(0, h, q, p, 0);
    let to = offset(0, to_h, to_q, to_p, 0);
    if from + 80 <= frame.len() && to + 80 <= frame.len() {
        frame.copy_within(from..from + 80, to);
    }
}

// Replaces an audio channel: number of the line, system, bytes of the frame, audio channel, how many numbers, which of them is no
// sample. The answer, and a checksum of those bytes.
pub fn replaced(
    rt: &impl Print,
    line: Line<'_>,
    frame: &mut [u8],
    numbers: &mut [i32],
) -> io::Result<()> {
    let [k, system, size, c, n, bad, ..] = line.numbers;
    values::known_numbers(numbers, n as usize);
    values::set_number(numbers, bad as usize, 32769);
    let samples = first(numbers, n as usize);
    let answer = match frame.get_mut(..size as usize) {
        Some(part) => replacer::replace_audio(system, part, c, samples),
        None => 99,
    };
    let (s1, s2) = values::sum_of_bytes(first(frame, size as usize));
    println!(rt; "\t{k}\t{answer}\t{s1}\t{s2}")
}
