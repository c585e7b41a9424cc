// Runs a script of writes: known frames of all four systems, and the writer on bad input. A line `sum` is a case, the answer and an
// Adler checksum of the whole frame; `block` a written block's first bytes; `sample` a word of audio channel 1 at its known place;
// `answer` a number and how many bytes of a frame of A5h are others afterwards.
#![tactic(auto)]

use paper::Place;
use std::io;
use try_kit::output::Output;
use try_kit::script::{Line, Steps};
use try_kit::{input, script, values};
use values::{behind, byte, first};

// A block, by the block view: system, bytes of the frame, DIF channel, sequence, place.
fn block(rt: &impl Print, line: Line<'_>, frame: &[u8]) -> io::Result<()> {
    let [system, size, channel, sequence, place, ..] = line.numbers;
    let whole = first(frame, size as usize);
    let number = views::view_number(system, whole, channel, sequence, Place(place));
    let part = views::view(system, whole, channel, sequence, Place(place));
    print!(rt; "\t{channel}\t{sequence}\t{place}\t{number}")?;
    values::print_hex(rt, first(part, 12))?;
    println!(rt)
}

// A sample: system, bytes of the frame, position, sequence, audio block, byte.
fn sample(rt: &impl Print, line: Line<'_>, frame: &[u8]) -> io::Result<()> {
    let [system, size, position, sequence, block, byte, ..] = line.numbers;
    let whole = first(frame, size as usize);
    let place = Place(6 + 16 * (block % 9));
    let part = views::view(system, whole, 0, sequence, place);
    print!(rt; "\t{position}\t{sequence}\t{block}")?;
    values::print_hex(rt, first(behind(part, (byte % 79) as usize), 2))?;
    println!(rt)
}

// The numbers anew, of which one is another: its place, and which it is.
fn number(line: Line<'_>, numbers: &mut [i32]) {
    let [place, which, ..] = line.numbers;
    values::fill_numbers(numbers);
    values::set_number(numbers, place as usize, level(which));
}

fn level(which: u32) -> i32 {
    match which {
        0 => -32761, // what is there
        1 => 32769,
        2 => -32769,
        3 => 2147483647,
        4 => -2147483648,
        5 => 32768,
        6 => -32768,
        _ => 40000,
    }
}

// What is written from and to: numbers, macroblocks and a frame.
#[derive(Drop)]
struct Lent<'a, 'b> {
    numbers: &'a mut [i32],
    macroblocks: &'b [u8],
    frame: &'a mut [u8],
}

impl Lent<'_, '_> {
    // A frame of known contents: case, system, count, PC1 of the time code.
    fn known(&mut self, rt: &impl Print, line: Line<'_>) -> io::Result<()> {
        let [case, system, count, pc1, ..] = line.numbers;
        let macroblocks = self.macroblocks;
        let numbers = &mut *self.numbers;
        let answer = values::known_frame(system, count, pc1, numbers, macroblocks, self.frame);
        let (s1, s2) = values::sum_of_bytes(first(self.frame, values::size_of(system)));
        println!(rt; "\t{case}\t{answer}\t{s1}\t{s2}")
    }

    // System, count, lengths of sound, macroblocks, time code, binary group and frame, the time code's bytes, the binary group's byte.
    fn answer(&mut self, line: Line<'_>) -> u32 {
        let [
            system,
            count,
            sound,
            video,
            time,
            group,
            size,
            pc1,
            pc2,
            pc3,
            pc4,
            pack,
        ] = line.numbers;
        let codes = [byte(pc1), byte(pc2), byte(pc3), byte(pc4), 0];
        let packs = [byte(pack); 5];
        let macroblocks = self.macroblocks;
        let numbers = &mut *self.numbers;
        let frame = &mut *self.frame;
        values::write(
            system,
            count,
            first(numbers, sound as usize),
            first(macroblocks, video as usize),
            first(&codes, time as usize),
            first(&packs, group as usize),
            frame,
            size as usize,
        )
    }

    fn refused(&mut self, rt: &impl Print, line: Line<'_>) -> io::Result<()> {
        self.frame.fill(0xA5);
        let answer = self.answer(line);
        let mut others: u32 = 0;
        for byte in self.frame.iter() {
            others = others.wrapping_add(u32::from(*byte != 0xA5));
        }
        println!(rt; "\t{answer}\t{others}")
    }
}

impl Steps for Lent<'_, '_> {
    fn step(&mut self, rt: &impl Print, line: Line<'_>) -> io::Result<()> {
        match line.letter {
            Some(b'k') => self.known(rt, line),
            Some(b'b') => block(rt, line, self.frame),
            Some(b's') => sample(rt, line, self.frame),
            Some(b'a') => self.refused(rt, line),
            Some(b'n') => {
                number(line, self.numbers);
                Ok(())
            }
            _ => Ok(()),
        }
    }
}

// Takes the script on standard input, as much of it as there is room for.
fn run(
    rt: &impl Print,
    text: &mut [u8; 16384],
    numbers: &mut [i32; 15360],
    macroblocks: &mut [u8; 467775],
    frame: &mut [u8; 576000],
) {
    let size = input::read(text);
    values::fill_macroblocks(macroblocks);
    let mut lent = Lent {
        numbers,
        macroblocks,
        frame,
    };
    let output = Output { to: rt };
    let _printed = script::run(&output, first(text, size), &mut lent);
}

fn main(rt: HostRuntime) {
    let mut text = [0u8; 16384];
    let mut numbers = [0i32; 15360];
    let mut macroblocks = [0u8; 467775];
    let mut frame = [0u8; 576000];
    run(&rt, &mut text, &mut numbers, &mut macroblocks, &mut frame);
}
