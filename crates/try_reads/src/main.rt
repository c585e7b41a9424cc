// Runs a script of strict reads, salvages and new audio channels on written, damaged and bad input. A line of a try has, after its name
// and number, the numbers that check_frame, read_audio, macroblock_number and read_time answer, then the count, how many of the 15,553
// lent numbers still hold their mark, the length of the macroblock's part and the eight bytes of time code and binary group. Numbers of
// lent lists are printed 32,768 up: 0 is -32,768, 1 is -32,767 and 65,536 is lost.
#![tactic(auto)]

mod asks;
mod changes;

use std::io;
use try_kit::output::Output;
use try_kit::script::{Line, Steps};
use try_kit::{input, script, values};

// What is read from and written to: lent numbers, macroblocks that are written, and a frame.
#[derive(Drop)]
struct Lent<'a, 'b> {
    numbers: &'a mut [i32],
    macroblocks: &'b [u8],
    frame: &'a mut [u8],
}

impl Lent<'_, '_> {
    // A frame of known contents, over the first bytes of the frame: system, count, PC1 of the time code.
    fn write(&mut self, rt: &impl Print, line: Line<'_>) -> io::Result<()> {
        let [system, count, pc1, ..] = line.numbers;
        let macroblocks = self.macroblocks;
        let numbers = &mut *self.numbers;
        let answer = values::known_frame(system, count, pc1, numbers, macroblocks, self.frame);
        println!(rt; "\t{system}\t{count}\t{answer}")
    }
}

impl Steps for Lent<'_, '_> {
    fn step(&mut self, rt: &impl Print, line: Line<'_>) -> io::Result<()> {
        let numbers = &mut *self.numbers;
        let frame = &mut *self.frame;
        match line.letter {
            Some(b'w') => self.write(rt, line),
            Some(b'p') => changes::patched(rt, line, frame, numbers),
            Some(b'n') => changes::replaced(rt, line, frame, numbers),
            Some(b'k') => {
                changes::keep(line, frame);
                Ok(())
            }
            Some(b'o') => {
                changes::over(line, frame);
                Ok(())
            }
            Some(b'r') => {
                values::fill_rubbish(frame);
                Ok(())
            }
            Some(b't') => asks::tried(rt, line, frame, numbers),
            Some(b'a') => asks::audio(rt, line, frame, numbers),
            Some(b'm') => asks::macroblock(rt, line, frame),
            Some(b's') => asks::salvage(rt, line, frame, numbers),
            Some(b'v') => asks::survey(rt, line, frame),
            Some(b'c') => asks::channel(rt, line, numbers),
            _ => Ok(()),
        }
    }
}

// Takes the script on standard input, as much of it as there is room for.
fn run(
    rt: &impl Print,
    text: &mut [u8; 16384],
    numbers: &mut [i32; 15553],
    macroblocks: &mut [u8; 467775],
    frame: &mut [u8; 576001],
) {
    let size = input::read(text);
    values::fill_macroblocks(macroblocks);
    let mut lent = Lent {
        numbers,
        macroblocks,
        frame,
    };
    let output = Output { to: rt };
    let _printed = script::run(&output, values::first(text, size), &mut lent);
}

fn main(rt: HostRuntime) {
    let mut text = [0u8; 16384];
    let mut numbers = [0i32; 15553];
    let mut macroblocks = [0u8; 467775];
    let mut frame = [0u8; 576001];
    run(&rt, &mut text, &mut numbers, &mut macroblocks, &mut frame);
}
