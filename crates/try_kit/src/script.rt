// A script of tries: on a line a letter, a name and up to twelve numbers, in decimal or as 0x and hex digits, parted by one space each.
// What stands behind a `#`, or behind any other byte below `$` but a space, is not read.
ghost use Rattle.std.specs.Prelude.{◌<◌};

use std::io;

// Numbers that the line does not have are 0.
#[derive(Clone, Copy)]
pub struct Line<'a> {
    pub letter: Option<u8>,
    pub name: &'a [u8],
    pub numbers: [u32; 12],
}

// A word's number so far.
#[derive(Clone, Copy)]
struct Amount {
    hex: bool,
    value: u64,
}

// Any byte counts as a digit.
fn digit(b: u8) -> u64
    ensures { result < 32 }
{
    let low = u64::from(b % 16);
    if b < 64 { low } else { low + 9 }
}

fn taken(n: Amount, b: u8) -> Amount {
    if b == b'x' {
        return Amount {
            hex: true,
            value: 0,
        };
    }
    let base = if n.hex { 16 } else { 10 };
    Amount {
        hex: n.hex,
        value: base * (n.value % 1000000000) + digit(b),
    }
}

fn number(word: &[u8]) -> u32 {
    let zero = Amount {
        hex: false,
        value: 0,
    };
    let n = word.iter().fold(zero, |n, b| taken(n, *b));
    (n.value % 4294967296) as u32
}

fn body(line: &[u8]) -> &[u8] {
    let mut parts = line.split(|b| *b < b'$' && *b != b' ');
    parts.next().unwrap_or(&[])
}

fn parse(line: &[u8]) -> Line<'_> {
    let body = body(line);
    let mut words = body.split(|b| *b == b' ').skip(1);
    let name = words.next().unwrap_or(&[]);
    let mut numbers = [0; 12];
    for (n, word) in numbers.iter_mut().zip(words) {
        *n = number(word);
    }
    Line {
        letter: body.first().copied(),
        name,
        numbers,
    }
}

// What a test program does at a line of its script, behind the line's name.
pub trait Steps {
    fn step(&mut self, rt: &impl Print, line: Line<'_>) -> io::Result<()>;
}

// Takes the lines of a script one after the other.
pub fn run(rt: &impl Print, script: &[u8], program: &mut impl Steps) -> io::Result<()> {
    for line in script.split(|b| *b == b'\n') {
        let line = parse(line);
        start(rt, line)?;
        program.step(rt, line)?;
    }
    Ok(())
}

// Starts the line that is printed of this one, with its name; `-` begins the name of a line of which no name is printed.
fn start(rt: &impl Print, line: Line<'_>) -> io::Result<()> {
    if line.name.starts_with(b"-") {
        return Ok(());
    }
    rt.write_all(line.name)
}
