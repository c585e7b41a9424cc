// Surveys the frame on standard input, one sequence of 12,000 bytes at a time, and prints the first 64 faults and the totals.
#![tactic(auto)]

ghost use Rattle.std.specs.Prelude.{◌≡◌, length};
ghost use Rattle.survey.specs.Program.{Ended, Said, Rooms, Surveyed};

use fault_list::RECORD;
use layout::SEQUENCE;
use stream::Reading;

// Reads the input to its end, since nothing is to be printed before all of it was read.
fn read_all(buf: &mut [u8], list: &mut [u32]) -> Reading
    requires { length buf.old ≡ 12000 }
    ensures { Ended list.old buf.new list.new result }
{
    let mut r = stream::start();
    for _ in 0..u64::MAX {
        let got = io::read_full(0, buf);
        r = stream::refill(r, got, buf, list);
        if got != SEQUENCE {
            return r;
        }
    }
    r
}

// What is printed of an input that was read, and how many bytes it has.
fn text_of(r: Reading, list: &[u32], text: &mut [u8]) -> usize
    ensures { Said r list.now text.old text.new result }
{
    let s = verdict::answer(r, list.len());
    report::text(s, list, text)
}

// The survey of the input: text becomes what is to be printed, n bytes of it.
fn survey(buf: &mut [u8], list: &mut [u32], text: &mut [u8]) -> usize
    requires { Rooms buf.old list.old text.old }
    ensures { Surveyed buf.new text.old text.new result }
{
    let r = read_all(buf, list);
    text_of(r, list, text)
}

// The list has room for 64 records, the text for their lines.
fn main() {
    let mut buf = [0u8; SEQUENCE];
    let mut list = [0u32; 64 * RECORD];
    let mut text = [0u8; 4160];
    let n = survey(&mut buf, &mut list, &mut text);
    io::write_all(1, &text[..n]);
}
