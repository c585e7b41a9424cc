// What is printed of a survey, line by line: its records, then its totals; or its refusal alone.
#![tactic(auto)]

ghost use Rattle.report.specs.Printed.{record_line, totals_line, refusal_line, line_at, Printed, Texted};

use fault_list::RECORD;
use paper::Survey;

// The lines of a list of 64 records at most, and the bytes that they want.
const LINES: u32 = 65;

const ROOM: usize = 4160;

// Record i of the list. There is no line where the list does not hold it.
fn record_line(list: &[u32], i: u32, out: &mut [u8]) -> usize
    ensures { Printed (record_line list.now i) out.old out.new result }
{
    let at = RECORD * (i as usize);
    match list.get(at..at + RECORD) {
        Some(fields) => text::line(b'F', fields, out),
        None => 0,
    }
}

fn totals_line(total: u32, kept: u32, out: &mut [u8]) -> usize
    ensures { Printed (totals_line total kept) out.old out.new result }
{
    let fields = [total, kept];
    text::line(b'T', &fields, out)
}

fn refusal_line(number: u32, out: &mut [u8]) -> usize
    ensures { Printed (refusal_line number) out.old out.new result }
{
    let fields = [number];
    text::line(b'E', &fields, out)
}

// Line i of what is printed, at the start of out, and its length; 0 past the last line, or where out has less than 64 bytes.
fn line(s: Survey, list: &[u32], i: u32, out: &mut [u8]) -> usize
    ensures { Printed (line_at s list.now i) out.old out.new result }
{
    if s.number != 0 {
        if i == 0 {
            return refusal_line(s.number, out);
        }
        return 0;
    }
    if i < s.kept {
        return record_line(list, i, out);
    }
    if i == s.kept {
        return totals_line(s.total, s.kept, out);
    }
    0
}

// The lines of a survey, one behind the other, at the start of out, and their bytes. Nothing is written where out has less than
// 4,160 bytes.
pub fn text(s: Survey, list: &[u32], out: &mut [u8]) -> usize
    ensures { Texted s list.now out.old out.new result }
{
    if out.len() < ROOM {
        return 0;
    }
    let mut at: usize = 0;
    for i in 0..LINES {
        at += line(s, list, i, &mut out[at..]);
    }
    at
}
