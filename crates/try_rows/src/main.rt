// Every row that the Recommendation's tables 22 to 24 print. A line: the table, the system, DIF channel, DIF sequence and
// V number; where the slot carries a macroblock, h, i, j and k of its CM, and 1 if that macroblock lies in this slot.
#![tactic(auto)]

use paper::{BlockNumber, Slot, System};
use std::io;
use try_kit::output::Output;

// CM h,i,j,k of a number, in ten rows and in eleven. The edge unit is row 11 of DIF channel 0.
fn ten_rows(b: u32) -> [u32; 4] {
    [b / 1350, b / 135 % 10, b / 27 % 5, b % 27]
}

fn eleven_rows(b: u32) -> [u32; 4] {
    if b < 5940 {
        [b / 1485, b / 135 % 11, b / 27 % 5, b % 27]
    } else {
        [0, 11, (b - 5940) / 27, (b - 5940) % 27]
    }
}

fn cm(y: System, b: u32) -> [u32; 4] {
    match y {
        System::I50 => eleven_rows(b),
        System::I60 | System::P60 | System::P50 => ten_rows(b),
    }
}

fn row(rt: &impl Print, table: u8, y: System, h: u32, q: u32, v: u32) -> io::Result<()> {
    let number = y as u32;
    print!(rt; "{table}\t{number}\t{h}\t{q}\t{v}")?;
    let slot = Slot {
        channel: h,
        sequence: q,
        video: BlockNumber(v),
    };
    if let Some(b) = picture::carried(y, slot) {
        let [channel, i, j, k] = cm(y, b);
        let lies = u32::from(picture::carrier(y, b) == Some(slot));
        print!(rt; "\t{channel}\t{i}\t{j}\t{k}\t{lies}")?;
    }
    println!(rt)
}

// V0 to V4 of sequence 0.
fn first(rt: &impl Print, table: u8, y: System, h: u32) -> io::Result<()> {
    for v in 0..5 {
        row(rt, table, y, h, 0, v)?;
    }
    Ok(())
}

fn table_22(rt: &impl Print, y: System, h: u32) -> io::Result<()> {
    first(rt, 22, y, h)?;
    row(rt, 22, y, h, 9, 134)
}

fn table_23(rt: &impl Print, h: u32) -> io::Result<()> {
    first(rt, 23, System::I50, h)?;
    row(rt, 23, System::I50, h, 10, 134)?;
    row(rt, 23, System::I50, h, 11, 0)?;
    if h == 0 {
        row(rt, 23, System::I50, h, 11, 1)?;
    }
    row(rt, 23, System::I50, h, 11, 134)
}

fn table_24(rt: &impl Print, h: u32) -> io::Result<()> {
    first(rt, 24, System::P50, h)?;
    row(rt, 24, System::P50, h, 9, 134)?;
    row(rt, 24, System::P50, h, 10, 0)?;
    row(rt, 24, System::P50, h, 10, 134)?;
    row(rt, 24, System::P50, h, 11, 0)?;
    row(rt, 24, System::P50, h, 11, 134)
}

fn tables(rt: &impl Print) -> io::Result<()> {
    for y in [System::I60, System::P60] {
        for h in [0, 1, 3] {
            table_22(rt, y, h)?;
        }
    }
    for h in [0, 1, 3] {
        table_23(rt, h)?;
    }
    for h in [0, 1, 3] {
        table_24(rt, h)?;
    }
    Ok(())
}

fn main(rt: HostRuntime) {
    let output = Output { to: &rt };
    let _printed = tables(&output);
}
