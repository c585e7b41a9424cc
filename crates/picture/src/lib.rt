// Picture slots: the macroblock of a slot, and the slot of a macroblock.
#![tactic(auto)]

ghost use Rattle.std.specs.Prelude.{◌≡◌, ◌<◌};
ghost use Rattle.rules_picture.specs.Picture.{step_of, column_of, macroblock, ten_carries, eleven_carries, carries_of, carried_in, unit_at, slot_at, ten_found};
ghost use Rattle.rules_picture.specs.Picture.{eleven_found, carrier_of};
ghost use Rattle.picture.specs.Ruled.{Ruled};

use paper::{BlockNumber, Slot, System};

// The row's step and the column of unit m.
fn step(m: u32) -> u32
    requires { m < 5 }
    ensures { (result ≡ step_of m) × (result < 9) }
{
    match m {
        0 => 2,
        1 => 6,
        2 => 8,
        3 => 0,
        _ => 4,
    }
}

fn column(m: u32) -> u32
    requires { m < 5 }
    ensures { (result ≡ column_of m) × (result < 5) }
{
    match m {
        0 => 2,
        1 => 1,
        2 => 3,
        3 => 0,
        _ => 4,
    }
}

// The unit m of a column.
fn unit(column: u32) -> u32
    requires { column < 5 }
    ensures { (result ≡ unit_at column) × (result < 5) }
{
    match column {
        0 => 3,
        1 => 1,
        2 => 0,
        3 => 2,
        _ => 4,
    }
}

// The macroblock by its row in the frame, its column and k.
fn number(row: u32, column: u32, k: u32) -> u32
    requires { (row < 44) × (column < 5) × (k < 27) }
    ensures { result ≡ macroblock row column k }
{
    (row * 5 + column) * 27 + k
}

fn ten_carries(s: Slot) -> Option<u32>
    requires { (s.channel < 4) × (s.video.0 < 135) }
    ensures { result ≡ ten_carries s.channel s.sequence s.video.0 }
{
    let (h, q, v) = (s.channel, s.sequence, s.video.0);
    if q < 10 {
        let m = v % 5;
        let z = 27 * q + v / 5;
        let row = ((4 * h + q / 5 + 2 * z) % 10 + step(m)) % 10;
        return Some(number(10 * h + row, column(m), z / 5 % 27));
    }
    None
}

// Eleven rows, then the edge unit in sequence 11 of DIF channel 0.
fn eleven_carries(s: Slot) -> Option<u32>
    requires { (s.channel < 4) × (s.video.0 < 135) }
    ensures { result ≡ eleven_carries s.channel s.sequence s.video.0 }
{
    let (h, q, v) = (s.channel, s.sequence, s.video.0);
    if q < 11 {
        let m = v % 5;
        let z = 27 * q + v / 5;
        let row = ((4 * h + z) % 11 + step(m)) % 11;
        return Some(number(11 * h + row, column(m), z / 11));
    }
    if q == 11 && h == 0 {
        return Some(5940 + 27 * (v % 5) + v / 5);
    }
    None
}

// "720/50 has ten rows", as the systems of 60 Hz.
fn eleven_rows(y: System) -> bool
    ensures { Ruled y result }
{
    match y {
        System::I60 => false,
        System::I50 => true,
        System::P60 => false,
        System::P50 => false,
    }
}

fn rows(y: System, s: Slot) -> Option<u32>
    requires { (s.channel < 4) × (s.video.0 < 135) }
    ensures { result ≡ carries_of y s.channel s.sequence s.video.0 }
{
    if eleven_rows(y) {
        eleven_carries(s)
    } else {
        ten_carries(s)
    }
}

// The macroblock that a slot carries, if any.
pub fn carried(y: System, s: Slot) -> Option<u32>
    ensures { result ≡ carried_in y s }
{
    if s.channel < 4 && s.video.0 < 135 {
        rows(y, s)
    } else {
        None
    }
}

// V(5g+m) of the sequence q, with z = 27q + g.
fn slot_at(h: u32, z: u32, m: u32) -> Slot
    requires { m < 5 }
    ensures { result ≡ slot_at h z m }
{
    Slot {
        channel: h,
        sequence: z / 27,
        video: BlockNumber(5 * (z % 27) + m),
    }
}

fn ten_found(b: u32) -> Option<Slot>
    ensures { result ≡ ten_found b }
{
    if b < 5400 {
        let m = unit(b / 27 % 5);
        let order = ((b / 135 % 10 + 10 - step(m)) % 10 + 6 * (b / 1350)) % 10;
        let z = 135 * (order % 2) + 5 * (b % 27) + order / 2;
        return Some(slot_at(b / 1350, z, m));
    }
    None
}

fn eleven_found(b: u32) -> Option<Slot>
    ensures { result ≡ eleven_found b }
{
    if b < 5940 {
        let m = unit(b / 27 % 5);
        let z = 11 * (b % 27) + ((b / 135 % 11 + 11 - step(m)) % 11 + 7 * (b / 1485)) % 11;
        return Some(slot_at(b / 1485, z, m));
    }
    if b < 6075 {
        let e = b - 5940;
        return Some(Slot {
            channel: 0,
            sequence: 11,
            video: BlockNumber(5 * (e % 27) + e / 27),
        });
    }
    None
}

// The slot of macroblock b, if the system has one of that number.
pub fn carrier(y: System, b: u32) -> Option<Slot>
    ensures { result ≡ carrier_of y b }
{
    if eleven_rows(y) {
        eleven_found(b)
    } else {
        ten_found(b)
    }
}
