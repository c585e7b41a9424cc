// What is put into frames and lists, and what is printed of them.
use std::io;

// What a lent number holds before a call.
pub const MARK: i32 = 7777777;

// Numbers of the whole range.
pub fn fill_numbers(numbers: &mut [i32]) {
    let mut x: u32 = 7;
    for n in numbers.iter_mut() {
        *n = (x as i32).saturating_sub(32768);
        x = (x + 2731) % 65537;
    }
}

pub fn set_number(numbers: &mut [i32], i: usize, x: i32) {
    if let Some(n) = numbers.get_mut(i) {
        *n = x;
    }
}

// The least level and the lost mark first and the least level last.
pub fn known_numbers(numbers: &mut [i32], n: usize) {
    fill_numbers(numbers);
    set_number(numbers, 0, -32768);
    set_number(numbers, 1, 32768);
    if n > 0 {
        set_number(numbers, n - 1, -32768);
    }
}

// Bytes of which no two macroblocks have the same 77: six on from byte to byte, and one more each 37.
pub fn fill_macroblocks(bytes: &mut [u8]) {
    let mut next: u8 = 0;
    for part in bytes.chunks_mut(37) {
        for byte in part {
            *byte = next;
            next = next.wrapping_add(6);
        }
        next = next.wrapping_add(1);
    }
}

// Bytes of a small generator.
pub fn fill_rubbish(bytes: &mut [u8]) {
    let mut x: u32 = 1;
    for byte in bytes.iter_mut() {
        *byte = (x % 256) as u8;
        x = (x * 75 + 74) % 65537;
    }
}

// ---- parts

// The first n of a lent slice, or all of it where there are fewer.
pub fn first<T>(items: &[T], n: usize) -> &[T] {
    items.get(..n).unwrap_or(items)
}

// Those behind the first n, or none.
pub fn behind<T>(items: &[T], n: usize) -> &[T] {
    items.get(n..).unwrap_or(&[])
}

pub fn byte(x: u32) -> u8 {
    (x % 256) as u8
}

pub fn size_of(system: u32) -> usize {
    if system % 2 == 1 { 576000 } else { 480000 }
}

// The macroblocks that a system takes.
pub fn macroblock_bytes(system: u32, bytes: &[u8]) -> &[u8] {
    if system == 1 {
        return bytes;
    }
    first(bytes, 415800)
}

// ---- sums and counts

// Neither sum comes near 2^32: each is below 65,521 before, and x is at most 100,000.
fn added((s1, s2): (u32, u32), x: u32) -> (u32, u32) {
    let s1 = s1.wrapping_add(x) % 65521;
    (s1, s2.wrapping_add(s1) % 65521)
}

// An Adler checksum.
pub fn sum_of_bytes(bytes: &[u8]) -> (u32, u32) {
    bytes
        .iter()
        .fold((1, 0), |sums, x| added(sums, u32::from(*x)))
}

// The same of numbers, as they are printed.
pub fn sum_of_numbers(numbers: &[i32]) -> (u32, u32) {
    numbers
        .iter()
        .fold((1, 0), |sums, x| added(sums, raised(*x)))
}

// A number of 16 bits with its sign, or lost, 32,768 up; 100,000 where it is neither.
fn raised(x: i32) -> u32 {
    match u32::try_from(x.saturating_add(32768)) {
        Ok(up) if up <= 65536 => up,
        _ => 100000,
    }
}

pub fn count(numbers: &[i32], x: i32) -> usize {
    numbers.iter().filter(|n| **n == x).count()
}

// ---- fields, each behind a tab

pub fn print_number(rt: &impl Print, numbers: &[i32], i: usize) -> io::Result<()> {
    if let Some(x) = numbers.get(i) {
        let up = raised(*x);
        print!(rt; "\t{up}")?;
    }
    Ok(())
}

// The first, the second and the last of n.
pub fn print_ends(rt: &impl Print, numbers: &[i32], n: usize) -> io::Result<()> {
    print_number(rt, numbers, 0)?;
    print_number(rt, numbers, 1)?;
    if n > 0 {
        print_number(rt, numbers, n - 1)?;
    }
    Ok(())
}

pub fn print_list(rt: &impl Print, list: &[u32]) -> io::Result<()> {
    for x in list {
        print!(rt; "\t{x}")?;
    }
    Ok(())
}

pub fn print_hex(rt: &impl Print, bytes: &[u8]) -> io::Result<()> {
    for x in bytes {
        print!(rt; "\t{x:02X}")?;
    }
    Ok(())
}

// ---- frames

// Writes a frame of so many bytes: the writer's answer.
pub fn write(
    system: u32,
    count: u32,
    numbers: &[i32],
    macroblocks: &[u8],
    time: &[u8],
    group: &[u8],
    frame: &mut [u8],
    size: usize,
) -> u32 {
    match frame.get_mut(..size) {
        Some(part) => writer::write_frame(system, count, numbers, macroblocks, time, group, part),
        None => 99,
    }
}

// Writes a frame of known contents over the first bytes of the frame: the writer's answer.
pub fn known_frame(
    system: u32,
    count: u32,
    pc1: u32,
    numbers: &mut [i32],
    macroblocks: &[u8],
    frame: &mut [u8],
) -> u32 {
    let n = 8 * (count as usize);
    known_numbers(numbers, n);
    write(
        system,
        count,
        first(numbers, n),
        macroblock_bytes(system, macroblocks),
        &[byte(pc1), 0xD9, 0x59, 0xE3],
        &[0x12, 0x34, 0x56, 0x78],
        frame,
        size_of(system),
    )
}
