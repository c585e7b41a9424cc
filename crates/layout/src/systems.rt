// The four systems: each brings its own numbers.
ghost use Rattle.std.specs.Prelude.{◌≡◌, ◌*◌};
ghost use Rattle.rules_format.specs.Systems.{sequences_of, half_of, positions_of, counts_of, is_count, macroblocks_of, rate_of, stype_of, system_of};

use paper::{Counts, System};

// A system by its number.
pub fn system_of(number: u32) -> Option<System>
    ensures { result ≡ system_of number }
{
    match number {
        0 => Some(System::I60),
        1 => Some(System::I50),
        2 => Some(System::P60),
        3 => Some(System::P50),
        _ => None,
    }
}

// The sequences of a DIF channel.
pub fn sequences(y: System) -> u32
    ensures { result ≡ sequences_of y }
{
    match y {
        System::I60 => 10,
        System::I50 => 12,
        System::P60 => 10,
        System::P50 => 12,
    }
}

// The sequences of an audio channel, s = n/2.
pub fn half(y: System) -> u32
    ensures { result ≡ half_of y }
{
    sequences(y) / 2
}

// The audio positions of an audio channel.
pub fn positions(y: System) -> u32
    ensures { result ≡ positions_of y }
{
    match y {
        System::I60 => 1620,
        System::I50 => 1944,
        System::P60 => 1620,
        System::P50 => 1944,
    }
}

pub fn counts(y: System) -> Counts
    ensures { result ≡ counts_of y }
{
    match y {
        System::I60 => Counts {
            fewer: 1600,
            more: 1602,
        },
        System::I50 => Counts {
            fewer: 1920,
            more: 1920,
        },
        System::P60 => Counts {
            fewer: 1600,
            more: 1602,
        },
        System::P50 => Counts {
            fewer: 1920,
            more: 1920,
        },
    }
}

// One of the system's own sample counts.
pub fn is_count(y: System, count: u32) -> bool
    ensures { result ≡ is_count y count }
{
    let own = counts(y);
    (count == own.fewer) | (count == own.more)
}

pub fn macroblocks(y: System) -> u32
    ensures { result ≡ macroblocks_of y }
{
    match y {
        System::I60 => 5400,
        System::I50 => 6075,
        System::P60 => 5400,
        System::P50 => 5400,
    }
}

// The rate's bit: 0 for 60 Hz, 1 for 50 Hz.
pub fn rate(y: System) -> u32
    ensures { result ≡ rate_of y }
{
    match y {
        System::I60 => 0,
        System::I50 => 1,
        System::P60 => 0,
        System::P50 => 1,
    }
}

// STYPE of VS.
pub fn stype(y: System) -> u32
    ensures { result ≡ stype_of y }
{
    match y {
        System::I60 => 0x14,
        System::I50 => 0x14,
        System::P60 => 0x18,
        System::P50 => 0x18,
    }
}

// The bytes of a frame.
pub fn frame_bytes(y: System) -> usize
    ensures { result ≡ 48000 * sequences_of y }
{
    48000 * (sequences(y) as usize)
}
