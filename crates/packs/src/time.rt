// Time code and binary group packs, as they are judged.
ghost use Rattle.std.specs.Prelude.{◌≡◌};
ghost use Rattle.rules_packs.specs.TimeCode.{last_frame, clock_ok, time_ok, group_ok, time_taken};

use paper::{Pack, System};

// Frames go to 29 or 24.
fn last_frame(y: System) -> u8
    ensures { result ≡ last_frame y }
{
    match y {
        System::I60 => 29,
        System::I50 => 24,
        System::P60 => 29,
        System::P50 => 24,
    }
}

// Units are 0 to 9, and frames, seconds, minutes and hours within their limits.
fn clock_ok(y: System, p: Pack) -> bool
    ensures { result ≡ clock_ok y p }
{
    let last = last_frame(y);
    ((p.pc1 % 16 < 10) & (p.pc1 / 16 % 4 * 10 + p.pc1 % 16 <= last))
        & (((p.pc2 % 16 < 10) & (p.pc2 / 16 % 8 * 10 + p.pc2 % 16 <= 59))
            & (((p.pc3 % 16 < 10) & (p.pc3 / 16 % 8 * 10 + p.pc3 % 16 <= 59))
                & ((p.pc4 % 16 < 10) & (p.pc4 / 16 % 4 * 10 + p.pc4 % 16 <= 23))))
}

// A time code pack has its header and right digits (26).
pub fn time_ok(y: System, p: Pack) -> bool
    ensures { result ≡ time_ok y p }
{
    (p.pc0 == 0x13) & clock_ok(y, p)
}

// A binary group pack has its header (26).
pub fn group_ok(p: Pack) -> bool
    ensures { result ≡ group_ok p }
{
    p.pc0 == 0x14
}

// The writer takes right digits, and at 50 Hz only 1 in bit 6 of PC1 (32).
pub fn time_taken(y: System, p: Pack) -> bool
    ensures { result ≡ time_taken y p }
{
    ((layout::rate(y) == 0) | (p.pc1 / 64 % 2 == 1)) & clock_ok(y, p)
}
