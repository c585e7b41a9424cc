// Which sample stands where.
ghost use Rattle.std.specs.Prelude.{◌≡◌, ◌*◌, ◌%◌, ◌<◌};
ghost use Rattle.rules_format.specs.Systems.{half_of};
ghost use Rattle.rules_format.specs.Sound.{rank_at, first_at};
ghost use Rattle.sound.specs.Asked.{First};

use paper::{BlockNumber, System};

// The first sample of an audio block of the sequence of rank r.
fn first_of(s: u32, r: u32, audio: BlockNumber) -> u32
    requires { First s r audio.0 }
    ensures { result ≡ first_at s r audio.0 }
{
    let a = audio.0;
    3 * s * (a % 3) + 3 * ((r + 2 * s - 2 * (a / 3)) % s) + a / 3
}

// The first sample of an audio block of sequence q; its others follow 9s apart.
pub fn first_at(y: System, q: u32, audio: BlockNumber) -> u32
    ensures { result ≡ first_at (half_of y) (rank_at (half_of y) q) (audio.0 % 9) }
{
    let s = layout::half(y);
    first_of(s, q % s, BlockNumber(audio.0 % 9))
}
