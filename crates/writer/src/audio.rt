// The audio channel of a sequence, and its samples.
ghost use Rattle.std.specs.Prelude.{◌≡◌};
ghost use Rattle.rules_format.specs.Sound.{audio_at};
ghost use Rattle.rules_writes.specs.Written.{samples_of};
ghost use Rattle.writer.specs.Asked.{ChannelAsked, SamplesAsked};

use layout::DifSequence;

// The audio channel of a sequence.
pub(crate) fn audio_at(s: u32, dif: DifSequence) -> u32
    requires { ChannelAsked s dif.channel dif.sequence }
    ensures { result ≡ audio_at s dif.channel dif.sequence }
{
    2 * dif.channel + dif.sequence / s + 1
}

// The samples of an audio channel; sound is lent audio channel after audio channel.
pub(crate) fn samples_of(sound: &[i32], c: u32, count: u32) -> &[i32]
    requires { SamplesAsked sound.now c count }
    ensures { result.now ≡ samples_of count sound.now c }
{
    let n = count as usize;
    let at = (c as usize - 1) * n;
    let to = at + n;
    &sound[at..to]
}
