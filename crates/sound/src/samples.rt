// A sample as a number of a lent slice, and as a word of an audio block.
ghost use Rattle.std.specs.Prelude.{◌≡◌, get_or, ◌+◌, ◌*◌};
ghost use Rattle.rules_format.specs.Samples.{number_of, sample_in, sample_of, word_of, word_for};

use crate::range;
use paper::Sample;

// The sample of a number.
fn sample_in(x: i32) -> Option<Sample>
    ensures { result ≡ sample_in x }
{
    if !range::in_range(x) {
        None
    } else if x == 32768 {
        Some(Sample::Lost)
    } else {
        Some(Sample::Level(x as i16))
    }
}

// The number of a sample.
pub fn number_of(s: Sample) -> i32
    ensures { result ≡ number_of s }
{
    match s {
        Sample::Level(z) => z as i32,
        Sample::Lost => 32768,
    }
}

// The sample of a word, by its high and its low byte.
pub fn sample_of(high: u8, low: u8) -> Sample
    ensures { result ≡ sample_of (high * 256 + low) }
{
    let word = (high as u16) * 256 + (low as u16);
    if word == 0x8000 {
        Sample::Lost
    } else {
        Sample::Level(word.cast_signed())
    }
}

// The word of a sample; -32,768 as 8001h, since its own bits say lost.
fn word_of(s: Sample) -> u32
    ensures { result ≡ word_of s }
{
    match s {
        Sample::Level(z) => {
            let bits = z.cast_unsigned() as u32;
            if bits == 0x8000 { 0x8001 } else { bits }
        }
        Sample::Lost => 0x8000,
    }
}

// The word of a number; silence stands in where it is no sample.
pub fn word_for(x: i32) -> u32
    ensures { result ≡ word_for x }
{
    match sample_in(x) {
        Some(s) => word_of(s),
        None => 0,
    }
}
