// The words of an audio block, from the samples of its audio channel.
#![tactic(auto)]

ghost use Rattle.std.specs.Prelude.{◌≡◌, length};
ghost use Rattle.base.specs.Pick.{pick};
ghost use Rattle.rules_format.specs.Samples.{bytes_of};
ghost use Rattle.sample_words.specs.Asked.{WordAsked, WordsAsked};
ghost use Rattle.sample_words.specs.Words.{pairs_put, words_put, words_fit};

use paper::{BlockNumber, System};

// A word, its high byte first.
fn put_word(part: &mut [u8], word: u32)
    requires { WordAsked part.old word }
    ensures { part.new ≡ bytes_of word }
{
    part[0] = (word / 256) as u8;
    part[1] = (word % 256) as u8;
}

// The words of samples that are `step` apart, below the count. Every count has 35 whole turns, so that the last word alone may be past it; then it stays.
fn put_words(part: &mut [u8], samples: &[i32], first: usize, step: usize)
    requires { WordsAsked part.old samples.now first step }
    ensures { part.new ≡ pairs_put samples.now first step part.old }
{
    let mut t = first;
    for w in 0..35 {
        let at = w * 2;
        let to = at + 2;
        let x = samples[t];
        put_word(&mut part[at..to], sound::word_for(x));
        t += step;
    }
    if t < samples.len() {
        let x = samples[t];
        put_word(&mut part[70..72], sound::word_for(x));
    }
}

// The part has 72 bytes, its block a number, and there are samples for 35 whole turns.
pub fn words_fit(size: usize, y: System, samples: usize, a: BlockNumber) -> bool
    ensures { result ≡ words_fit size y samples a.0 }
{
    ((size == 72) & (a.0 < 9)) & (315 * (layout::half(y) as usize) <= samples)
}

// The 36 words of A(a) of sequence q, as far as its audio channel has samples: the first by the sound rule, the others 9s apart. What is past them stays,
// and so does a part that does not fit.
pub fn put_samples(part: &mut [u8], y: System, samples: &[i32], q: u32, a: BlockNumber)
    ensures { part.new ≡ pick (words_fit (length part.old) y (length samples.now) a.0) (words_put y samples.now q a.0 part.old) part.old }
{
    if !words_fit(part.len(), y, samples.len(), a) {
        return;
    }
    let step = 9 * (layout::half(y) as usize);
    let first = sound::first_at(y, q, a) as usize;
    put_words(part, samples, first, step);
}
