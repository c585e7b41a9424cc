// A part of a frame as an answer.
ghost use Rattle.std.specs.Prelude.{◌≡◌};
ghost use Rattle.rules_format.specs.Blocks.{no_part};

use paper::Part;

// A refusal: its number, and no part.
pub fn no_part(number: u32) -> Part
    ensures { result ≡ no_part number }
{
    Part {
        number: number,
        start: 0,
        length: 0,
    }
}
