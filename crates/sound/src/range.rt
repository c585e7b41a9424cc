// Which numbers are samples.
ghost use Rattle.std.specs.Prelude.{◌≡◌};
ghost use Rattle.rules_format.specs.Samples.{in_range, all_in_range};

// "a sample outside -32,768 to 32,768" is none.
pub fn in_range(x: i32) -> bool
    ensures { result ≡ in_range x }
{
    (-32768 <= x) & (x <= 32768)
}

// Every number of a lent slice is a sample; no early return, so that the loop goes by vectors.
pub fn all_in_range(numbers: &[i32]) -> bool
    ensures { result ≡ all_in_range numbers.now }
{
    let mut good = true;
    for x in numbers {
        good &= in_range(*x);
    }
    good
}
