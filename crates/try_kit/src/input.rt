// What a test program is given.
ghost use Rattle.io.specs.Counts.{IsPrefixLen};

// As much of standard input as there is room for, or what came before a read that failed: how many bytes.
pub fn read(text: &mut [u8]) -> usize
    ensures { IsPrefixLen result text.new }
{
    io::read_full(0, text)
}
