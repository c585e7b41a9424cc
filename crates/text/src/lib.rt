// A line of fields as bytes: a letter, each field in decimal behind a tab, and a newline.
#![tactic(auto)]

ghost use Rattle.std.specs.Prelude.{◌≡◌, [], ◌∷◌, ◌+◌, ◌≤◌, ◌<◌, length};
ghost use Rattle.text.specs.Lines.{decimal, fields_of, Put, PutField, FieldsAsked, Lined};

// One byte at `at`, and where it ends.
fn put_byte(byte: u8, out: &mut [u8], at: usize) -> usize
    requires { at < length out.old }
    ensures { Put (byte ∷ []) at out.old out.new result }
{
    out[at] = byte;
    at + 1
}

// The bytes of src from `at` on, and where they end.
fn put_bytes(src: &[u8], out: &mut [u8], at: usize) -> usize
    requires { at + length src.now ≤ length out.old }
    ensures { Put src.now at out.old out.new result }
{
    let end = at + src.len();
    out[at..end].copy_from_slice(src);
    end
}

// A number in decimal.
fn put_number(x: u32, out: &mut [u8], at: usize) -> usize
    requires { at + 10 ≤ length out.old }
    ensures { PutField (decimal x) 10 at out.old out.new result }
{
    let mut digits = [0u8; 20];
    let k = io::decimal(x as u64, &mut digits);
    put_bytes(&digits[..k], out, at)
}

// A tab and a field.
fn put_field(x: u32, out: &mut [u8], at: usize) -> usize
    requires { at + 11 ≤ length out.old }
    ensures { PutField (9 ∷ decimal x) 11 at out.old out.new result }
{
    let next = put_byte(b'\t', out, at);
    put_number(x, out, next)
}

fn put_fields(fields: &[u32], out: &mut [u8], at: usize) -> usize
    requires { FieldsAsked fields.now out.old at }
    ensures { PutField (fields_of fields.now) 55 at out.old out.new result }
{
    let mut end = at;
    for x in fields {
        end = put_field(*x, out, end);
    }
    end
}

// A line of at most five fields at the start of out, and its length. Out wants 64 bytes; where it has fewer, or the fields are
// more, nothing is written.
pub fn line(letter: u8, fields: &[u32], out: &mut [u8]) -> usize
    ensures { Lined letter fields.now out.old out.new result }
{
    if 5 < fields.len() {
        return 0;
    }
    if out.len() < 64 {
        return 0;
    }
    let first = put_byte(letter, out, 0);
    let end = put_fields(fields, out, first);
    put_byte(b'\n', out, end)
}
