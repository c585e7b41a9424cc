// The call: a refusal, or the frame.
ghost use Rattle.rules_writes.specs.Write.{contents_of, Wrote};

use crate::frame;
use crate::material::Material;

// Writes a frame. Refusals: 1, 2, 3, 4, 31, 32; a refusal writes nothing.
pub fn write_frame(
    system: u32,
    count: u32,
    sound: &[i32],
    macroblocks: &[u8],
    time_code: &[u8],
    binary_group: &[u8],
    frame: &mut [u8],
) -> u32
    ensures { Wrote system (contents_of count sound.now macroblocks.now time_code.now binary_group.now) frame.old result frame.new }
{
    let size = frame.len();
    let y = match refuse_write::refuse(
        system,
        count,
        sound,
        macroblocks,
        time_code,
        binary_group,
        size,
    ) {
        Ok(y) => y,
        Err(cause) => return layout::number_of(cause),
    };
    let material = Material {
        system: y,
        repeated: packs::repeated(y, time_code, binary_group),
        count: count,
        sound: sound,
        macroblocks: macroblocks,
    };
    frame::fill_frame(frame, &material);
    0
}
