// The frame check.
ghost use Rattle.rules_reads.specs.Check.{Checked};

// The frame check. Refusals: 1, 2, 11 to 15, 21, 22.
pub fn check_frame(system: u32, frame: &[u8]) -> u32
    ensures { Checked system frame.now result }
{
    layout::number(refuse_check::refuse(system, frame))
}
