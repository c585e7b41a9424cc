// What is asked of one sequence.
ghost use Rattle.std.specs.Prelude.{◌≡◌};
ghost use Rattle.rules_packs.specs.Header.{flagged};
ghost use Rattle.rules_reads.specs.Check.{header_in, dsf_agrees, vs_agrees};
ghost use Rattle.judges.specs.Asked.{sequence_from};
ghost use Rattle.judges.specs.Tests.{test_of};

use crate::Test;
use crate::read::Sequence;

impl Sequence<'_> {
    // The header sets TF1, TF2 or TF3, by its number.
    fn is_flagged(&self, k: u32) -> bool
        ensures { result ≡ flagged k (header_in (sequence_from self.now.frame.now self.now.start)) }
    {
        self.header_byte(4 + k as usize) / 128 == 1
    }

    // The header's DSF agrees (21).
    fn dsf_agrees(&self) -> bool
        ensures { result ≡ dsf_agrees self.now.system self.now.number (sequence_from self.now.frame.now self.now.start) }
    {
        let byte = u32::from(self.header_byte(3));
        byte / 128 == layout::rate(self.system)
    }

    // The VS agrees, where the header's TF2 is 0 (22).
    fn vs_agrees(&self) -> bool
        ensures { result ≡ vs_agrees self.now.system self.now.number (sequence_from self.now.frame.now self.now.start) }
    {
        let not_judged = self.is_flagged(2);
        let good = packs::vs_ok(self.system, self.vs());
        not_judged | good
    }

    // The sequence passes the test.
    pub(crate) fn passes(&self, test: Test) -> bool
        ensures { result ≡ test_of self.now.system test self.now.number (sequence_from self.now.frame.now self.now.start) }
    {
        match test {
            Test::Dsf => self.dsf_agrees(),
            Test::Vs => self.vs_agrees(),
            Test::Unflagged(k) => !self.is_flagged(k),
            Test::AsKeeps(c) => packs::as_ok(self.system, c, self.source()),
            Test::CountIs(count) => packs::count_in(self.source()) == count,
            Test::ModeIs(mode) => packs::mode_in(self.source()) == mode,
            Test::Subcode(said) => self.subcode_agrees(said),
        }
    }
}
