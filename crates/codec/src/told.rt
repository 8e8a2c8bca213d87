// The bytes of a written set as a list of runs: the version byte, the number of runs as 4 bytes, then start and end of each run, 8 bytes each, as
// the edition arranges them.
ghost use Rattle.std.specs.Prelude.{◌≡◌, ◌+◌, ◌*◌, ◌≤◌, ◌<◌, length, drop};
ghost use Rattle.model.specs.Positions.{run};
ghost use Rattle.model.specs.Bytes.{value_of, runs_told};
ghost use Rattle.codec.specs.Placed.{picked};

use model::{Edition, Run};
use run_lists::RunList;

// The runs that the bytes of a written set tell from the fifth on; the bytes have all of them.
#[derive(Clone, Copy)]
pub struct Told<'a> {
    pub bytes: &'a [u8],
    pub edition: Edition,
    pub count: u64,
    ghost whole: { 5 + 16 * count ≤ length bytes.now },
}

impl<'a> Told<'a> {
    // The run whose 16 bytes, those of its start and then those of its end, stand from `at` on, `step` apart. Inlined, as what it calls, so that
    // a number whose bytes stand in a row is one load.
    #[inline(always)]
    fn run_from(self, at: usize, step: usize) -> Run
        requires { at + 15 * step < length self.bytes.now }
        ensures { result ≡ run (value_of (picked 8 at step self.entry.bytes.now)) (value_of (picked 8 (at + 8 * step) step self.entry.bytes.now)) }
    {
        Run {
            start: crate::numbers::get_word(self.bytes, at, step),
            end: crate::numbers::get_word(self.bytes, at + 8 * step, step),
        }
    }
}

impl<'a> RunList for Told<'a> {
    ghost runs = { λ l. runs_told l.edition l.count (drop 5 l.bytes.now) };

    #[tactic(auto, using(crate::proofs::Spots::told_length))]
    fn count(self) -> u64 {
        self.count
    }

    // Inlined, so that a loop over the runs looks at the edition once.
    #[inline(always)]
    #[tactic(auto, using(crate::proofs::Spots::told_length))]
    fn run(self, i: u64) -> Run {
        match self.edition {
            Edition::Rows => self.run_from((5 + 16 * i) as usize, 1),
            Edition::Columns => self.run_from((5 + i) as usize, self.count as usize),
        }
    }
}
