// A list of runs in whatever form it is lent: what is done with one is written once, for words, for bytes and for runs.
#![tactic(auto)]

ghost use Rattle.std.specs.Prelude.{◌≡◌, ◌&&◌, true, ◌<◌, ◌/◌, ◌≤◌, ⊤, List, leb, length, get_or};
ghost use Rattle.std.specs.Iterator.{YieldsFirst, item_count};
ghost use Rattle.model.specs.declared.Run.{Run};
ghost use Rattle.model.specs.Positions.{run};
ghost use Rattle.model.specs.Refusals.{ordered_from};
ghost use Rattle.model.specs.RunList.{AllWords};
ghost use Rattle.run_lists.specs.Listed.{least_after, pairs, left};

use model::Run;

// By number: a sweep asks for an entry again and again, wherever it stands. `Runs` goes through all of them once.
pub trait RunList {
    // The runs, in the order in which they stand.
    ghost runs: { Self → List Run };

    // How many there are.
    fn count(self) -> u64
        ensures { result ≡ length (runs self) };

    // Run i of them.
    fn run(self, i: u64) -> Run
        requires { i < length (runs self) }
        ensures { result ≡ get_or (runs self) i (run 0 0) };
}

// Words: start and end of each run, in turn. A last word without its end is no run.
#[derive(Clone, Copy)]
pub struct Words<'a>(pub &'a [u64]);

impl<'a> RunList for Words<'a> {
    ghost runs = { λ l. pairs (length l.0.now / 2) l.0.now };

    #[tactic(auto, using(crate::proofs::Pairs::pairs_length))]
    fn count(self) -> u64 {
        (self.0.len() / 2) as u64
    }

    #[tactic(auto, using(crate::proofs::Pairs::pairs_length, crate::proofs::Pairs::pairs_at))]
    fn run(self, i: u64) -> Run {
        let at = (2 * i) as usize;
        Run {
            start: self.0[at],
            end: self.0[at + 1],
        }
    }
}

// Runs one after another.
impl<'a> RunList for &'a [Run] {
    ghost runs = { λ l. l.now };

    fn count(self) -> u64 {
        self.len() as u64
    }

    fn run(self, i: u64) -> Run {
        self[i as usize]
    }
}

// The runs of a list, one after another.
#[derive(Drop)]
pub struct Runs<L> {
    pub list: L,
    pub next: u64,
}

impl<L: RunList + Copy> Runs<L> {
    // Of which none is handed out yet.
    pub fn of(list: L) -> Runs<L>
        ensures { left L.runs result ≡ L.runs list }
    {
        Runs { list, next: 0 }
    }
}

impl<L: RunList + Copy> Iterator for Runs<L> {
    type Item = Run;

    ghost can_next = { λ s. ⊤ };

    ghost next_gives = { YieldsFirst (left L.runs) };

    ghost remaining = { item_count (left L.runs) };

    fn next(&mut self) -> Option<Run> {
        if self.next >= self.list.count() {
            return None;
        }
        let r = self.list.run(self.next);
        self.next += 1;
        Some(r)
    }
}

// Whether a run may follow one that ended at `last`, or be the first.
pub fn follows(last: Option<u64>, r: Run) -> bool
    ensures { result ≡ (leb (least_after last) r.start && leb r.start r.«end») }
{
    match last {
        None => r.start <= r.end,
        Some(last) => r.start <= r.end && last <= r.start && r.start - last >= 2,
    }
}

// Whether the runs of a list are in order. If they are, all of them were read, so all their ends are words.
pub fn in_order<L: RunList + Copy>(runs: L) -> bool
    ensures value { result ≡ ordered_from 0 (L.runs runs) }
    ensures words { result ≡ true → AllWords (L.runs runs) }
{
    let mut last = None;
    for i in 0..runs.count() {
        let r = runs.run(i);
        if !follows(last, r) {
            return false;
        }
        last = Some(r.end);
    }
    true
}
