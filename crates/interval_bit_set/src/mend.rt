// Mending a written set: its union is loaded into a world, and written, with a report of what became of each run. What the outcome needs is
// counted from the bytes alone, before anything is written.
// `right` is handed on, and not found out again where it is asked: that would read all runs a second time.
ghost use Rattle.std.specs.Prelude.{◌≡◌};
ghost use Rattle.model.specs.Positions.{stretches};
ghost use Rattle.model.specs.Bytes.{decode, into_front};
ghost use Rattle.model.specs.Mending.{mended_positions, mended_set, mend_report};
ghost use Rattle.union.specs.Mended.{Due};
ghost use Rattle.interval_bit_set.specs.Met.{Readable};
ghost use Rattle.interval_bit_set.specs.Out.{Mendable, Mends};

use crate::checked::Pool;
use codec::told::Told;
use model::{Mended, Refusal};
use pool::layout::NODES;

// How many runs the outcome has: a set that is right has its own.
fn outcome_runs(told: Told<'_>, right: bool) -> u64
    requires { Mendable told.bytes.now told.edition told.count right }
    ensures { result ≡ stretches (mended_positions told.entry.bytes.now) }
{
    if right {
        return told.count;
    }
    union::set::runs_of(told)
}

// Writes the outcome, of k runs, into the front of one slice, and the report into the front of another: a set that is right is copied.
fn put_outcome(told: Told<'_>, right: bool, k: u64, out: &mut [u8], report: &mut [u8])
    requires mendable { Mendable told.bytes.now told.edition told.count right }
    requires due { Due (decode told.bytes.now) k out.old report.old }
    ensures { (out.new ≡ into_front (mended_set told.entry.bytes.now) out.old) × (report.new ≡ into_front (mend_report told.entry.bytes.now) report.old) }
{
    if right {
        union::set::keep(told.bytes, told.count, out, report);
    } else {
        union::set::put_union(told, k, out, report);
    }
}

// Gives a world the union of the runs that bytes tell, in whatever order they stand.
fn put_mended(
    words: &mut [u64],
    world: u64,
    bytes: &[u8],
    out: &mut [u8],
    report: &mut [u8],
) -> Result<Mended, Refusal>
    requires { Readable words.old world }
    ensures { Mends words.old world bytes.now out.old report.old result
        words.new out.new report.new }
{
    let told = codec::set::shape_told(bytes)?;
    let right = run_lists::in_order(told);
    let k = outcome_runs(told, right);
    if k > pool::allowance(words, world) {
        return Err(Refusal::Capacity);
    }
    let due = codec::set::length_of(k) as usize;
    if out.len() < due {
        return Err(Refusal::OutputShort);
    }
    let notes = told.count as usize;
    if report.len() < notes {
        return Err(Refusal::OutputShort);
    }
    put_outcome(told, right, k, out, report);
    let outcome = Told {
        bytes: &out[..due],
        edition: told.edition,
        count: k,
    };
    let h = pool::open(words, world);
    let w = changes::overwrite::build(&mut words[NODES..], h, outcome);
    pool::close(words, w);
    Ok(Mended {
        bytes: due,
        report: notes,
    })
}

impl<'a> Pool<'a> {
    // Gives a world the union of the runs that bytes tell, in whatever order they stand, touching and overlapping; writes it as a set into the front of
    // one slice, and what became of each run into the front of another: 0 dropped, 1 joined, 2 kept. Tells how many bytes both have.
    pub fn mend(
        &mut self,
        world: u64,
        bytes: &[u8],
        out: &mut [u8],
        report: &mut [u8],
    ) -> Result<Mended, Refusal>
        ensures mends { Mends self.old.words.now world bytes.now out.old report.old result
            self.new.words.now out.new report.new }
        ensures same_loan { self.new.words.ghost_name ≡ self.old.words.ghost_name }
    {
        self.opened(world)?;
        put_mended(self.words, world, bytes, out, report)
    }
}

// Gives a world the union of the runs that bytes tell, in whatever order they stand, touching and overlapping; writes it as a set into the front of
// one slice, and what became of each run into the front of another: 0 dropped, 1 joined, 2 kept. Tells how many bytes both have.
pub fn mend(
    words: &mut [u64],
    world: u64,
    bytes: &[u8],
    out: &mut [u8],
    report: &mut [u8],
) -> Result<Mended, Refusal>
    ensures { Mends words.old world bytes.now out.old report.old result
        words.new out.new report.new }
{
    let worn = crate::checked::check(words)?;
    let mut pool = Pool { words };
    let answer = pool.mend(world, bytes, out, report);
    pool.end(worn, answer)
}
