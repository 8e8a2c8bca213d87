// Giving a range of physical positions a value: runs grow, shrink, go and come. Whatever a run only loses or gains at an end changes
// in place, and no more nodes are used on the way than in the end. Where the tree and the free chain start is handed in and back.
// Words and links stay apart: an edit breaks what a struct of both would promise, and mends it only when it ends.
ghost use Rattle.std.specs.Prelude.{true, false, ◌≤◌, MatchOption};
ghost use Rattle.pool.specs.Free.{Sprouts};
ghost use Rattle.changes.specs.Change.{Settable, Sets, Reaching, Apart, Touching, Absorbable, Absorbs, Clearable, ClearsFrom};

use model::Run;
use pool::Links;
use pool::places::Physical;
use reports::physical::Segment;
use run_index::search::Runs;

// Gives the positions of s the value.
// The value is what the caller of a set asked for: closures for the two steps would be chosen by the same test, one call further up.
pub fn set_physical(words: &mut [u64], x: Links, s: Segment, value: bool) -> Links
    requires { Settable words.old x s.first.0 s.last.0 value }
    ensures { Sets words.old words.new x result s.first.0 s.last.0 value × Sprouts words.old words.new x.root result.root s.first.0 s.last.0 value }
{
    if value {
        raise(words, x, s)
    } else {
        clear(words, x, s)
    }
}

// Holds the positions of s: the runs that hold or touch them become one, which is the first of them grown, or a new one.
fn raise(words: &mut [u64], x: Links, s: Segment) -> Links
    requires { Settable words.old x s.first.0 s.last.0 true }
    ensures { Sets words.old words.new x result s.first.0 s.last.0 true × Sprouts words.old words.new x.root result.root s.first.0 s.last.0 true }
{
    let Some(r) = touching(&pool::runs_of(words, x), s) else {
        return pool::free::add_run(words, x, s.first.0, s.last.0);
    };
    if r.start <= s.first.0 && s.last.0 <= r.end {
        return x;
    }
    let grown = absorb(words, x, r, Physical(s.last.0.max(r.end)));
    pool::free::resize_run(
        words,
        grown.links,
        r.start,
        r.end,
        s.first.0.min(r.start),
        grown.end.0,
    );
    grown.links
}

// The first run that holds or touches a position of s.
fn touching(runs: &Runs<'_>, s: Segment) -> Option<Run>
    ensures { MatchOption result (Apart runs.now s.first.0 s.last.0) (Touching runs.now s.first.0 s.last.0) }
{
    match runs.at_or_before(s.first.0) {
        Some(r) if reaches(Physical(r.end), s.first) => Some(r),
        _ => runs
            .at_or_after(s.first.0)
            .filter(|r| reaches(s.last, Physical(r.start))),
    }
}

// Whether what reaches up to `end` holds x or touches it.
fn reaches(end: Physical, x: Physical) -> bool
    ensures { Reaching «end».0 x.0 result }
{
    x.0.saturating_sub(end.0) <= 1
}

// How far a run reaches that took others in, and the links after these went.
#[derive(Clone, Copy)]
pub struct Reach {
    pub links: Links,
    pub end: Physical,
}

// Removes the runs after r that touch what reaches up to e, one after another, and returns how far the last of them reaches. A run
// that reaches as far as e is the last one, since runs do not touch.
fn absorb(words: &mut [u64], x: Links, r: Run, e: Physical) -> Reach
    requires { Absorbable words.old x r.start r.«end» }
    ensures { Absorbs words.old words.new x r.start r.«end» e.0 result }
{
    let mut links = x;
    if e.0 <= r.end {
        return Reach { links, end: e };
    }
    while let Some(q) = pool::runs_of(words, links).at_or_after(r.start + 1)
        && reaches(e, Physical(q.start))
    {
        links = pool::free::remove_run(words, links, q.start);
        if e.0 <= q.end {
            return Reach {
                links,
                end: Physical(q.end),
            };
        }
    }
    Reach { links, end: e }
}

// Frees the positions of s: the run that goes on before s keeps its node, and so does one that goes on after it.
fn clear(words: &mut [u64], x: Links, s: Segment) -> Links
    requires { Settable words.old x s.first.0 s.last.0 false }
    ensures { Sets words.old words.new x result s.first.0 s.last.0 false }
{
    if let Some(r) = pool::runs_of(words, x).at_or_before(s.first.0)
        && r.start < s.first.0
        && s.first.0 <= r.end
    {
        pool::free::resize_run(words, x, r.start, r.end, r.start, s.first.0 - 1);
        if s.last.0 < r.end {
            return pool::free::add_run(words, x, s.last.0 + 1, r.end);
        }
        if s.last.0 - r.end <= 1 {
            return x;
        }
    }
    clear_from(words, x, s)
}

// Frees the positions of s, where no run goes on from before s. The run after one that goes starts two after its end at least, so none
// is looked for where that is past s.
fn clear_from(words: &mut [u64], x: Links, s: Segment) -> Links
    requires { Clearable words.old x s.first.0 }
    ensures { ClearsFrom words.old words.new x result s.first.0 s.last.0 }
{
    let mut links = x;
    while let Some(r) = pool::runs_of(words, links).at_or_after(s.first.0)
        && r.start <= s.last.0
    {
        if s.last.0 < r.end {
            pool::free::resize_run(words, links, r.start, r.end, s.last.0 + 1, r.end);
            return links;
        }
        links = pool::free::remove_run(words, links, r.start);
        if s.last.0 - r.end <= 1 {
            return links;
        }
    }
    links
}
