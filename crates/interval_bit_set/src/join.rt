// The calls that make a world of others, and the comparison of two. What would be in the receiving world is counted before its first word
// changes.
ghost use Rattle.std.specs.Prelude.{◌≡◌};
ghost use Rattle.model.specs.Call.{Call};
ghost use Rattle.model.specs.Answers.{completed_answer, tested_answer};
ghost use Rattle.streams.specs.Feeds.{Sources, joined};
ghost use Rattle.interval_bit_set.specs.Look.{FindsView};
ghost use Rattle.interval_bit_set.specs.Met.{site, Readable, Met};
ghost use Rattle.interval_bit_set.specs.Joined.{Carried};

use crate::checked::{Pool, PoolRef};
use model::between::Interval;
use model::{Logical, Operation, Refusal};
use pool::layout::NODES;
use streams::feed::Feed;
use streams::source::View;

// Gives a world two feeds joined, if its allowance admits that.
// The operation and both feeds go on unchanged to `streams::feed::join`, which makes a `Joint` of them.
fn gathered<'a>(
    words: &mut [u64],
    world: u64,
    op: Operation,
    x: Feed<'a>,
    y: Feed<'a>,
) -> Result<(), Refusal>
    requires sources { Sources x y }
    requires readable { Readable words.old world }
    ensures { Carried words.old words.new world (joined op x.entry y.entry) result }
{
    if !streams::feed::fits(op, x, y, pool::allowance(words, world)) {
        return Err(Refusal::Capacity);
    }
    let h = pool::open(words, world);
    let k = changes::overwrite::gather(&mut words[NODES..], h, op, x, y);
    pool::close(words, k);
    Ok(())
}

impl<'a> PoolRef<'a> {
    // From where a world's set is read, in the nodes of its pool.
    fn view(self, world: u64) -> Result<View, Refusal>
        ensures { FindsView self.entry.words.now world result }
    {
        let h = self.open(world)?;
        Ok(View {
            root: h.root,
            offset: h.offset,
        })
    }

    // Whether two worlds hold the same positions: none is in just one of them.
    pub fn eq(self, i: u64, b: PoolRef<'_>, j: u64) -> Result<bool, Refusal>
        ensures { Met self.entry.words.now i (Call.equal (site b.entry.words.now j)) (tested_answer result) self.entry.words.now }
    {
        let x = self.view(i)?;
        let y = b.view(j)?;
        Ok(streams::feed::fits(
            Operation::Xor,
            Feed::Held(&self.words[NODES..], x),
            Feed::Held(&b.words[NODES..], y),
            0,
        ))
    }
}

impl<'a> Pool<'a> {
    // Joins two sets by AND, OR or XOR.
    pub fn combine(
        &mut self,
        world: u64,
        op: Operation,
        a: PoolRef<'_>,
        i: u64,
        b: PoolRef<'_>,
        j: u64,
    ) -> Result<(), Refusal>
        ensures met { Met self.old.words.now world (Call.combine op (site a.entry.words.now i) (site b.entry.words.now j))
            (completed_answer result) self.new.words.now }
        ensures same_loan { self.new.words.ghost_name ≡ self.old.words.ghost_name }
    {
        self.opened(world)?;
        let x = a.view(i)?;
        let y = b.view(j)?;
        gathered(
            self.words,
            world,
            op,
            Feed::Held(&a.words[NODES..], x),
            Feed::Held(&b.words[NODES..], y),
        )
    }

    // The complement over 0..=M: what is in just one of the set and all positions.
    pub fn not(&mut self, world: u64, a: PoolRef<'_>, i: u64) -> Result<(), Refusal>
        ensures met { Met self.old.words.now world (Call.complement (site a.entry.words.now i)) (completed_answer result) self.new.words.now }
        ensures same_loan { self.new.words.ghost_name ≡ self.old.words.ghost_name }
    {
        self.opened(world)?;
        let x = a.view(i)?;
        let all = Interval {
            first: Logical(0),
            last: Logical(u64::MAX),
        };
        gathered(
            self.words,
            world,
            Operation::Xor,
            Feed::Held(&a.words[NODES..], x),
            Feed::Only(all),
        )
    }

    // The set moved by the distance, up (left) or down: read under another offset, and what would come in from the other end cut off.
    // `left` chooses the offset and the range that is kept, and nothing else.
    pub fn shifted(
        &mut self,
        world: u64,
        distance: u64,
        left: bool,
        a: PoolRef<'_>,
        i: u64,
    ) -> Result<(), Refusal>
        ensures met { Met self.old.words.now world (Call.shifted distance left (site a.entry.words.now i)) (completed_answer result) self.new.words.now }
        ensures same_loan { self.new.words.ghost_name ≡ self.old.words.ghost_name }
    {
        self.opened(world)?;
        let v = a.view(i)?;
        let (moved, first, last) = if left {
            (v.offset.wrapping_add(distance), distance, u64::MAX)
        } else {
            (v.offset.wrapping_sub(distance), 0, u64::MAX - distance)
        };
        let kept = Interval {
            first: Logical(first),
            last: Logical(last),
        };
        let x = View { offset: moved, ..v };
        gathered(
            self.words,
            world,
            Operation::And,
            Feed::Held(&a.words[NODES..], x),
            Feed::Only(kept),
        )
    }
}

// Joins two sets by AND, OR or XOR.
pub fn combine(
    words: &mut [u64],
    world: u64,
    op: Operation,
    a: &[u64],
    i: u64,
    b: &[u64],
    j: u64,
) -> Result<(), Refusal>
    ensures { Met words.old world (Call.combine op (site a.now i) (site b.now j)) (completed_answer result) words.new }
{
    let worn = crate::checked::check_three(words, a, b)?;
    let mut pool = Pool { words };
    let x = PoolRef { words: a };
    let y = PoolRef { words: b };
    let answer = pool.combine(world, op, x, i, y, j);
    pool.end(worn, answer)
}

// The complement over 0..=M: what is in just one of the set and all positions.
pub fn not(words: &mut [u64], world: u64, a: &[u64], i: u64) -> Result<(), Refusal>
    ensures { Met words.old world (Call.complement (site a.now i)) (completed_answer result) words.new }
{
    let worn = crate::checked::check_two(words, a)?;
    let mut pool = Pool { words };
    let x = PoolRef { words: a };
    let answer = pool.not(world, x, i);
    pool.end(worn, answer)
}

// The set moved by the distance, up (left) or down: read under another offset, and what would come in from the other end cut off.
pub fn shifted(
    words: &mut [u64],
    world: u64,
    distance: u64,
    left: bool,
    a: &[u64],
    i: u64,
) -> Result<(), Refusal>
    ensures { Met words.old world (Call.shifted distance left (site a.now i)) (completed_answer result) words.new }
{
    let worn = crate::checked::check_two(words, a)?;
    let mut pool = Pool { words };
    let x = PoolRef { words: a };
    let answer = pool.shifted(world, distance, left, x, i);
    pool.end(worn, answer)
}

// Whether two worlds hold the same positions: none is in just one of them.
pub fn eq(a: &[u64], i: u64, b: &[u64], j: u64) -> Result<bool, Refusal>
    ensures { Met a.now i (Call.equal (site b.now j)) (tested_answer result) a.now }
{
    crate::checked::check_two(a, b)?;
    let x = PoolRef { words: a };
    let y = PoolRef { words: b };
    x.eq(i, y, j)
}
