// A reader: the runs of a set in logical order, one after the other, each a maximal run of held positions.
// The path has the nodes whose own run and right side are still to come, the nearest last; so each node is visited once.
// Under an offset o the logical positions o .. M are kept at 0 .. M - o, and those below o at the places above them: a reading from below o
// has a first part, up to physical M, and a last part, from physical 0 on.
ghost use Rattle.std.specs.Prelude.{◌≡◌, ℕ, List, [], None};
ghost use Rattle.std.specs.Iterator.{at_most};
ghost use Rattle.model.specs.declared.Run.{Run};
ghost use Rattle.model.specs.Positions.{Positions};
ghost use Rattle.pool.specs.Layout.{held_from};
ghost use Rattle.streams.specs.Reading.{Rooted, After, Reads, Draws, positions_from};
ghost use Rattle.streams.specs.Reading.{Descendable, Descends, OnPath, Pops, TellsZero, Stands, LastAt, FirstAt, Finds};

use arrayvec::ArrayVec;
use model::{Logical, Run};
use pool::Store;
use pool::places::{Physical, to_logical, to_physical};

// The greatest height of a tree, and so the most nodes of a path.
pub const HIGHEST: usize = Store::MAX_HEIGHT as usize;

// From where a set is read: the root of its tree, and the offset.
#[derive(Clone, Copy)]
pub struct View {
    pub root: u64,
    pub offset: u64,
}

impl View {
    // The logical position that is kept at physical 0, where the last part begins.
    fn seam(self) -> Logical
        ensures { result.0 ≡ self.offset }
    {
        to_logical(Physical(0), self.offset)
    }
}

// The nodes on the way, the nearest last; no tree is higher than there is room for. It has links, since nodes lie in lent words.
#[derive(Drop)]
pub struct Path {
    pub nodes: ArrayVec<u64, HIGHEST>,
}

impl Path {
    // Puts the nodes of the tree at a link on it, down to the first run that ends at p or later.
    fn descend(&mut self, words: &[u64], link: u64, p: Physical)
        requires { Descendable words.now self.old link }
        ensures { Descends words.now self.old link p.0 self.new }
    {
        let mut k = link;
        while k != 0 {
            let v = run_index::read_node(words, k);
            if v.end < p.0 {
                k = v.right;
            } else {
                self.nodes.push(k);
                k = v.left;
            }
        }
    }

    // Takes the nearest run off it, and puts the nodes before the next one on it.
    fn pop(&mut self, words: &[u64]) -> Option<Run>
        requires { (rs : List Run) × OnPath words.now self.old rs }
        ensures { Pops words.now self.old result self.new }
    {
        let v = run_index::read_node(words, self.nodes.pop()?);
        self.descend(words, v.right, Physical(0));
        Some(Run {
            start: v.start,
            end: v.end,
        })
    }

    // Whether the nearest run starts at physical 0.
    fn starts_at_zero(&self, words: &[u64]) -> bool
        requires { (rs : List Run) × OnPath words.now self.now rs }
        ensures { TellsZero words.now self.now result }
    {
        match self.nodes.as_slice().last() {
            None => false,
            Some(top) => run_index::read_node(words, *top).start == 0,
        }
    }
}

// The position after another, if there is one.
pub fn after(x: Logical) -> Option<Logical>
    ensures { After x.0 result }
{
    Some(Logical(x.0.checked_add(1)?))
}

// The set that is read, the path, and the position from which on it is still to be read, if any is left.
#[derive(Drop)]
pub struct Reader<'a> {
    pub words: &'a [u64],
    pub view: View,
    pub path: Path,
    pub from: Option<Logical>,
}

impl<'a> Reader<'a> {
    // One that has not begun.
    pub fn new(words: &'a [u64], view: View) -> Reader<'a>
        ensures words { result.words.now ≡ words.now }
        ensures view { result.view ≡ view }
        ensures bare { result.path.nodes.items ≡ [] }
        ensures unbegun { result.from ≡ None }
    {
        Reader {
            words,
            view,
            path: Path {
                nodes: ArrayVec::new(),
            },
            from: None,
        }
    }

    // Begins it at a logical position, where it lies: a reader that is handed out is copied, its path with it.
    pub fn begin(&mut self, from: Logical)
        requires rooted { Rooted self.old.words.now self.old.view.root }
        requires bare { self.old.path.nodes.items ≡ [] }
        ensures { Reads self.new «from».0 (held_from self.old.words.now self.old.view.root self.old.view.offset) }
    {
        let View { root, offset } = self.view;
        self.path
            .descend(self.words, root, to_physical(from, offset));
        self.from = Some(from);
    }

    // One that begins at a logical position.
    pub fn open(words: &'a [u64], view: View, from: Logical) -> Reader<'a>
        requires { Rooted words.now view.root }
        ensures { Reads result «from».0 (held_from words.now view.root view.offset) }
    {
        let mut reader = Reader::new(words, view);
        reader.begin(from);
        reader
    }

    // The next run, from the position on where the reader stands.
    fn find(&mut self, from: Logical) -> Option<Run>
        requires { (Q : Positions) × Stands self.old «from».0 Q }
        ensures { Finds Stands self.old «from».0 result self.new }
    {
        if from.0 < self.view.seam().0 {
            self.first(from)
        } else {
            self.last(from)
        }
    }

    // The next run of the last part, from a position in it on.
    fn last(&mut self, from: Logical) -> Option<Run>
        requires { (Q : Positions) × LastAt self.old «from».0 Q }
        ensures { Finds LastAt self.old «from».0 result self.new }
    {
        let r = self.path.pop(self.words)?;
        let offset = self.view.offset;
        let top = to_physical(Logical(u64::MAX), offset);
        if r.start > top.0 {
            return None;
        }
        let p = to_physical(from, offset);
        Some(Run {
            start: to_logical(Physical(r.start.max(p.0)), offset).0,
            end: to_logical(Physical(r.end.min(top.0)), offset).0,
        })
    }

    // The next run of the first part, from a position in it on; a run that reaches physical M goes on with the one at physical 0.
    fn first(&mut self, from: Logical) -> Option<Run>
        requires { (Q : Positions) × FirstAt self.old «from».0 Q }
        ensures { Finds FirstAt self.old «from».0 result self.new }
    {
        let View { root, offset } = self.view;
        let seam = self.view.seam();
        let Some(r) = self.path.pop(self.words) else {
            self.path.descend(self.words, root, Physical(0));
            return self.last(seam);
        };
        let p = to_physical(from, offset);
        let start = to_logical(Physical(r.start.max(p.0)), offset).0;
        if r.end < u64::MAX {
            return Some(Run {
                start,
                end: to_logical(Physical(r.end), offset).0,
            });
        }
        self.path.descend(self.words, root, Physical(0));
        let end = if self.path.starts_at_zero(self.words) {
            self.last(seam)?.end
        } else {
            to_logical(Physical(u64::MAX), offset).0
        };
        Some(Run { start, end })
    }
}

// The runs, one after the other. Each has a position of its own, so no more come than there are positions left.
impl<'a> Iterator for Reader<'a> {
    type Item = Run;

    ghost can_next = { λ r. (y : ℕ) × (Q : Positions) × Reads r y Q };

    ghost next_gives = { Draws Reads };

    ghost remaining = { λ r. at_most (positions_from r.from) };

    fn next(&mut self) -> Option<Run> {
        let from = self.from.take()?;
        let r = self.find(from)?;
        self.from = after(Logical(r.end));
        Some(r)
    }
}
