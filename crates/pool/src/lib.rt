// The store: a lent slice of words that is a pool of worlds, each of which holds a set of positions. Words 0 to 7 are the header, world k has its
// record in the words 8(1 + k) on, and node n of the run index the words 8(16 + n) on; the nodes that no world has form the free chain. Only
// `layout` knows where the words of the header and of the records lie: other code has a world by value, and the nodes.
#![tactic(auto)]

ghost use Rattle.std.specs.Prelude.{◌≡◌, ◌+◌, length};
ghost use Rattle.model.specs.Pools.{claim};
ghost use Rattle.run_index.specs.Cells.{Room};
ghost use Rattle.run_index.specs.Search.{Indexed, runs_from};
ghost use Rattle.pool.specs.Layout.{capacity_of, opened_at, world_at, plain_at, nodes, held, held_in, held_by, Headed, links_of, allowance};
ghost use Rattle.pool.specs.Soundness.{Planted, Sound, Stands};
ghost use Rattle.pool.specs.Settle.{Openable, Opened, Closable, Closes};

use layout::{BEYOND, CELL, Header, NODES, Record};
use run_index::search::Runs;

pub mod bounds;
pub mod free;
pub mod layout;
pub mod places;
pub mod refresh;
pub mod relink;
pub mod soundness;

// A store, as its length tells of it: the most logical runs that its worlds may hold together.
// A capacity of 0 and no Option: the calls that know their words to be a pool read the capacity too, and would have to answer something for none.
#[derive(Clone, Copy)]
pub struct Store {
    pub capacity: u64,
}

impl Store {
    pub const MAX_CAPACITY: u64 = 65536;

    pub const MAX_HEIGHT: u64 = 22;

    pub const MAX_WORLDS: u64 = 16;

    // The store that a slice of so many words is; its capacity is 0 if no store has that length.
    #[tactic(auto, using(std::proofs::lemmas::Bool::Decides::nat_tests))]
    pub fn of_length(words: usize) -> Store
        ensures { result.capacity ≡ capacity_of words }
    {
        let cells = words / CELL;
        let beyond = cells.saturating_sub(BEYOND) as u64;
        let fits = words % CELL == 0 && beyond <= Store::MAX_CAPACITY;
        Store {
            capacity: if fits { beyond } else { 0 },
        }
    }
}

// What is kept of a set beside its nodes: the tag that its nodes have, which is its world's number, the root of its tree, the head of the free
// chain, the offset, and what is told of the tree: held positions modulo 2^64, runs, and the first and the last logical position held, 0 if
// there is none.
// None is 0 here, since the record keeps these words as they are.
#[derive(Clone, Copy, Default)]
pub struct World {
    pub tag: u64,
    pub root: u64,
    pub free: u64,
    pub offset: u64,
    pub ones: u64,
    pub runs: u64,
    pub first: u64,
    pub last: u64,
}

// The part of it that says where nodes are.
#[derive(Clone, Copy)]
pub struct Links {
    pub tag: u64,
    pub root: u64,
    pub free: u64,
}

// A set that is read: the runs of its tree, which lie at physical positions, and the offset that moves them.
#[derive(Drop)]
pub struct Set<'a> {
    pub runs: Runs<'a>,
    pub offset: u64,
}

impl<'a> Set<'a> {
    // The set whose tree has this root among the nodes.
    pub fn of(nodes: &'a [u64], root: u64, offset: u64) -> Set<'a>
        requires { Indexed nodes.now root }
        ensures { result ≡ record { runs = runs_from nodes.now root; offset = «offset» } }
    {
        Set {
            runs: Runs { nodes, root },
            offset,
        }
    }
}

// The set of a world that stands in the nodes.
pub fn set_of<'a>(words: &'a [u64], h: World) -> Set<'a>
    requires { Stands words.now h }
    ensures is { result ≡ record { runs = runs_from words.now h.root; offset = h.«offset» } }
    ensures positions { held result ≡ held_in words.now h }
    ensures runs { h.runs ≡ length result.runs }
{
    Set::of(words, h.root, h.offset)
}

// The runs that links lead to, which lie at physical positions.
pub fn runs_of<'a>(words: &'a [u64], x: Links) -> Runs<'a>
    requires { Indexed words.now x.root }
    ensures { result ≡ runs_from words.now x.root }
{
    Runs {
        nodes: words,
        root: x.root,
    }
}

// No From: `into` would not say that what is told of the tree is left out.
pub fn links_of(h: World) -> Links
    ensures { result ≡ links_of h }
{
    Links {
        tag: h.tag,
        root: h.root,
        free: h.free,
    }
}

// How many worlds were opened.
pub fn opened(words: &[u64]) -> u64
    requires { Room words.now 0 }
    ensures { result ≡ opened_at words.now }
{
    layout::read_header(words).opened
}

// The world that record k tells.
pub fn read_world(words: &[u64], k: u64) -> World
    requires { Room words.now (k + 1) }
    ensures { result ≡ world_at words.now k }
{
    let a = layout::read_header(words);
    let v = layout::read_record(words, k);
    World {
        tag: k,
        root: v.root,
        free: a.free,
        offset: v.offset,
        ones: v.ones,
        runs: v.runs,
        first: v.first,
        last: v.last,
    }
}

// Sets the record of a world, but for its floor and its ceiling, and the head of the free chain, and no other word. The words that stay are
// written back as they were read, right before they are written: so no store of them is left in the compiled code.
fn write_world(words: &mut [u64], h: World)
    requires { Room words.old (h.tag + 1) }
    ensures { Headed words.old words.new h }
{
    let a = layout::read_header(words);
    layout::write_header(words, Header { free: h.free, ..a });
    let v = layout::read_record(words, h.tag);
    layout::write_record(
        words,
        h.tag,
        Record {
            root: h.root,
            offset: h.offset,
            ones: h.ones,
            runs: h.runs,
            first: h.first,
            last: h.last,
            ..v
        },
    );
}

// What world k claims of the pool: the larger of its runs and its floor.
#[tactic(auto, using(crate::proofs::Worlds::claiming))]
fn claim(words: &[u64], k: u64) -> u64
    requires room { Room words.now 16 }
    requires room_2 { Room words.now (k + 1) }
    requires planted { Planted (nodes words.now) (world_at words.now k) }
    ensures { result ≡ claim (plain_at words.now k) }
{
    let h = read_world(words, k);
    let v = layout::read_record(words, k);
    let set = Set::of(&words[NODES..], h.root, h.offset);
    let n = bounds::logical_runs(&set, h.runs);
    n.max(v.floor)
}

// The most runs that world k may have: no more than its ceiling, and than what the others leave of the capacity. Those before it and those after
// it are passed over apart: so the only world of a pool passes over none.
// Words and a world's number stay apart: C lends both anew for each call, and the same pool may be lent to be changed.
#[tactic(auto, using(crate::proofs::Worlds::leaving))]
pub fn allowance(words: &[u64], k: u64) -> u64
    requires { Openable words.now k }
    ensures { result ≡ allowance words.now k }
{
    let s = Store::of_length(words.len());
    let n = opened(words);
    let mut left = s.capacity;
    for i in 0..k {
        left -= claim(words, i);
    }
    for j in k + 1..n {
        left -= claim(words, j);
    }
    let ceiling = layout::read_record(words, k).ceiling;
    ceiling.min(left)
}

// World k of a sound pool.
pub fn open(words: &[u64], k: u64) -> World
    requires { Openable words.now k }
    ensures { Opened words.now k result }
{
    read_world(words, k)
}

// The set of world k of a sound pool.
#[tactic(auto, using(crate::proofs::Parts::lending))]
pub fn read_set<'a>(words: &'a [u64], k: u64) -> Set<'a>
    requires { Openable words.now k }
    ensures { held result ≡ held_by words.now k }
{
    let h = open(words, k);
    set_of(&words[NODES..], h)
}

// Makes a world that was opened, and changed, the pool's again.
pub fn close(words: &mut [u64], h: World)
    requires { Closable words.old h }
    ensures closes { Closes words.old words.new h }
    ensures headed { Headed words.old words.new h }
{
    write_world(words, h);
}
