// The nodes: which belong to a world's index and which are free. Making a pool, and adding, removing and resizing a run. Where the tree and
// the free chain start is handed in and back; no header is read or written on the way.
// n is how many nodes or worlds there are: without it each function would divide a length again, and say so in its contract.
ghost use Rattle.std.specs.Prelude.{◌≡◌, ◌+◌, ◌*◌, ◌≤◌, not, length};
ghost use Rattle.model.specs.Refusals.{bad_limits};
ghost use Rattle.model.specs.Pools.{limits_of};
ghost use Rattle.pool.specs.Free.{
  Chained,
  limits_or_none,
  empty_record,
  Recorded,
  Makeable,
  Emptied,
  Addable,
  Adds,
  Sprouted,
  Removable,
  RemovesRun,
  Changeable,
  Changes,
  Keepable,
  GivesBack,
};

use crate::layout::{Header, NODES, Record};
use crate::{Links, Store};
use model::Limits;
use run_index::Node;

// Makes each of n nodes free, in order, and returns the head of the chain.
#[tactic(auto, using(crate::proofs::Making::freeing))]
fn free_all(nodes: &mut [u64], n: u64) -> u64
    requires { length nodes.old ≡ 8 * (n + 1) }
    ensures { Chained nodes.old nodes.new n result }
{
    let mut next: u64 = 0;
    for before in (0..n).rev() {
        run_index::write_node(nodes, before + 1, Node::free(next));
        next = before + 1;
    }
    next
}

// The limits of world k, of n: 0 and 0 where there is no such world.
// No Option: the record of a world that is not opened has zeros in their place.
fn limits_at(limits: &[u64], n: u64, k: u64) -> Limits
    requires { 2 * n ≤ length limits.now }
    ensures { result ≡ limits_or_none limits.now n k }
{
    if k >= n {
        return Limits {
            floor: 0,
            ceiling: 0,
        };
    }
    let at = (2 * k) as usize;
    Limits {
        floor: limits[at],
        ceiling: limits[at + 1],
    }
}

// The record of an empty world with these limits.
// No From: limits do not tell that the world is empty, which the name does.
fn empty_record(l: Limits) -> Record
    ensures { result ≡ empty_record l }
{
    Record {
        floor: l.floor,
        ceiling: l.ceiling,
        ..Record::default()
    }
}

// Writes the records of n empty worlds, and zeros for those that are not opened.
fn make_records(words: &mut [u64], limits: &[u64], n: u64)
    requires in_bounds { 8 * 17 ≤ length words.old }
    requires n_in_bounds { 2 * n ≤ length limits.now }
    ensures { Recorded words.old words.new limits.now n }
{
    for k in 0..Store::MAX_WORLDS {
        let record = empty_record(limits_at(limits, n, k));
        crate::layout::write_record(words, k, record);
    }
}

// Says whether limits are fit to make a pool of capacity c: 1 to 16 worlds, no floor above its ceiling, and floors of at most c together.
#[tactic(auto, using(crate::proofs::Limiting::fitting))]
pub fn limits_fit(limits: &[u64], c: u64) -> bool
    ensures { result ≡ not (bad_limits c (limits_of limits.now)) }
{
    let n = (limits.len() / 2) as u64;
    if n == 0 || n > Store::MAX_WORLDS {
        return false;
    }
    let mut left = c;
    for k in 0..n {
        let l = limits_at(limits, n, k);
        if l.floor > l.ceiling || l.floor > left {
            return false;
        }
        left -= l.floor;
    }
    true
}

// Makes the words a pool of n empty worlds with these limits, whatever they were.
pub fn make(words: &mut [u64], limits: &[u64], n: u64)
    requires { Makeable words.old limits.now n }
    ensures { Emptied words.old words.new (limits_of limits.now) }
{
    let nodes = crate::layout::node_count(words);
    let free = free_all(&mut words[NODES..], nodes);
    crate::layout::make_header(words, Header { opened: n, free });
    make_records(words, limits, n);
}

// Puts the run start..=end, which touches no other, into the index, as the first free node.
// Start and end, and no `Run`: callers have a segment's ends, or one of them and an end of a run, and would build a run only to take it apart.
pub fn add_run(words: &mut [u64], x: Links, start: u64, end: u64) -> Links
    requires { Addable words.old x start «end» }
    ensures { Adds words.old words.new x result start «end» × Sprouted words.old words.new x.root result.root start «end» }
{
    let v = run_index::read_node(words, x.free);
    let root = run_index::insert(words, x.root, x.free, start, end, x.tag);
    Links {
        root,
        free: v.left,
        ..x
    }
}

// Takes the run that starts at `start` out of the index; its node becomes the first free one.
pub fn remove_run(words: &mut [u64], x: Links, start: u64) -> Links
    requires { Removable words.old x start }
    ensures { RemovesRun words.old words.new x result start }
{
    let y = run_index::remove(words, x.root, start, x.tag);
    run_index::write_node(words, y.freed, Node::free(x.free));
    Links {
        root: y.root,
        free: y.freed,
        ..x
    }
}

// Makes start..=end of the run k..=l. Every node stays where it is.
pub fn resize_run(words: &mut [u64], x: Links, k: u64, l: u64, start: u64, end: u64)
    requires { Changeable words.old x k l start «end» }
    ensures { Changes words.old words.new x k l start «end» }
{
    let more = (end - start).wrapping_sub(l - k);
    run_index::resize(words, x.root, k, start, end, more);
}

// Makes every node of the tree free.
#[tactic(auto, using(crate::proofs::Freeing::given_back))]
pub fn give_back(words: &mut [u64], x: Links) -> Links
    requires { Keepable words.old x }
    ensures { GivesBack words.old words.new x result }
{
    let free = run_index::chains::free_tree(words, x.root, x.free);
    Links { root: 0, free, ..x }
}
