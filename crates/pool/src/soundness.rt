// Deciding whether words are a sound pool: one walk of each tree and one of the free chain, no memory but the stack.
// Each node is tested against the bounds that the nodes above it leave, so the runs rise in order and no node is met twice; a node has the
// number of its world, so no two trees meet; a free node has height 0 and a node of a tree has not, so the chain never meets a tree; and a
// chain of exactly the nodes that are left, ending in 0, meets each of them once.
// Words are asked for their length at each step (`Room`, `8 * 17 ≤ length`): they are any words, so no type could promise more. A node and its bounds
// stay apart: until the test has passed, nothing holds of the two together that a struct could keep.
ghost use Rattle.std.specs.Prelude.{◌≡◌, ◌+◌, ◌-◌, ◌*◌, ◌<◌, ◌≤◌, ◌^◌, ◌&&◌, length, nat_lt, ◌==◌, SomeIff};
ghost use Rattle.model.specs.Numbers.{most_worlds};
ghost use Rattle.run_index.specs.Cells.{Room};
ghost use Rattle.run_index.specs.Tree.{width};
ghost use Rattle.pool.specs.Layout.{capacity};
ghost use Rattle.pool.specs.Decision.{
  inside_b,
  below_of,
  within_b,
  run_b,
  heights_b,
  words_b,
  cell_b,
  leaf_b,
  side_b,
  free_b,
  along_of,
  chain_of,
  rest_of,
  world_b,
  header_b,
  unopened_b,
  sound_b,
  checked,
  Tells,
  TellsNode,
  place_of,
  runs_of,
};

use crate::layout::{NODES, Record};
use crate::{Set, Store, World, layout};
use run_index::Node;

// What the nodes above leave to a tree: the tag that its nodes are to have, and the first and the last position that its runs may hold.
#[derive(Clone, Copy)]
struct Bounds {
    tag: u64,
    low: u64,
    high: u64,
}

impl Bounds {
    // Whether the run of a node lies within the bounds.
    #[tactic(auto, using(std::proofs::lemmas::Bool::Decides::nat_tests), unfolding(crate::specs::Decision::within_b))]
    fn admits(self, v: Node) -> bool
        ensures { result ≡ within_b v.start v.«end» self.low (self.high + 1) }
    {
        self.low <= v.start && v.start <= v.end && v.end <= self.high
    }

    // What a node leaves to its left side: the runs there end two below its own, or lower. None if no position is that low.
    fn left_of(self, v: Node) -> Option<Bounds>
        ensures { SomeIff result (2 ≤ v.start) (record self { high = v.start - 2 }) }
    {
        Some(Bounds {
            high: v.start.checked_sub(2)?,
            ..self
        })
    }

    // What it leaves to its right side. None if no position is that high.
    // The mirror of `left_of`: the field, the step and its direction differ, and there is nothing else.
    fn right_of(self, v: Node) -> Option<Bounds>
        ensures { SomeIff result (v.«end» + 2 < 2 ^ 64) (record self { low = v.«end» + 2 }) }
    {
        Some(Bounds {
            low: v.end.checked_add(2)?,
            ..self
        })
    }
}

// Whether a link names a node, or none.
#[tactic(auto, using(std::proofs::lemmas::Bool::Decides::nat_tests), unfolding(crate::specs::Decision::inside_b))]
fn inside(words: &[u64], link: u64) -> bool
    ensures { result ≡ inside_b words.now link }
{
    (link as usize) < words.len() / 8
}

// The words of the node at a link, zeros where there is none.
// Zeros and no Option: they are the height and the sums of an empty tree, so that a missing side is tested as any other. Not one with
// `run_index::sums`: that tells of a tree that is known to be there, and here nothing is known yet but the words.
#[tactic(auto, using(std::proofs::lemmas::Bool::Decides::nat_tests), unfolding(crate::specs::Decision::below_of))]
fn below(words: &[u64], link: u64) -> Node
    requires { Room words.now link }
    ensures { result ≡ below_of words.now link }
{
    if link == 0 {
        return Node::default();
    }
    run_index::read_node(words, link)
}

// Whether a node has the tag that it is to have, and its run lies within the bounds.
#[tactic(auto, using(std::proofs::lemmas::Bool::Decides::nat_tests), unfolding(crate::specs::Decision::run_b))]
fn run_fits(v: Node, bounds: Bounds) -> bool
    ensures { result ≡ run_b v.start v.«end» v.tag bounds.tag bounds.low (bounds.high + 1) }
{
    v.tag == bounds.tag && bounds.admits(v)
}

// Whether h is one more than the greater of h1 and h2, which differ by at most 1: h - 1 less h1, and less h2, is 0 or 1, and so is the sum
// of the two. One test for the three, since which side is the higher cannot be guessed ahead.
fn heights_fit(h: u64, h1: u64, h2: u64) -> bool
    requires { 2 ≤ h }
    ensures { result ≡ heights_b h h1 h2 }
{
    let m = h - 1;
    let a = m.wrapping_sub(h1);
    let b = m.wrapping_sub(h2);
    let c = a.wrapping_add(b);
    (a | b | c) <= 1
}

// The tests of a node by itself, but for its height: its run against the bounds, its words for runs and ones against those of its two sides
// and its own run.
#[tactic(auto, using(std::proofs::lemmas::Bool::Decides::nat_tests), unfolding(crate::specs::Decision::run_b, crate::specs::Decision::within_b, crate::specs::Decision::words_b, crate::specs::Decision::sums_b))]
fn words_fit(v: Node, x: Node, y: Node, bounds: Bounds) -> bool
    ensures { result ≡ words_b v x y bounds.tag bounds.low (bounds.high + 1) }
{
    x.runs < v.runs
        && v.runs - x.runs - 1 == y.runs
        && run_fits(v, bounds)
        && v.ones
            == x.ones
                .wrapping_add(y.ones)
                .wrapping_add(run_index::wrapped_width(v.start, v.end))
}

// The same with its height.
#[tactic(auto, using(std::proofs::lemmas::Bool::Decides::nat_tests), unfolding(crate::specs::Decision::words_b, crate::specs::Decision::cell_b, crate::specs::Decision::agrees_b))]
fn node_fits(v: Node, x: Node, y: Node, bounds: Bounds) -> bool
    requires { 2 ≤ v.height }
    ensures { result ≡ cell_b v x y bounds.tag bounds.low (bounds.high + 1) }
{
    words_fit(v, x, y, bounds) && heights_fit(v.height, x.height, y.height)
}

// Whether a node fits the bounds as a leaf: its height is 1, and it has no links.
#[tactic(auto, using(std::proofs::lemmas::Bool::Decides::nat_tests), unfolding(crate::specs::Decision::within_b, crate::specs::Decision::leaf_b, crate::specs::Decision::run_b))]
fn leaf_fits(v: Node, bounds: Bounds) -> bool
    ensures { result ≡ (v.height == 1 && leaf_b v bounds.tag bounds.low (bounds.high + 1)) }
{
    bounds.admits(v)
        && v == Node {
            start: v.start,
            end: v.end,
            height: 1,
            runs: 1,
            ones: run_index::wrapped_width(v.start, v.end),
            tag: bounds.tag,
            ..Node::default()
        }
}

// The same of what hangs on a side of a node, where the node leaves it bounds.
fn side_fits(v: Node, bounds: Option<Bounds>) -> bool
    ensures { result ≡ side_b v bounds }
{
    bounds.is_some_and(|b| leaf_fits(v, b))
}

// Whether a tree hangs at a node of height 2: a leaf on either side, or on one, so its height needs no test. Each case is code of its own: a
// test of each side by itself takes a tenth longer.
fn twig_fits(words: &[u64], v: Node, bounds: Bounds) -> bool
    requires { v.height ≡ 2 }
    ensures { TellsNode words.now v bounds result }
{
    if v.left == 0 {
        if !inside(words, v.right) {
            return false;
        }
        let y = below(words, v.right);
        return words_fit(v, Node::default(), y, bounds) && side_fits(y, bounds.right_of(v));
    }
    if v.right == 0 {
        if !inside(words, v.left) {
            return false;
        }
        let x = below(words, v.left);
        return words_fit(v, x, Node::default(), bounds) && side_fits(x, bounds.left_of(v));
    }
    if !inside(words, v.left) || !inside(words, v.right) {
        return false;
    }
    let x = below(words, v.left);
    let y = below(words, v.right);
    words_fit(v, x, y, bounds)
        && side_fits(x, bounds.left_of(v))
        && side_fits(y, bounds.right_of(v))
}

// The same of a node of height 2 at most.
#[tactic(auto, using(crate::proofs::Steps::leaf_rules))]
fn low_fits(words: &[u64], v: Node, bounds: Bounds) -> bool
    requires { v.height ≤ 2 }
    ensures { TellsNode words.now v bounds result }
{
    if v.height == 2 {
        return twig_fits(words, v, bounds);
    }
    leaf_fits(v, bounds)
}

// Whether a tree hangs at a link, its nodes with the tag and its runs within low..=high. It goes down the right side, and calls itself on each
// left side. Most nodes are low, and those above have both links: so each case is code of its own, with no test of what is known there. The
// bounds come as three numbers, since a struct would be passed in memory, which takes a twentieth longer.
fn tree_fits(words: &[u64], link: u64, tag: u64, low: u64, high: u64) -> bool
    requires { Room words.now link }
    ensures { Tells words.now (record { tag = tag; low = low; high = high }) link result }
{
    let mut k = link;
    let mut left_over = Bounds { tag, low, high };
    while k != 0 {
        let v = below(words, k);
        if v.height <= 2 {
            return low_fits(words, v, left_over);
        }
        if v.left == 0 || v.right == 0 || !inside(words, v.left) || !inside(words, v.right) {
            return false;
        }
        let x = below(words, v.left);
        let y = below(words, v.right);
        if !node_fits(v, x, y, left_over) {
            return false;
        }
        let Some(before) = left_over.left_of(v) else {
            return false;
        };
        if !tree_fits(words, v.left, before.tag, before.low, before.high) {
            return false;
        }
        let Some(after) = left_over.right_of(v) else {
            return false;
        };
        left_over = after;
        k = v.right;
    }
    true
}

// Whether a link names a node. None is named by 0, and one less than that is more than any: so one test does for both ends.
#[tactic(auto, using(std::proofs::lemmas::Bool::Decides::nat_tests), unfolding(crate::specs::Decision::inside_b))]
fn names(words: &[u64], link: u64) -> bool
    ensures { result ≡ (nat_lt 0 link && inside_b words.now link) }
{
    link.wrapping_sub(1) < (words.len() as u64 / 8).saturating_sub(1)
}

// Whether a node is free: it is a node, and all its words but the link are 0.
#[tactic(auto, using(std::proofs::lemmas::Bool::Decides::nat_tests), unfolding(crate::specs::Decision::free_b, crate::specs::Decision::inside_b, crate::specs::Decision::zeros_b))]
fn node_is_free(words: &[u64], link: u64) -> bool
    ensures { result ≡ free_b words.now link }
{
    if !names(words, link) {
        return false;
    }
    let v = run_index::read_node(words, link);
    v == Node {
        left: v.left,
        ..Node::default()
    }
}

// Where n links from a node lead, or the first node on the way that is not free. It stops there and returns no None: nothing leads on from there,
// so a chain that breaks off does not fit; and with a None the loop takes a tenth more instructions.
#[tactic(auto, using(crate::proofs::Strides::along_rules))]
fn along(words: &[u64], link: u64, n: u64) -> u64
    ensures { result ≡ along_of n words.now link }
{
    let mut k = link;
    for _ in 0..n {
        if !node_is_free(words, k) {
            return k;
        }
        k = run_index::read_node(words, k).left;
    }
    k
}

// How worn the chain from `head` is, if exactly `count` links lead over free nodes to 0. It goes in strides of 64 links, looks at the last link
// of each, and counts those that lead back: to look at every link takes a quarter more instructions. A stride that gets no further ends it.
#[tactic(auto, using(std::proofs::lemmas::Bool::Decides::nat_tests, crate::proofs::Strides::following), unfolding(crate::specs::Decision::chain_of, crate::specs::Decision::chain_b, crate::specs::Decision::falls))]
fn chain_fits(words: &[u64], head: u64, count: u64) -> Option<u64>
    ensures { result ≡ chain_of count words.now head }
{
    if count == 0 {
        return if head == 0 { Some(0) } else { None };
    }
    let before = count - 1;
    let mut link = head;
    let mut back = 0;
    for _ in 0..before / 64 {
        let last = along(words, link, 63);
        link = along(words, last, 1);
        if link == last {
            return None;
        }
        back += u64::from(link < last);
    }
    let last = along(words, link, before % 64);
    if !node_is_free(words, last) || run_index::read_node(words, last).left != 0 {
        return None;
    }
    Some(back)
}

// Whether a tree hangs at the root of a world, and the world has its sums and its bounds; an empty one has offset 0. The sums come before the tree:
// where they are wrong, no tree is walked.
#[tactic(auto, using(std::proofs::lemmas::Bool::Decides::nat_tests, crate::proofs::Bounded::rooted), unfolding(crate::specs::Decision::world_b))]
fn world_fits(words: &[u64], h: World) -> bool
    requires { Room words.now 0 }
    ensures { result ≡ world_b words.now h }
{
    if !inside(words, h.root) {
        return false;
    }
    let v = below(words, h.root);
    if v.height > Store::MAX_HEIGHT
        || h.ones != v.ones
        || h.runs != v.runs
        || !tree_fits(words, h.root, h.tag, 0, u64::MAX)
    {
        return false;
    }
    let set = Set::of(words, h.root, h.offset);
    let first = crate::bounds::first_held(&set);
    let last = crate::bounds::last_held(&set);
    h.first == first.0 && h.last == last.0 && (h.root != 0 || h.offset == 0)
}

// How worn the free chain from `free` is, if of n nodes the trees have `runs`, and the others are that chain.
#[tactic(auto, using(std::proofs::lemmas::Bool::Decides::nat_tests), unfolding(crate::specs::Decision::rest_of, crate::specs::Decision::rest_b, crate::specs::Decision::chain_of))]
fn rest_fits(words: &[u64], n: u64, runs: u64, free: u64) -> Option<u64>
    ensures { result ≡ rest_of words.now n runs free }
{
    chain_fits(words, free, n.checked_sub(runs)?)
}

// Whether the header is one of 1 to 16 worlds.
#[tactic(auto, using(std::proofs::lemmas::Bool::Decides::nat_tests), unfolding(crate::specs::Decision::header_b))]
fn header_fits(words: &[u64]) -> bool
    requires { Room words.now 0 }
    ensures { result ≡ header_b words.now }
{
    let opened = layout::read_header(words).opened;
    1 <= opened && opened <= Store::MAX_WORLDS && layout::is_padded(words)
}

// What a world claims of the pool, and how many runs its tree has.
#[derive(Clone, Copy)]
struct Place {
    claim: u64,
    runs: u64,
}

// The place of world k, if its tree and its record fit and it keeps its limits. Its logical runs are counted once, for the ceiling and for
// its claim.
#[tactic(auto, using(std::proofs::lemmas::Bool::Decides::nat_tests, crate::proofs::Placed::placing), unfolding(crate::specs::Decision::place_of, crate::specs::Decision::place_b))]
fn place_at(words: &[u64], k: u64) -> Option<Place>
    requires in_bounds { 8 * 17 ≤ length words.now }
    requires k_lt_most_worlds { k < most_worlds }
    ensures { result ≡ place_of words.now k }
{
    let h = crate::read_world(words, k);
    let v = layout::read_record(words, k);
    let floor = v.floor;
    let ceiling = v.ceiling;
    if !world_fits(&words[NODES..], h) || floor > ceiling {
        return None;
    }
    let set = Set::of(&words[NODES..], h.root, h.offset);
    let n = crate::bounds::logical_runs(&set, h.runs);
    if n > ceiling {
        return None;
    }
    Some(Place {
        claim: n.max(floor),
        runs: h.runs,
    })
}

// How many runs the trees of the first n worlds have, if these fit and do not claim more than the capacity together.
fn runs_counted(words: &[u64], n: u64) -> Option<u64>
    requires bound { 1 ≤ capacity words.now }
    requires n_le_most_worlds { n ≤ most_worlds }
    ensures { result ≡ runs_of words.now n }
{
    let mut left = Store::of_length(words.len()).capacity;
    let mut runs = 0;
    for k in 0..n {
        let place = place_at(words, k)?;
        left = left.checked_sub(place.claim)?;
        runs += place.runs;
    }
    Some(runs)
}

// Whether the records of worlds n and above are zeros.
#[tactic(auto, using(std::proofs::lemmas::Bool::Decides::nat_tests, crate::proofs::Records::unopened_rules), unfolding(crate::specs::Decision::nothing_b))]
fn unopened_fit(words: &[u64], n: u64) -> bool
    requires in_bounds { 8 * 17 ≤ length words.now }
    requires n_le_most_worlds { n ≤ most_worlds }
    ensures { result ≡ unopened_b words.now n (most_worlds - n) }
{
    for k in n..Store::MAX_WORLDS {
        if layout::read_record(words, k) != Record::default() {
            return false;
        }
    }
    true
}

// How worn the free chain is, if words of a pool's length are a sound pool.
#[tactic(auto, using(std::proofs::lemmas::Bool::Decides::nat_tests, crate::proofs::Parts::lending), unfolding(crate::specs::Decision::header_b, crate::specs::Decision::checked, crate::specs::Decision::sound_b, crate::specs::Decision::runs_of, crate::specs::Decision::rest_of, crate::specs::Layout::worlds_of))]
pub fn check(words: &[u64]) -> Option<u64>
    requires { 1 ≤ capacity words.now }
    ensures { result ≡ checked words.now }
{
    let a = layout::read_header(words);
    if !header_fits(words) || !unopened_fit(words, a.opened) {
        return None;
    }
    let runs = runs_counted(words, a.opened)?;
    rest_fits(&words[NODES..], layout::node_count(words), runs, a.free)
}

// Whether words of a pool's length are a sound pool.
#[tactic(auto, unfolding(crate::specs::Decision::checked))]
pub fn is_sound(words: &[u64]) -> bool
    requires { 1 ≤ capacity words.now }
    ensures { result ≡ sound_b words.now }
{
    check(words).is_some()
}
