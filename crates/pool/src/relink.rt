// Putting the free list of a pool in order. The list of a pool that has lived leads through its nodes in the order in which runs died, so each
// hop of the soundness check jumps through memory and waits for the last; in the order in which the nodes lie, it does not. No answer, no position
// and no written byte depends on it.
ghost use Rattle.std.specs.Prelude.{◌≡◌, ◌+◌, ◌*◌, length};
ghost use Rattle.run_index.specs.Cells.{Room};
ghost use Rattle.pool.specs.Soundness.{Sound};
ghost use Rattle.pool.specs.Relink.{Threads, Threaded, Tidied, InOrder};

use crate::World;
use crate::layout::NODES;
use run_index::Node;

// Makes node k the first of the chain that goes on at `next`, if it is free, and returns the first one then. A free node has height 0, and a
// node of a tree has not.
#[tactic(auto, using(run_index::proofs::Trees::wrote_as))]
fn thread(nodes: &mut [u64], k: u64, next: u64) -> u64
    requires { Room nodes.old k }
    ensures { Threads nodes.old nodes.new k next result }
{
    let v = run_index::read_node(nodes, k);
    if v.height != 0 {
        return next;
    }
    run_index::write_node(nodes, k, Node::free(next));
    k
}

// Strings the free ones of n nodes together, in the order in which they lie, and returns the head of the chain.
#[tactic(auto, using(crate::proofs::Threading::threading_rules))]
fn thread_all(nodes: &mut [u64], n: u64) -> u64
    requires { length nodes.old ≡ 8 * (n + 1) }
    ensures { Threaded nodes.old nodes.new n result }
{
    let mut next = 0;
    for before in (0..n).rev() {
        next = thread(nodes, before + 1, next);
    }
    next
}

// Puts the free chain of a sound pool in order. It is a change of world 0 that leaves the world as it is.
pub fn relink(words: &mut [u64])
    requires { Sound words.old }
    ensures tidied { Tidied words.old words.new }
    ensures in_order { InOrder words.old words.new }
{
    let h = crate::open(words, 0);
    let n = crate::layout::node_count(words);
    let free = thread_all(&mut words[NODES..], n);
    crate::close(words, World { free, ..h });
}
