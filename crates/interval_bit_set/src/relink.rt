// When the free list of a pool is put in order. The check sees on its way how worn the list is. A call that changes a world, and a frame, puts a
// worn list in order after its work is done: every refusal is decided by then.
ghost use Rattle.pool.specs.Soundness.{Sound};
ghost use Rattle.interval_bit_set.specs.Tidy.{Tidies};

// Puts the free list in order where the check found more links back than one for 2048 nodes. It looks at one link in 64, so that is one in 32 or so of all
// links, each of which comes of a node that was freed: the calls that wore the chain cost more.
pub fn tidy(words: &mut [u64], worn: u64)
    requires { Sound words.old }
    ensures { Tidies words.old words.new worn }
{
    if worn > (words.len() / 16384) as u64 {
        pool::relink::relink(words);
    }
}
