// The shortest list of runs that makes a tree of a height, set one by one in that order into an empty world: how many there are, and writing them.
ghost use Rattle.std.specs.Prelude.{◌≡◌, ◌≤◌};
ghost use Rattle.model.specs.Deepest.{least, middles, deepest_words};
ghost use Rattle.model.specs.Bytes.{into_front};
ghost use Rattle.deepest.specs.Ranks.{Put, Puttable, Listable};

// How many runs the list for the height h has.
#[tactic(auto, using(crate::proofs::Ranks::least_by, crate::proofs::Ranks::least_low, crate::proofs::Ranks::least_most))]
pub fn least_runs(h: u64) -> u64
    requires { h ≤ 22 }
    ensures { result ≡ least h }
{
    let mut a: u64 = 0;
    let mut b: u64 = 1;
    for _ in 0..h {
        let c = a + b + 1;
        a = b;
        b = c;
    }
    a
}

// Writes the middle ranks after d partings of the ranks of a tree of height h from k on, each as a run, from `at` on, and returns where the next one
// goes. The two parts have a and b ranks.
// `at` is handed on: a part of the slice instead would have to be split at each step, and the parts' lengths counted.
#[tactic(auto, using(crate::proofs::Ranks::least_by, crate::proofs::Ranks::middles_one))]
fn put_middles(out: &mut [u64], at: usize, d: u64, h: u64, k: u64, a: u64, b: u64) -> usize
    requires { Puttable out.old at d h k a b }
    ensures { Put (middles d h k) at result out.old out.new }
{
    if h == 0 {
        return at;
    }
    let m = k + a;
    if d == 0 {
        out[at] = 2 * m;
        out[at + 1] = 2 * m;
        return at + 2;
    }
    if h == 1 {
        return at;
    }
    let c = a - b - 1;
    let next = put_middles(out, at, d - 1, h - 1, k, b, c);
    if h == 2 {
        return next;
    }
    put_middles(out, next, d - 1, h - 2, m + 1, c, b - c - 1)
}

// Writes the list for the height h, which has n runs, into the front of a slice that has room for it.
// n was counted by the caller, who tests that the slice has room for it; else it would be counted twice.
#[tactic(auto, using(crate::proofs::Ranks::least_by))]
pub fn put_deepest(out: &mut [u64], h: u64, n: u64)
    requires { Listable out.old h n }
    ensures { out.new ≡ into_front (deepest_words h) out.old }
{
    let a = least_runs(h - 1);
    let b = n - a - 1;
    let mut at: usize = 0;
    for d in 0..h {
        at = put_middles(out, at, d, h, 0, a, b);
    }
}
