// What the benchmarks call. bench/soundness.rs: making a pool of one world, growing it by random sets, and deciding its soundness.
// host/src/bench/gaps.rs: searching for gaps many times after one soundness check. No part of the library; nothing depends on it.
// C lends the words anew for each call: so they come as a slice, a range as two numbers, and what holds of them is asked at each step.
#![tactic(auto)]

ghost use Rattle.std.specs.Prelude.{◌≡◌, ◌+◌, ◌≤◌, ◌==◌, true, not};
ghost use Rattle.model.specs.Positions.{set_range};
ghost use Rattle.model.specs.Range.{many};
ghost use Rattle.pool.specs.Layout.{capacity, held_by};
ghost use Rattle.pool.specs.Soundness.{Sound};
ghost use Rattle.bench_store.specs.Growing.{is_pool, Renewed, next_number, more_after, Tried, GrowsIf, has_gap, found_in};

use model::Logical;
use model::between::Interval;
use pool::Store;
use pool::layout::NODES;

// Makes the words a pool of one world, which is empty and may have all that the pool has. False where no pool has their length.
#[unsafe(no_mangle)]
#[tactic(auto, using(crate::proofs::Grown::makeable))]
pub extern "C" fn vizturel_bench_new(words: &mut [u64]) -> bool
    ensures told { result ≡ not (capacity words.old == 0) }
    ensures left { Renewed words.old words.new result }
{
    let s = Store::of_length(words.len());
    if s.capacity == 0 {
        return false;
    }
    let limits = [0u64, s.capacity];
    pool::free::make(words, &limits, 1);
    true
}

// Whether the words are a sound pool. False where no pool has their length.
#[unsafe(no_mangle)]
pub extern "C" fn vizturel_bench_is_sound(words: &[u64]) -> bool
    ensures { result ≡ is_pool words.now }
{
    Store::of_length(words.len()).capacity != 0 && pool::soundness::is_sound(words)
}

// The next number of a row that looks random (xorshift; 0 is followed by 0).
fn next_random(z: u64) -> u64
    ensures { result ≡ next_number z }
{
    let a = z ^ (z << 13);
    let b = a ^ (a >> 7);
    b ^ (b << 17)
}

// From 1 to 100 positions from `first` on, as many as the number z tells; `first` alone where they would go past the end.
fn some_from(first: u64, z: u64) -> Interval
    ensures first { result.first.0 ≡ first }
    ensures last { result.last.0 ≡ first + more_after first z }
{
    let more = if first > u64::MAX - 99 { 0 } else { z % 100 };
    Interval {
        first: Logical(first),
        last: Logical(first + more),
    }
}

// Sets a range of world 0 to true, and tells whether the capacity admits it.
fn put(words: &mut [u64], range: Interval) -> bool
    requires { Sound words.old }
    ensures { Tried words.old words.new (set_range range.first.0 (many range) true (held_by words.old 0)) result }
{
    let h = pool::open(words, 0);
    let limit = pool::allowance(words, 0);
    let Some(made) = changes::edit::set(&mut words[NODES..], h, limit, range, true) else {
        return false;
    };
    pool::close(words, made.world);
    true
}

// Makes so many random short sets in world 0 of a sound pool, and tells how many the capacity admitted. 0 where the words are no sound pool.
#[unsafe(no_mangle)]
pub extern "C" fn vizturel_bench_grow(words: &mut [u64], seed: u64, sets: u64) -> u64
    ensures { GrowsIf (is_pool words.old) words.old words.new seed sets result }
{
    if !vizturel_bench_is_sound(words) {
        return 0;
    }
    let mut z = seed;
    let mut admitted = 0;
    for _ in 0..sets {
        z = next_random(z);
        let first = z;
        z = next_random(z);
        admitted += u64::from(put(words, some_from(first, z)));
    }
    admitted
}

// Searches a range of world 0 for n neighbouring free positions, and tells whether there are any.
fn look_for(words: &[u64], range: Interval, n: u64) -> bool
    requires sound { Sound words.now }
    requires some { 1 ≤ n }
    ensures { result ≡ has_gap words.now range.first.0 (many range) n }
{
    let h = pool::open(words, 0);
    streams::gaps::lowest_gap(&words[NODES..], h, range, n).is_some()
}

// Makes one soundness check and then so many searches for a gap, and tells how many found one. 0 where the words are no sound pool, the
// range is reversed or n is 0.
#[unsafe(no_mangle)]
pub extern "C" fn vizturel_bench_gaps(
    words: &[u64],
    first: u64,
    last: u64,
    n: u64,
    searches: u64,
) -> u64
    ensures { result ≡ found_in words.now first last n searches }
{
    if !vizturel_bench_is_sound(words) {
        return 0;
    }
    if last < first {
        return 0;
    }
    if n < 1 {
        return 0;
    }
    let range = Interval {
        first: Logical(first),
        last: Logical(last),
    };
    let mut found = 0;
    for _ in 0..searches {
        found += u64::from(look_for(words, range, n));
    }
    found
}
