// The library as C sees it: every public call, on numbers and lent slices, each a pointer and a count. include/vizturel.h documents them.
// C calls each function by name: so calls of one shape are functions of their own, and bounds, an operation, an edition or a truth value come as
// numbers. What a call gives goes into a lent record of eight words, since structs that are returned or handed over cross otherwise on each machine.
// Written by tools/abi.py from abi/calls.toml.
#![tactic(auto)]

ghost use Rattle.std.specs.Prelude.{◌/◌, length};
ghost use Rattle.run_lists.specs.Listed.{pairs};
ghost use Rattle.model.specs.Call.{Call, Measure};
ghost use Rattle.model.specs.Pools.{limits_of};
ghost use Rattle.model.specs.Range.{range_by};
ghost use Rattle.model.specs.Bytes.{edition_by};
ghost use Rattle.model.specs.Clearing.{clear_map};
ghost use Rattle.model.specs.Converting.{convert};
ghost use Rattle.interval_bit_set.specs.Met.{site};
ghost use Rattle.interval_bit_set.specs.Lent.{listing_of};
ghost use Rattle.model.specs.Positions.{operation_of};
ghost use Rattle.flat.specs.Flat.{truth};
ghost use Rattle.exports.specs.Returns.{Completes, Frames, Handed, Makes, Measures, MendsFlat, Returns, Writes, rect_of};

use model::between::Range;
use model::{Edition, Listing, Operation, Rect};

// Makes a pool: a world, which is empty, for each floor and ceiling of the limits, in turn.
#[unsafe(no_mangle)]
pub extern "C" fn vizturel_abi_new(words: &mut [u64], limits: &[u64]) -> u64
    ensures { Makes words.old (limits_of limits.now) result words.new }
{
    let given = interval_bit_set::make::new(words, limits);
    flat::code(given)
}

// Gives a range the value, and tells how many positions changed.
#[unsafe(no_mangle)]
pub extern "C" fn vizturel_abi_set(
    words: &mut [u64],
    world: u64,
    lower_kind: u64,
    lower: u64,
    upper_kind: u64,
    upper: u64,
    value: u64,
    answer: &mut [u64; 8],
) -> u64
    ensures { let range = range_by lower_kind lower upper_kind upper in Returns words.old world (Call.set range.lower range.upper (truth value)) answer.old result answer.new words.new }
{
    let Range { lower, upper } = flat::range(lower_kind, lower, upper_kind, upper);
    let given = interval_bit_set::change::set(words, world, lower, upper, value != 0);
    flat::record(given, answer)
}

// Inverts a range.
#[unsafe(no_mangle)]
pub extern "C" fn vizturel_abi_flip(
    words: &mut [u64],
    world: u64,
    lower_kind: u64,
    lower: u64,
    upper_kind: u64,
    upper: u64,
) -> u64
    ensures { let range = range_by lower_kind lower upper_kind upper in Completes words.old world (Call.flip range.lower range.upper) result words.new }
{
    let Range { lower, upper } = flat::range(lower_kind, lower, upper_kind, upper);
    let given = interval_bit_set::change::flip(words, world, lower, upper);
    flat::code(given)
}

// Gives a range the value as `set` does, and refuses a reversed one.
#[unsafe(no_mangle)]
pub extern "C" fn vizturel_abi_set_strict(
    words: &mut [u64],
    world: u64,
    lower_kind: u64,
    lower: u64,
    upper_kind: u64,
    upper: u64,
    value: u64,
    answer: &mut [u64; 8],
) -> u64
    ensures { let range = range_by lower_kind lower upper_kind upper in Returns words.old world (Call.set_strict range.lower range.upper (truth value)) answer.old result answer.new words.new }
{
    let Range { lower, upper } = flat::range(lower_kind, lower, upper_kind, upper);
    let given = interval_bit_set::change::set_strict(words, world, lower, upper, value != 0);
    flat::record(given, answer)
}

// Inverts a range as `flip` does, and refuses a reversed one.
#[unsafe(no_mangle)]
pub extern "C" fn vizturel_abi_flip_strict(
    words: &mut [u64],
    world: u64,
    lower_kind: u64,
    lower: u64,
    upper_kind: u64,
    upper: u64,
) -> u64
    ensures { let range = range_by lower_kind lower upper_kind upper in Completes words.old world (Call.flip_strict range.lower range.upper) result words.new }
{
    let Range { lower, upper } = flat::range(lower_kind, lower, upper_kind, upper);
    let given = interval_bit_set::change::flip_strict(words, world, lower, upper);
    flat::code(given)
}

// Gives the cells of a rectangle the value, and tells how many changed.
#[unsafe(no_mangle)]
pub extern "C" fn vizturel_abi_set_rect(
    words: &mut [u64],
    world: u64,
    top: u64,
    left: u64,
    bottom: u64,
    right: u64,
    value: u64,
    answer: &mut [u64; 8],
) -> u64
    ensures { Returns words.old world (Call.set_rect (rect_of top left bottom right) (truth value)) answer.old result answer.new words.new }
{
    let rect = Rect {
        top,
        left,
        bottom,
        right,
    };
    let given = interval_bit_set::cells::set_rect(words, world, rect, value != 0);
    flat::record(given, answer)
}

// Moves every position by the distance: up (left) where `left` is not 0, else down.
#[unsafe(no_mangle)]
pub extern "C" fn vizturel_abi_shift(words: &mut [u64], world: u64, distance: u64, left: u64) -> u64
    ensures { Completes words.old world (Call.shift distance (truth left)) result words.new }
{
    let given = interval_bit_set::change::shift(words, world, distance, left != 0);
    flat::code(given)
}

// The value of a position.
#[unsafe(no_mangle)]
pub extern "C" fn vizturel_abi_get(words: &[u64], world: u64, x: u64, answer: &mut [u64; 8]) -> u64
    ensures { Returns words.now world (Call.get x) answer.old result answer.new words.now }
{
    let given = interval_bit_set::report::get(words, world, x);
    flat::record(given, answer)
}

// The unclipped run around a position.
#[unsafe(no_mangle)]
pub extern "C" fn vizturel_abi_run_at(
    words: &[u64],
    world: u64,
    x: u64,
    answer: &mut [u64; 8],
) -> u64
    ensures { Returns words.now world (Call.run_at x) answer.old result answer.new words.now }
{
    let given = interval_bit_set::report::run_at(words, world, x);
    flat::record(given, answer)
}

// The least position of the value in a range.
#[unsafe(no_mangle)]
pub extern "C" fn vizturel_abi_find(
    words: &[u64],
    world: u64,
    lower_kind: u64,
    lower: u64,
    upper_kind: u64,
    upper: u64,
    value: u64,
    answer: &mut [u64; 8],
) -> u64
    ensures { let range = range_by lower_kind lower upper_kind upper in Returns words.now world (Call.find range.lower range.upper (truth value)) answer.old result answer.new words.now }
{
    let Range { lower, upper } = flat::range(lower_kind, lower, upper_kind, upper);
    let given = interval_bit_set::report::find(words, world, lower, upper, value != 0);
    flat::record(given, answer)
}

// How many positions of a range have the value, and in how many runs.
#[unsafe(no_mangle)]
pub extern "C" fn vizturel_abi_tally(
    words: &[u64],
    world: u64,
    lower_kind: u64,
    lower: u64,
    upper_kind: u64,
    upper: u64,
    value: u64,
    answer: &mut [u64; 8],
) -> u64
    ensures { let range = range_by lower_kind lower upper_kind upper in Returns words.now world (Call.tally range.lower range.upper (truth value)) answer.old result answer.new words.now }
{
    let Range { lower, upper } = flat::range(lower_kind, lower, upper_kind, upper);
    let given = interval_bit_set::report::tally(words, world, lower, upper, value != 0);
    flat::record(given, answer)
}

// The tally of a range as `tally` gives it, and a reversed one is refused.
#[unsafe(no_mangle)]
pub extern "C" fn vizturel_abi_tally_strict(
    words: &[u64],
    world: u64,
    lower_kind: u64,
    lower: u64,
    upper_kind: u64,
    upper: u64,
    value: u64,
    answer: &mut [u64; 8],
) -> u64
    ensures { let range = range_by lower_kind lower upper_kind upper in Returns words.now world (Call.tally_strict range.lower range.upper (truth value)) answer.old result answer.new words.now }
{
    let Range { lower, upper } = flat::range(lower_kind, lower, upper_kind, upper);
    let given = interval_bit_set::report::tally_strict(words, world, lower, upper, value != 0);
    flat::record(given, answer)
}

// The position of a range that has the value and exactly k such positions before it.
#[unsafe(no_mangle)]
pub extern "C" fn vizturel_abi_select(
    words: &[u64],
    world: u64,
    lower_kind: u64,
    lower: u64,
    upper_kind: u64,
    upper: u64,
    value: u64,
    k: u64,
    answer: &mut [u64; 8],
) -> u64
    ensures { let range = range_by lower_kind lower upper_kind upper in Returns words.now world (Call.select range.lower range.upper (truth value) k) answer.old result answer.new words.now }
{
    let Range { lower, upper } = flat::range(lower_kind, lower, upper_kind, upper);
    let given = interval_bit_set::report::select(words, world, lower, upper, value != 0, k);
    flat::record(given, answer)
}

// A listing of the runs of the value in a range.
#[unsafe(no_mangle)]
pub extern "C" fn vizturel_abi_ranges(
    words: &[u64],
    world: u64,
    lower_kind: u64,
    lower: u64,
    upper_kind: u64,
    upper: u64,
    value: u64,
    answer: &mut [u64; 8],
) -> u64
    ensures { let range = range_by lower_kind lower upper_kind upper in Returns words.now world (Call.ranges range.lower range.upper (truth value)) answer.old result answer.new words.now }
{
    let Range { lower, upper } = flat::range(lower_kind, lower, upper_kind, upper);
    let given = interval_bit_set::report::ranges(words, world, lower, upper, value != 0);
    flat::record(given, answer)
}

// Draws the first run that is left in a listing.
#[unsafe(no_mangle)]
pub extern "C" fn vizturel_abi_draw_front(
    words: &[u64],
    world: u64,
    first: u64,
    last: u64,
    value: u64,
    answer: &mut [u64; 8],
) -> u64
    ensures { Returns words.now world (Call.draw_front (listing_of first last (truth value))) answer.old result answer.new words.now }
{
    let listing = Listing {
        first,
        last,
        value: value != 0,
    };
    let given = interval_bit_set::report::draw_front(words, world, listing);
    flat::record(given, answer)
}

// Draws the last run that is left in a listing.
#[unsafe(no_mangle)]
pub extern "C" fn vizturel_abi_draw_back(
    words: &[u64],
    world: u64,
    first: u64,
    last: u64,
    value: u64,
    answer: &mut [u64; 8],
) -> u64
    ensures { Returns words.now world (Call.draw_back (listing_of first last (truth value))) answer.old result answer.new words.now }
{
    let listing = Listing {
        first,
        last,
        value: value != 0,
    };
    let given = interval_bit_set::report::draw_back(words, world, listing);
    flat::record(given, answer)
}

// The lowest start of n neighbouring positions of a range that are all free.
#[unsafe(no_mangle)]
pub extern "C" fn vizturel_abi_gap(
    words: &[u64],
    world: u64,
    lower_kind: u64,
    lower: u64,
    upper_kind: u64,
    upper: u64,
    n: u64,
    answer: &mut [u64; 8],
) -> u64
    ensures { let range = range_by lower_kind lower upper_kind upper in Returns words.now world (Call.gap range.lower range.upper n) answer.old result answer.new words.now }
{
    let Range { lower, upper } = flat::range(lower_kind, lower, upper_kind, upper);
    let given = interval_bit_set::report::gap(words, world, lower, upper, n);
    flat::record(given, answer)
}

// How full a window is, in thousandths, rounded up.
#[unsafe(no_mangle)]
pub extern "C" fn vizturel_abi_fill(
    words: &[u64],
    world: u64,
    base: u64,
    length: u64,
    answer: &mut [u64; 8],
) -> u64
    ensures { Returns words.now world (Call.fill base length) answer.old result answer.new words.now }
{
    let given = interval_bit_set::report::fill(words, world, base, length);
    flat::record(given, answer)
}

// How many cells of a rectangle are held.
#[unsafe(no_mangle)]
pub extern "C" fn vizturel_abi_count_rect(
    words: &[u64],
    world: u64,
    top: u64,
    left: u64,
    bottom: u64,
    right: u64,
    answer: &mut [u64; 8],
) -> u64
    ensures { Returns words.now world (Call.count_rect (rect_of top left bottom right)) answer.old result answer.new words.now }
{
    let rect = Rect {
        top,
        left,
        bottom,
        right,
    };
    let given = interval_bit_set::cells::count_rect(words, world, rect);
    flat::record(given, answer)
}

// Writes the pieces of a square of side 2^k into the front of a slice, five words each, and tells how many words they are.
#[unsafe(no_mangle)]
pub extern "C" fn vizturel_abi_survey(
    words: &[u64],
    world: u64,
    row: u64,
    column: u64,
    k: u64,
    out: &mut [u64],
    answer: &mut [u64; 8],
) -> u64
    ensures { Writes words.now world (Call.survey row column k) out.old answer.old result answer.new out.new }
{
    let given = interval_bit_set::cells::survey(words, world, row, column, k, out);
    flat::record(given, answer)
}

// Whether two worlds hold the same positions.
#[unsafe(no_mangle)]
pub extern "C" fn vizturel_abi_eq(
    words: &[u64],
    world: u64,
    b: &[u64],
    b_world: u64,
    answer: &mut [u64; 8],
) -> u64
    ensures { Returns words.now world (Call.equal (site b.now b_world)) answer.old result answer.new words.now }
{
    let given = interval_bit_set::join::eq(words, world, b, b_world);
    flat::record(given, answer)
}

// Joins two sets: op 0 is AND, 1 OR, any other XOR.
#[unsafe(no_mangle)]
pub extern "C" fn vizturel_abi_combine(
    words: &mut [u64],
    world: u64,
    op: u64,
    a: &[u64],
    a_world: u64,
    b: &[u64],
    b_world: u64,
) -> u64
    ensures { Completes words.old world (Call.combine (operation_of op) (site a.now a_world) (site b.now b_world)) result words.new }
{
    let op = Operation::from(op);
    let given = interval_bit_set::join::combine(words, world, op, a, a_world, b, b_world);
    flat::code(given)
}

// The complement of a set.
#[unsafe(no_mangle)]
pub extern "C" fn vizturel_abi_not(words: &mut [u64], world: u64, a: &[u64], a_world: u64) -> u64
    ensures { Completes words.old world (Call.complement (site a.now a_world)) result words.new }
{
    let given = interval_bit_set::join::not(words, world, a, a_world);
    flat::code(given)
}

// The set moved by the distance, up (left) where `left` is not 0, else down.
#[unsafe(no_mangle)]
pub extern "C" fn vizturel_abi_shifted(
    words: &mut [u64],
    world: u64,
    distance: u64,
    left: u64,
    a: &[u64],
    a_world: u64,
) -> u64
    ensures { Completes words.old world (Call.shifted distance (truth left) (site a.now a_world)) result words.new }
{
    let given = interval_bit_set::join::shifted(words, world, distance, left != 0, a, a_world);
    flat::code(given)
}

// Gives a world the set that bytes tell.
#[unsafe(no_mangle)]
pub extern "C" fn vizturel_abi_load(words: &mut [u64], world: u64, bytes: &[u8]) -> u64
    ensures { Completes words.old world (Call.load bytes.now) result words.new }
{
    let given = interval_bit_set::bytes::load(words, world, bytes);
    flat::code(given)
}

// Gives a world the union of the runs that bytes tell, in whatever order they stand, touching and overlapping; writes it as a set into the front of
// one slice, and what became of each run into the front of another: 0 dropped, 1 joined, 2 kept. Tells how many bytes both have.
#[unsafe(no_mangle)]
pub extern "C" fn vizturel_abi_mend(
    words: &mut [u64],
    world: u64,
    bytes: &[u8],
    out: &mut [u8],
    report: &mut [u8],
    answer: &mut [u64; 8],
) -> u64
    ensures { MendsFlat words.old world bytes.now out.old report.old answer.old result answer.new out.new report.new words.new }
{
    let given = interval_bit_set::mend::mend(words, world, bytes, out, report);
    flat::record(given, answer)
}

// Gives a world the set of a run list: start and end of each run, in turn.
#[unsafe(no_mangle)]
pub extern "C" fn vizturel_abi_build(words: &mut [u64], world: u64, runs: &[u64]) -> u64
    ensures { Completes words.old world (Call.build (pairs (length runs.now / 2) runs.now)) result words.new }
{
    let given = interval_bit_set::bytes::from_sorted_words(words, world, runs);
    flat::code(given)
}

// Writes a world's set into the front of a slice, and tells how many bytes it has. Edition 2 is written by columns; any other number stands for
// edition 1.
#[unsafe(no_mangle)]
pub extern "C" fn vizturel_abi_write(
    words: &[u64],
    world: u64,
    edition: u64,
    out: &mut [u8],
    answer: &mut [u64; 8],
) -> u64
    ensures { Writes words.now world (Call.write_set (edition_by edition)) out.old answer.old result answer.new out.new }
{
    let edition = Edition::from(edition);
    let given = interval_bit_set::write::write_set(words, world, edition, out);
    flat::record(given, answer)
}

// Turns a written set of either edition into the other, in the front of a slice, and tells how many bytes it has. It takes no pool.
#[unsafe(no_mangle)]
pub extern "C" fn vizturel_abi_convert(bytes: &[u8], out: &mut [u8], answer: &mut [u64; 8]) -> u64
    ensures { Handed (convert bytes.now out.old) answer.old result answer.new out.new }
{
    let given = interval_bit_set::bytes::convert(bytes, out);
    flat::record(given, answer)
}

// Writes the map of a window into the front of a slice, and tells how many bytes it has.
#[unsafe(no_mangle)]
pub extern "C" fn vizturel_abi_write_map(
    words: &[u64],
    world: u64,
    base: u64,
    length: u64,
    out: &mut [u8],
    answer: &mut [u64; 8],
) -> u64
    ensures { Writes words.now world (Call.write_map base length) out.old answer.old result answer.new out.new }
{
    let given = interval_bit_set::write::write_map(words, world, base, length, out);
    flat::record(given, answer)
}

// The same by single bytes.
#[unsafe(no_mangle)]
pub extern "C" fn vizturel_abi_write_map_by_bytes(
    words: &[u64],
    world: u64,
    base: u64,
    length: u64,
    out: &mut [u8],
    answer: &mut [u64; 8],
) -> u64
    ensures { Writes words.now world (Call.write_map base length) out.old answer.old result answer.new out.new }
{
    let given = interval_bit_set::write::write_map_by_bytes(words, world, base, length, out);
    flat::record(given, answer)
}

// Sets a window from a map, and tells how many positions changed.
#[unsafe(no_mangle)]
pub extern "C" fn vizturel_abi_read_map(
    words: &mut [u64],
    world: u64,
    base: u64,
    length: u64,
    bytes: &[u8],
    answer: &mut [u64; 8],
) -> u64
    ensures { Returns words.old world (Call.read_map base length bytes.now) answer.old result answer.new words.new }
{
    let given = interval_bit_set::bytes::read_map(words, world, base, length, bytes);
    flat::record(given, answer)
}

// The same by single bytes.
#[unsafe(no_mangle)]
pub extern "C" fn vizturel_abi_read_map_by_bytes(
    words: &mut [u64],
    world: u64,
    base: u64,
    length: u64,
    bytes: &[u8],
    answer: &mut [u64; 8],
) -> u64
    ensures { Returns words.old world (Call.read_map base length bytes.now) answer.old result answer.new words.new }
{
    let given = interval_bit_set::bytes::read_map_by_bytes(words, world, base, length, bytes);
    flat::record(given, answer)
}

// Zeroes the spare bits of a window's map, and tells how many were one. It takes no pool.
#[unsafe(no_mangle)]
pub extern "C" fn vizturel_abi_clear_map(
    base: u64,
    length: u64,
    map: &mut [u8],
    answer: &mut [u64; 8],
) -> u64
    ensures { Handed (clear_map base length map.old) answer.old result answer.new map.new }
{
    let given = interval_bit_set::bytes::clear_map(base, length, map);
    flat::record(given, answer)
}

// Writes the shortest list of runs that makes a tree of the height h, set one by one in that order into an empty world, into the front of a slice:
// start and end of each run, in turn. Tells how many words it has. The pool is only measured, and need not be sound.
#[unsafe(no_mangle)]
pub extern "C" fn vizturel_abi_deepest(
    words: &[u64],
    h: u64,
    out: &mut [u64],
    answer: &mut [u64; 8],
) -> u64
    ensures { Measures words.now (Measure.deepest h) out.old answer.old result answer.new out.new }
{
    let given = interval_bit_set::measure::deepest(words, h, out);
    flat::record(given, answer)
}

// Writes why a list of ranges, set to true one by one from an empty store of one world, is refused into the front of a slice: the places, rising, of
// the smallest sublist that is still refused. Tells how many they are. The pool is only measured, and need not be sound.
#[unsafe(no_mangle)]
pub extern "C" fn vizturel_abi_why_full(
    words: &[u64],
    ranges: &[u64],
    out: &mut [u64],
    answer: &mut [u64; 8],
) -> u64
    ensures { Measures words.now (Measure.why_full ranges.now) out.old answer.old result answer.new out.new }
{
    let given = interval_bit_set::measure::why_full(words, ranges, out);
    flat::record(given, answer)
}

// Serves a list of calls, each a record of eight words, after one look at the pool, and writes a record of eight words for each answer.
#[unsafe(no_mangle)]
pub extern "C" fn vizturel_abi_frame(words: &mut [u64], calls: &[u64], answers: &mut [u64]) -> u64
    ensures { Frames words.old calls.now answers.old result answers.new words.new }
{
    let given = frame::frame(words, calls, answers);
    flat::code(given)
}
