// Prints the written set, of either edition, that standard input holds: how many runs, how many positions held, and each run. It is read into
// the only world of a pool of capacity 950, with floor 0 and ceiling 950. The whole text is put together before a byte of it is written.
#![tactic(auto)]

ghost use Rattle.std.specs.Prelude.{◌≡◌, ◌+◌, ◌^◌, ◌<◌, ◌≤◌, ◌++◌, ◌∷◌, [], true, length, take, drop, IsOk, IfOk, IfSome, MatchOption};
ghost use Rattle.std.specs.Io.KnownBytes.{Consumes, IsAtEnd};
ghost use Rattle.model.specs.Numbers.{size, worth, refusal_number};
ghost use Rattle.model.specs.Positions.{held_runs, remaining};
ghost use Rattle.pool.specs.Layout.{held_by};
ghost use Rattle.pool.specs.Settle.{Openable};
ghost use Rattle.reports.specs.Reports.{Measured};
ghost use Rattle.listset.specs.Text.{decimal, run_line, run_lines, refused_line, count_lines, set_lines, printed};
ghost use Rattle.listset.specs.Put.{Puts};
ghost use Rattle.listset.specs.Shown.{Shows, Lists};

use arrayvec::{ArrayString, CapacityError};
use interval_bit_set::checked::PoolRef;
use interval_bit_set::{bytes, make};
use itoa::Buffer;
use model::{Bound, Count, Listing, Refusal, Run, Tally};
use std::io;
use std::io::{Read, Write};

// The only world may have as many runs as the pool has room for.
const CAPACITY: usize = 950;

const WORDS: usize = 8 * (CAPACITY + 49);

// The bytes of a written set of as many runs as the world takes.
const MOST: usize = 5 + 16 * CAPACITY;

// Of a longer input a byte more than is taken is read, so that it shows.
const READ: usize = MOST + 1;

// Room for the longest text: 26 bytes for the line of each count, and 42 for that of each run.
const TEXT: usize = 52 + 42 * CAPACITY;

// ---- text: each function puts its text at the end, and fails only where there is no room for it
fn put(text: &mut ArrayString<TEXT>, part: &str) -> Result<(), CapacityError>
    ensures { Puts text.old part.now text.new result }
{
    text.try_push_str(part).map_err(CapacityError::simplify)
}

// A number and what stands after it. A number of positions is at most 2^64, and any word is below that.
// By functions and not by a format, so that a contract says every byte of the text (`printed`).
fn put_number(text: &mut ArrayString<TEXT>, n: u128, after: &str) -> Result<(), CapacityError>
    requires { n ≤ 2 ^ 64 }
    ensures { Puts text.old (decimal n ++ after.now) text.new result }
{
    put(text, Buffer::new().format(n))?;
    put(text, after)
}

fn put_run(text: &mut ArrayString<TEXT>, run: Run) -> Result<(), CapacityError>
    ensures { Puts text.old (run_line run) text.new result }
{
    put_number(text, u128::from(run.start), " ")?;
    put_number(text, u128::from(run.end), "\n")
}

fn put_counts(text: &mut ArrayString<TEXT>, runs: u64, ones: Count) -> Result<(), CapacityError>
    requires { worth ones ≤ 2 ^ 64 }
    ensures { Puts text.old (count_lines runs (worth ones)) text.new result }
{
    put(text, "runs ")?;
    put_number(text, u128::from(runs), "\nones ")?;
    put_number(text, u128::from(ones), "\n")
}

fn put_refused(text: &mut ArrayString<TEXT>, refusal: Refusal) -> Result<(), CapacityError>
    ensures { Puts text.old (refused_line (refusal_number refusal)) text.new result }
{
    put(text, "refused ")?;
    put_number(text, u128::from(u64::from(refusal)), "\n")
}

// ---- the set: what is reported of world 0, which was opened, of a pool that was checked. None of these calls is then refused
fn held_tally(pool: PoolRef<'_>) -> Tally
    requires { Openable pool.words.now 0 }
    ensures { Measured (held_by pool.entry.words.now 0) true 0 size result }
{
    pool.tally(0, Bound::Unbounded, Bound::Unbounded, true)
        .unwrap()
}

fn all_runs(pool: PoolRef<'_>) -> Listing
    requires { Openable pool.words.now 0 }
    ensures { remaining (held_by pool.entry.words.now 0) result ≡ held_runs (held_by pool.entry.words.now 0) }
{
    pool.ranges(0, Bound::Unbounded, Bound::Unbounded, true)
        .unwrap()
}

fn next_run(pool: PoolRef<'_>, left: &mut Listing) -> Option<Run>
    requires { Openable pool.words.now 0 }
    ensures { MatchOption result
        (remaining (held_by pool.entry.words.now 0) left.old ≡ [])
        (λ run. remaining (held_by pool.entry.words.now 0) left.old ≡ run ∷ remaining (held_by pool.entry.words.now 0) left.new) }
{
    let drawn = pool.draw_front(0, *left).unwrap();
    *left = drawn.rest;
    drawn.run
}

// Puts all runs that are left in a listing.
fn put_runs(
    text: &mut ArrayString<TEXT>,
    pool: PoolRef<'_>,
    first: Listing,
) -> Result<(), CapacityError>
    requires { Openable pool.words.now 0 }
    ensures { Puts text.old (run_lines (remaining (held_by pool.entry.words.now 0) first)) text.new result }
{
    let mut left = first;
    while let Some(run) = next_run(pool, &mut left) {
        put_run(text, run)?;
    }
    Ok(())
}

fn put_set(text: &mut ArrayString<TEXT>, pool: PoolRef<'_>) -> Result<(), CapacityError>
    requires { Openable pool.words.now 0 }
    ensures { Puts text.old (set_lines (held_by pool.entry.words.now 0)) text.new result }
{
    let tally = held_tally(pool);
    put_counts(text, tally.runs, tally.count)?;
    put_runs(text, pool, all_runs(pool))
}

// ---- the whole answer to the bytes of an input
// The pool is an array, since its capacity is fixed. It is checked once for all that is then asked of it.
fn answer(text: &mut ArrayString<TEXT>, bytes: &[u8]) -> Result<(), CapacityError>
    ensures puts { Puts text.old (printed bytes.now) text.new result }
    ensures fits { text.old.bytes ≡ [] → IsOk result }
{
    if bytes.len() > MOST {
        return put(text, "too long\n");
    }
    let mut words = [0u64; WORDS];
    make::new(&mut words, &[0, CAPACITY as u64]).unwrap();
    match bytes::load(&mut words, 0, bytes) {
        Err(refusal) => put_refused(text, refusal),
        Ok(()) => put_set(text, PoolRef::check(&words).unwrap()),
    }
}

// ---- an input, and what is written of it
// Why an input was not shown, or not wholly: it could not be read, or its text could not be written.
#[derive(Clone, Copy)]
enum Failure {
    Input,
    Output,
}

// Reads once, behind the n bytes that were read before, and tells how many came: none where the input has ended.
fn read_more<R: Read>(input: &mut R, room: &mut [u8], n: usize) -> io::Result<usize>
    requires { n < length room.old }
    ensures in_bounds { IfOk result (λ more. n + more ≤ length room.new) }
    ensures front_stays { take n room.new ≡ take n room.old }
    ensures bytes { IfOk result (λ more. Consumes (R.remaining input.old) (R.remaining input.new) (take more (drop n room.new))) }
    ensures end { IfOk result (λ more. more ≡ 0 → IsAtEnd (R.remaining input.new)) }
{
    input.read(&mut room[n..])
}

// Reads an input until it ends or the room for its bytes is full, and tells how many there are.
fn read_all<R: Read>(input: &mut R, room: &mut [u8; READ]) -> io::Result<usize>
    ensures in_bounds { IfOk result (λ n. n ≤ READ) }
    ensures bytes { IfOk result (λ n. IfSome (R.remaining input.old) (λ all. take n room.new ≡ take 15206 all)) }
{
    let mut n = 0;
    while n < READ {
        let more = read_more(input, room, n)?;
        if more == 0 {
            break;
        }
        n += more;
    }
    Ok(n)
}

// Writes the answer to the bytes of an input.
fn show<W: Write>(output: &mut W, bytes: &[u8]) -> Result<(), Failure>
    ensures { Shows (W.contents output.old) (W.contents output.new) bytes.now result }
{
    let mut text = ArrayString::new();
    answer(&mut text, bytes).unwrap();
    if output.write_all(text.as_str().as_bytes()).is_err() {
        return Err(Failure::Output);
    }
    Ok(())
}

// Writes the answer to an input. It is generic, since only of a reader and a writer whose bytes are known can a contract say what was written.
fn list<R: Read + Drop, W: Write>(mut input: R, output: &mut W) -> Result<(), Failure>
    ensures { Lists (R.remaining input) (W.contents output.old) (W.contents output.new) result }
{
    let mut room = [0; READ];
    match read_all(&mut input, &mut room) {
        Err(_) => Err(Failure::Input),
        Ok(n) => show(output, &room[..n]),
    }
}

// ---- standard input and output
// A failure is said on standard error, and the program ends as it does otherwise. Where it cannot be said, it hands the error back.
fn main(rt: HostRuntime) -> io::Result<()> {
    match list(rt.stdin(), &mut io::writer(&rt)) {
        Ok(()) => Ok(()),
        Err(Failure::Input) => eprintln!(rt; "listset: cannot read standard input"),
        Err(Failure::Output) => eprintln!(rt; "listset: cannot write standard output"),
    }
}
