// Document 01's sixteen cases through the public calls: a line for each, with what the calls answer, in the document's order, and a line more
// for the set of case 15 in edition 2.
// A run is its start and end with two dots between, both in it. The pools have capacity 13, or 1 where the case says so, and one world, 0,
// with floor 0 and the capacity as its ceiling.
// Each case says its own steps with the calls as a caller has them, bounds and slices apart: so it can be read beside the document's.
#![tactic(auto)]

use interval_bit_set::{bytes, change, join, listing, make, mend, report, write};
use model::{Bound, Count, Edition, Listing, Operation, Refusal, Run, Tally};
use pool::Store;
use std::io;

// ---- what an answer prints: a space before each part of it
// A trait of its own and no Display: most of what is shown are types of other crates (Result, Option, numbers, the model's), for which none can be
// written here.
trait Show {
    fn show<P: Print>(&self, rt: &P) -> io::Result<()>;
}

impl<T: Show> Show for Result<T, Refusal> {
    fn show<P: Print>(&self, rt: &P) -> io::Result<()> {
        match self {
            Err(refusal) => print!(rt; " refused {}", u64::from(*refusal)),
            Ok(given) => given.show(rt),
        }
    }
}

impl<T: Show> Show for Option<T> {
    fn show<P: Print>(&self, rt: &P) -> io::Result<()> {
        match self {
            None => print!(rt; " none"),
            Some(found) => found.show(rt),
        }
    }
}

impl Show for () {
    fn show<P: Print>(&self, _rt: &P) -> io::Result<()> {
        Ok(())
    }
}

impl Show for u64 {
    fn show<P: Print>(&self, rt: &P) -> io::Result<()> {
        print!(rt; " {self}")
    }
}

impl Show for Count {
    fn show<P: Print>(&self, rt: &P) -> io::Result<()> {
        let number = u128::from(*self);
        print!(rt; " {number}")
    }
}

// Of a tally the positions alone.
impl Show for Tally {
    fn show<P: Print>(&self, rt: &P) -> io::Result<()> {
        self.count.show(rt)
    }
}

impl Show for Run {
    fn show<P: Print>(&self, rt: &P) -> io::Result<()> {
        print!(rt; " {}..{}", self.start, self.end)
    }
}

// The first bytes of a slice, in hex.
#[derive(Clone, Copy)]
struct Front<'a> {
    bytes: &'a [u8],
    many: usize,
}

impl<'a> Show for Front<'a> {
    fn show<P: Print>(&self, rt: &P) -> io::Result<()> {
        print!(rt; " ")?;
        for byte in self.bytes.iter().take(self.many) {
            print!(rt; "{byte:02x}")?;
        }
        Ok(())
    }
}

// The bytes of a mended set, and of its report.
impl<'a> Show for (Front<'a>, Front<'a>) {
    fn show<P: Print>(&self, rt: &P) -> io::Result<()> {
        self.0.show(rt)?;
        self.1.show(rt)
    }
}

// What is left of a listing in a world 0: the next runs, four at most.
#[derive(Clone, Copy)]
struct Listed<'a> {
    words: &'a [u64],
    left: Listing,
}

impl<'a> Show for Listed<'a> {
    fn show<P: Print>(&self, rt: &P) -> io::Result<()> {
        let mut left = self.left;
        for _ in 0..4 {
            let drawn = listing::next(self.words, 0, &mut left);
            if let Ok(None) = drawn {
                break;
            }
            drawn.show(rt)?;
        }
        Ok(())
    }
}

// All runs held, between braces.
fn show_held(rt: &impl Print, words: &[u64]) -> io::Result<()> {
    print!(rt; " {{")?;
    ranges(words, Bound::Unbounded, Bound::Unbounded, true).show(rt)?;
    print!(rt; " }}")
}

// ---- sets and ranges as the document writes them
// A new set, which is empty.
fn empty(words: &mut [u64]) {
    let limits = [0u64, Store::of_length(words.len()).capacity];
    let _ = make::new(words, &limits);
}

fn set(words: &mut [u64], a: u64, b: u64, value: bool) -> Result<Count, Refusal> {
    change::set(words, 0, Bound::Included(a), Bound::Excluded(b), value)
}

// A new set of one run, start..=end.
fn only(words: &mut [u64], start: u64, end: u64) {
    empty(words);
    let _ = change::set(words, 0, Bound::Included(start), Bound::Included(end), true);
}

// The set of cases 15 and 16: 2..=3 and 8..=9.
fn two_runs(words: &mut [u64]) {
    only(words, 2, 3);
    let _ = set(words, 8, 10, true);
}

fn ranges(words: &[u64], lower: Bound, upper: Bound, value: bool) -> Result<Listed<'_>, Refusal> {
    let left = report::ranges(words, 0, lower, upper, value)?;
    Ok(Listed { words, left })
}

fn count(words: &[u64]) -> Result<Tally, Refusal> {
    report::tally(words, 0, Bound::Unbounded, Bound::Unbounded, true)
}

// What was written into the front of a slice.
fn written(many: Result<usize, Refusal>, out: &[u8]) -> Result<Front<'_>, Refusal> {
    Ok(Front {
        bytes: out,
        many: many?,
    })
}

fn mended<'a>(
    words: &mut [u64],
    told: &[u8],
    out: &'a mut [u8],
    report: &'a mut [u8],
) -> Result<(Front<'a>, Front<'a>), Refusal> {
    let many = mend::mend(words, 0, told, out, report)?;
    Ok((
        Front {
            bytes: out,
            many: many.bytes,
        },
        Front {
            bytes: report,
            many: many.report,
        },
    ))
}

// ---- the cases
fn case_1(rt: &impl Print, s: &mut [u64]) -> io::Result<()> {
    print!(rt; "1:")?;
    empty(s);
    set(s, 2, 8, true).show(rt)?;
    set(s, 4, 6, false).show(rt)?;
    set(s, 2, 4, true).show(rt)?;
    println!(rt;)
}

fn case_2(rt: &impl Print, s: &mut [u64]) -> io::Result<()> {
    print!(rt; "2:")?;
    empty(s);
    for _ in 0..2 {
        change::set(s, 0, Bound::Unbounded, Bound::Unbounded, true).show(rt)?;
    }
    println!(rt;)
}

fn case_3(rt: &impl Print, s: &mut [u64]) -> io::Result<()> {
    print!(rt; "3:")?;
    empty(s);
    change::set(s, 0, Bound::Excluded(u64::MAX), Bound::Unbounded, true).show(rt)?;
    show_held(rt, s)?;
    println!(rt;)
}

fn case_4(rt: &impl Print, s: &mut [u64]) -> io::Result<()> {
    print!(rt; "4:")?;
    only(s, 2, 7);
    for x in [4, 0, 9] {
        report::run_at(s, 0, x).show(rt)?;
    }
    println!(rt;)
}

fn case_5(rt: &impl Print, s: &mut [u64]) -> io::Result<()> {
    print!(rt; "5:")?;
    only(s, 2, 7);
    report::find(s, 0, Bound::Included(4), Bound::Unbounded, false).show(rt)?;
    report::find(s, 0, Bound::Included(2), Bound::Excluded(8), false).show(rt)?;
    println!(rt;)
}

fn case_6(rt: &impl Print, s: &mut [u64]) -> io::Result<()> {
    print!(rt; "6:")?;
    only(s, 2, 7);
    for (value, k) in [(false, 1), (true, 4)] {
        report::select(s, 0, Bound::Included(4), Bound::Excluded(12), value, k).show(rt)?;
    }
    println!(rt;)
}

fn case_7(rt: &impl Print, s: &mut [u64]) -> io::Result<()> {
    print!(rt; "7:")?;
    only(s, 2, 7);
    let _ = set(s, 10, 15, true);
    ranges(s, Bound::Included(4), Bound::Excluded(12), true).show(rt)?;
    print!(rt; " false")?;
    ranges(s, Bound::Included(4), Bound::Excluded(12), false).show(rt)?;
    println!(rt;)
}

fn case_8(rt: &impl Print, s: &mut [u64]) -> io::Result<()> {
    print!(rt; "8:")?;
    only(s, 2, 7);
    change::flip(s, 0, Bound::Included(4), Bound::Excluded(10)).show(rt)?;
    show_held(rt, s)?;
    println!(rt;)
}

fn case_9(rt: &impl Print, s: &mut [u64], a: &[u64], b: &[u64]) -> io::Result<()> {
    print!(rt; "9:")?;
    for operation in [Operation::And, Operation::Or] {
        join::combine(s, 0, operation, a, 0, b, 0).show(rt)?;
        count(s).show(rt)?;
    }
    join::combine(s, 0, Operation::Xor, a, 0, b, 0).show(rt)?;
    show_held(rt, s)?;
    println!(rt;)
}

fn case_10(rt: &impl Print, s: &mut [u64]) -> io::Result<()> {
    print!(rt; "10:")?;
    for distance in [1, 2] {
        only(s, u64::MAX - 1, u64::MAX);
        change::shift(s, 0, distance, true).show(rt)?;
        show_held(rt, s)?;
    }
    println!(rt;)
}

fn case_11(rt: &impl Print, s: &mut [u64]) -> io::Result<()> {
    print!(rt; "11:")?;
    for distance in [2, 4] {
        only(s, 0, 3);
        change::shift(s, 0, distance, false).show(rt)?;
        show_held(rt, s)?;
    }
    println!(rt;)
}

// Two physical runs and one logical one are left: so only the capacity 1 tells a refusal by logical runs from one by physical runs.
fn case_12(rt: &impl Print, one: &mut [u64]) -> io::Result<()> {
    print!(rt; "12:")?;
    only(one, 10, 19);
    change::shift(one, 0, 5, true).show(rt)?;
    set(one, 0, 15, true).show(rt)?;
    show_held(rt, one)?;
    println!(rt;)
}

fn case_13(rt: &impl Print, one: &mut [u64]) -> io::Result<()> {
    print!(rt; "13:")?;
    only(one, 2, 7);
    set(one, 4, 6, false).show(rt)?;
    set(one, 2, 4, false).show(rt)?;
    println!(rt;)
}

fn case_14(rt: &impl Print, s: &mut [u64], one: &mut [u64], a: &mut [u64]) -> io::Result<()> {
    print!(rt; "14:")?;
    only(a, 5, 5);
    join::not(s, 0, a, 0).show(rt)?;
    show_held(rt, s)?;
    join::not(one, 0, a, 0).show(rt)?;
    println!(rt;)
}

fn case_15(rt: &impl Print, s: &mut [u64], out: &mut [u8; 37]) -> io::Result<()> {
    print!(rt; "15:")?;
    two_runs(s);
    written(write::write_set(s, 0, Edition::Rows, out), out).show(rt)?;
    written(write::write_map(s, 0, 0, 10, out), out).show(rt)?;
    report::fill(s, 0, 0, 3).show(rt)?;
    println!(rt;)
}

// The set of case 15 in edition 2, and in edition 1 after a load of that (document 02, Ticket 8).
fn case_15_columns(rt: &impl Print, s: &mut [u64], out: &mut [u8; 37]) -> io::Result<()> {
    print!(rt; "15, edition 2:")?;
    two_runs(s);
    written(write::write_set(s, 0, Edition::Columns, out), out).show(rt)?;
    bytes::load(s, 0, out).show(rt)?;
    written(write::write_set(s, 0, Edition::Rows, out), out).show(rt)?;
    println!(rt;)
}

// The bytes of case 15 with 4 and 5 in place of 8 and 9.
fn case_16(rt: &impl Print, s: &mut [u64], out: &mut [u8; 37]) -> io::Result<()> {
    print!(rt; "16:")?;
    two_runs(s);
    let _ = write::write_set(s, 0, Edition::Rows, out);
    out[28] = 4;
    out[36] = 5;
    bytes::load(s, 0, out).show(rt)?;
    show_held(rt, s)?;
    println!(rt;)
}

// The same bytes mended: the two runs touch, so both are joined (document 02, Ticket 9).
fn case_16_mended(
    rt: &impl Print,
    s: &mut [u64],
    told: &[u8; 37],
    out: &mut [u8; 21],
    report: &mut [u8; 2],
) -> io::Result<()> {
    print!(rt; "16, mended:")?;
    only(s, 8, 9);
    mended(s, told, out, report).show(rt)?;
    show_held(rt, s)?;
    println!(rt;)
}

// Arrays, since each pool has a fixed capacity and each output a fixed length, as with a caller who has no heap.
fn main(rt: HostRuntime) -> io::Result<()> {
    let mut s = [0u64; 496];
    let mut a = [0u64; 496];
    let mut b = [0u64; 496];
    let mut one = [0u64; 400];
    let mut out = [0u8; 37];
    case_1(&rt, &mut s)?;
    case_2(&rt, &mut s)?;
    case_3(&rt, &mut s)?;
    case_4(&rt, &mut s)?;
    case_5(&rt, &mut s)?;
    case_6(&rt, &mut s)?;
    case_7(&rt, &mut s)?;
    case_8(&rt, &mut s)?;
    only(&mut a, 2, 7);
    only(&mut b, 5, 9);
    case_9(&rt, &mut s, &a, &b)?;
    case_10(&rt, &mut s)?;
    case_11(&rt, &mut s)?;
    case_12(&rt, &mut one)?;
    case_13(&rt, &mut one)?;
    case_14(&rt, &mut s, &mut one, &mut a)?;
    case_15(&rt, &mut s, &mut out)?;
    case_15_columns(&rt, &mut s, &mut out)?;
    case_16(&rt, &mut s, &mut out)?;
    let mut whole = [0u8; 21];
    let mut notes = [0u8; 2];
    case_16_mended(&rt, &mut s, &out, &mut whole, &mut notes)
}
