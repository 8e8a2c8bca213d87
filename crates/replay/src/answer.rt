// What the calls answer, as text.
use crate::line::Lent;
use arrayvec::ArrayVec;
use model::{Count, Drawn, Listing, Mended, Refusal, Run, Tally};
use std::{fmt, io};

// The answer to a call that is not refused, as it is told. A slice that was lent is told whole, after how many of its elements were written.
#[derive(Clone, Copy)]
pub enum Answer<'a> {
    Done,
    Number(u64),
    Count(Count),
    Tally(Tally),
    Value(bool),
    Run(Run),
    Found(Option<u64>),
    Listing(Listing),
    Drawn(Drawn),
    Cleared(u64, &'a [u8]),
    Written(usize, &'a [u8]),
    Mended(Mended, &'a [u8], &'a [u8]),
    Worded(usize, &'a [u64]),
}

// What a call gives, which is told where it lies: what has slices is large.
pub trait Told {
    fn answer(&self) -> Answer<'_>;
}

impl Told for () {
    fn answer(&self) -> Answer<'_> {
        Answer::Done
    }
}

impl Told for u64 {
    fn answer(&self) -> Answer<'_> {
        Answer::Number(*self)
    }
}

impl Told for Count {
    fn answer(&self) -> Answer<'_> {
        Answer::Count(*self)
    }
}

impl Told for Tally {
    fn answer(&self) -> Answer<'_> {
        Answer::Tally(*self)
    }
}

impl Told for bool {
    fn answer(&self) -> Answer<'_> {
        Answer::Value(*self)
    }
}

impl Told for Run {
    fn answer(&self) -> Answer<'_> {
        Answer::Run(*self)
    }
}

impl Told for Option<u64> {
    fn answer(&self) -> Answer<'_> {
        Answer::Found(*self)
    }
}

impl Told for Listing {
    fn answer(&self) -> Answer<'_> {
        Answer::Listing(*self)
    }
}

impl Told for Drawn {
    fn answer(&self) -> Answer<'_> {
        Answer::Drawn(*self)
    }
}

// How many elements of a lent slice a call has written, and the whole slice.
#[derive(Drop)]
pub struct Wrote<T, const N: usize> {
    written: usize,
    whole: ArrayVec<T, N>,
}

impl<const N: usize> Told for Wrote<u8, N> {
    fn answer(&self) -> Answer<'_> {
        Answer::Written(self.written, self.whole.as_slice())
    }
}

impl<const N: usize> Told for Wrote<u64, N> {
    fn answer(&self) -> Answer<'_> {
        Answer::Worded(self.written, self.whole.as_slice())
    }
}

// Has a call write into a lent slice.
pub fn filled<T: Drop, const N: usize, F: FnOnce(&mut [T]) -> Result<usize, Refusal>>(
    lent: Lent<T, N>,
    call: F,
) -> Result<Wrote<T, N>, Refusal>
    requires { F.IsAlwaysCallable call }
{
    let mut whole = lent.0;
    let written = call(whole.as_mut_slice())?;
    Ok(Wrote { written, whole })
}

// A map whose spare bits were cleared: it is changed where it stands and told with a number of bits.
#[derive(Drop)]
pub struct Cleared {
    pub bits: u64,
    pub map: ArrayVec<u8, 1024>,
}

impl Told for Cleared {
    fn answer(&self) -> Answer<'_> {
        Answer::Cleared(self.bits, self.map.as_slice())
    }
}

// Both slices of a mended set.
#[derive(Drop)]
pub struct Both {
    pub made: Mended,
    pub out: ArrayVec<u8, 1029>,
    pub report: ArrayVec<u8, 1029>,
}

impl Told for Both {
    fn answer(&self) -> Answer<'_> {
        Answer::Mended(self.made, self.out.as_slice(), self.report.as_slice())
    }
}

// ---- text
// A number of up to 2^64.
#[derive(Clone, Copy)]
struct Positions(Count);

impl fmt::Display for Positions {
    fn fmt<W: fmt::Write>(&self, f: &mut fmt::Formatter<W>) -> fmt::Result {
        write!(f, "{}", u128::from(self.0))
    }
}

// What is left of a listing: its ends, and its value as a number.
#[derive(Clone, Copy)]
struct Left(Listing);

impl fmt::Display for Left {
    fn fmt<W: fmt::Write>(&self, f: &mut fmt::Formatter<W>) -> fmt::Result {
        write!(
            f,
            "{} {} {}",
            self.0.first,
            self.0.last,
            u8::from(self.0.value)
        )
    }
}

// Bytes by two hexadecimal digits each, or `-` for none.
#[derive(Clone, Copy)]
struct Hex<'a>(&'a [u8]);

impl fmt::Display for Hex<'_> {
    fn fmt<W: fmt::Write>(&self, f: &mut fmt::Formatter<W>) -> fmt::Result {
        if self.0.is_empty() {
            return f.write_str("-");
        }
        for b in self.0 {
            write!(f, "{b:02x}")?;
        }
        Ok(())
    }
}

// Words, each after a space.
// A text, where `run_lists::Words` is a list of runs.
#[derive(Clone, Copy)]
pub struct Words<'a>(pub &'a [u64]);

impl fmt::Display for Words<'_> {
    fn fmt<W: fmt::Write>(&self, f: &mut fmt::Formatter<W>) -> fmt::Result {
        for w in self.0 {
            write!(f, " {w}")?;
        }
        Ok(())
    }
}

impl fmt::Display for Answer<'_> {
    fn fmt<W: fmt::Write>(&self, f: &mut fmt::Formatter<W>) -> fmt::Result {
        match self {
            Answer::Done => write!(f, "done"),
            Answer::Number(n) => write!(f, "number {n}"),
            Answer::Count(n) => write!(f, "number {}", Positions(*n)),
            Answer::Tally(t) => write!(f, "number {} {}", Positions(t.count), t.runs),
            Answer::Value(v) => write!(f, "value {}", u8::from(*v)),
            Answer::Run(r) => write!(f, "run {} {}", r.start, r.end),
            Answer::Found(Some(x)) => write!(f, "at {x}"),
            Answer::Found(None) => write!(f, "none"),
            Answer::Listing(l) => write!(f, "listing {}", Left(*l)),
            Answer::Drawn(d) => match d.run {
                Some(r) => write!(f, "drawn {} {} {}", r.start, r.end, Left(d.rest)),
                None => write!(f, "end {}", Left(d.rest)),
            },
            Answer::Cleared(n, map) => write!(f, "cleared {n} {}", Hex(map)),
            Answer::Written(n, out) => write!(f, "written {n} {}", Hex(out)),
            Answer::Mended(m, out, report) => write!(
                f,
                "written {} {} {} {}",
                m.bytes,
                Hex(out),
                m.report,
                Hex(report)
            ),
            Answer::Worded(n, out) => write!(f, "worded {n}{}", Words(out)),
        }
    }
}

// ---- lines
// The answer to a line, or the number of its refusal.
pub fn tell<T: Told>(rt: &impl Print, reply: &Result<T, Refusal>) -> io::Result<()> {
    match reply {
        Ok(given) => println!(rt; "{}", given.answer()),
        Err(r) => println!(rt; "refused {}", u64::from(*r)),
    }
}

// The same line so many times.
pub fn repeat(rt: &impl Print, line: &str, times: usize) -> io::Result<()> {
    for _ in 0..times {
        println!(rt; "{line}")?;
    }
    Ok(())
}
