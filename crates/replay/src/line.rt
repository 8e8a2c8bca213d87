// The words of a line, one space apart, and what a call takes of them. A word that is not of its form is an error, and so is one too many.
ghost use Rattle.std.specs.Prelude.{◌<◌, ◌≤◌, IfOk, IfSome};

use arrayvec::{ArrayVec, CapacityError};
use model::{Bound, Listing, Operation, Rect};
use std::io;
use std::str::Split;

// Why a line has no answer.
#[derive(Drop)]
pub enum Fault {
    NotUnderstood,
    Io(io::Error),
}

impl From<io::Error> for Fault {
    fn from(e: io::Error) -> Fault {
        Fault::Io(e)
    }
}

// No line has more than there is room for.
impl<T: Drop> From<CapacityError<T>> for Fault {
    fn from(_full: CapacityError<T>) -> Fault {
        Fault::NotUnderstood
    }
}

// The words of a line that were not read yet.
#[derive(Drop)]
pub struct Tokens<'a> {
    rest: Split<'a, char>,
}

impl<'a> Tokens<'a> {
    pub fn new(line: &'a str) -> Tokens<'a> {
        Tokens {
            rest: line.split(' '),
        }
    }

    // The next word, which is empty where two spaces stand together.
    pub fn word(&mut self) -> Result<&'a str, Fault> {
        self.rest.next().ok_or(Fault::NotUnderstood)
    }

    // A number that is at most another.
    pub fn at_most(&mut self, most: u64) -> Result<u64, Fault>
        ensures { IfOk result (λ n. n ≤ most) }
    {
        let n = number(self.word()?)?;
        if n > most {
            return Err(Fault::NotUnderstood);
        }
        Ok(n)
    }

    // Nothing is left.
    pub fn end(mut self) -> Result<(), Fault> {
        match self.rest.next() {
            Some(_) => Err(Fault::NotUnderstood),
            None => Ok(()),
        }
    }

    // All that is left, as what a call takes.
    pub fn all<T: Argument + Drop>(mut self) -> Result<T, Fault> {
        let arguments = T::read(&mut self)?;
        self.end()?;
        Ok(arguments)
    }
}

// ---- arguments
// What a call takes, as one word or as several.
pub trait Argument {
    fn read(line: &mut Tokens<'_>) -> Result<Self, Fault>;
}

// Decimal, without sign or leading zeros.
fn number(word: &str) -> Result<u64, Fault> {
    if word != "0" && !word.starts_with(|c: char| matches!(c, '1'..='9')) {
        return Err(Fault::NotUnderstood);
    }
    word.parse().map_err(|_| Fault::NotUnderstood)
}

impl Argument for u64 {
    fn read(line: &mut Tokens<'_>) -> Result<u64, Fault> {
        number(line.word()?)
    }
}

impl Argument for bool {
    fn read(line: &mut Tokens<'_>) -> Result<bool, Fault> {
        Ok(line.at_most(1)? == 1)
    }
}

impl Argument for Bound {
    fn read(line: &mut Tokens<'_>) -> Result<Bound, Fault> {
        let word = line.word()?;
        if word == "u" {
            return Ok(Bound::Unbounded);
        }
        if let Some(n) = word.strip_prefix('i') {
            return Ok(Bound::Included(number(n)?));
        }
        let n = word.strip_prefix('e').ok_or(Fault::NotUnderstood)?;
        Ok(Bound::Excluded(number(n)?))
    }
}

impl Argument for Operation {
    fn read(line: &mut Tokens<'_>) -> Result<Operation, Fault> {
        match line.word()? {
            "and" => Ok(Operation::And),
            "or" => Ok(Operation::Or),
            "xor" => Ok(Operation::Xor),
            _ => Err(Fault::NotUnderstood),
        }
    }
}

// Both corners, each its row and its column.
impl Argument for Rect {
    fn read(line: &mut Tokens<'_>) -> Result<Rect, Fault> {
        let (top, left) = Argument::read(line)?;
        let (bottom, right) = Argument::read(line)?;
        Ok(Rect {
            top,
            left,
            bottom,
            right,
        })
    }
}

impl Argument for Listing {
    fn read(line: &mut Tokens<'_>) -> Result<Listing, Fault> {
        let (first, last, value) = Argument::read(line)?;
        Ok(Listing { first, last, value })
    }
}

impl<const N: usize> Argument for [u64; N] {
    fn read(line: &mut Tokens<'_>) -> Result<[u64; N], Fault> {
        let mut all = [0; N];
        for w in all.iter_mut() {
            *w = u64::read(line)?;
        }
        Ok(all)
    }
}

// A world of a store, neither of which has to be there.
#[derive(Clone, Copy)]
pub struct Place {
    pub store: u64,
    pub world: u64,
}

impl Argument for Place {
    fn read(line: &mut Tokens<'_>) -> Result<Place, Fault> {
        let (store, world) = line.word()?.split_once('/').ok_or(Fault::NotUnderstood)?;
        Ok(Place {
            store: number(store)?,
            world: number(world)?,
        })
    }
}

// As many pairs of numbers as the first number says, with room for so many words.
#[derive(Drop)]
pub struct Pairs<const WORDS: usize>(pub ArrayVec<u64, WORDS>);

impl<const WORDS: usize> Argument for Pairs<WORDS> {
    fn read(line: &mut Tokens<'_>) -> Result<Pairs<WORDS>, Fault> {
        let mut all = ArrayVec::new();
        for _ in 0..line.at_most(WORDS as u64 / 2)? {
            all.try_push(u64::read(line)?)?;
            all.try_push(u64::read(line)?)?;
        }
        Ok(Pairs(all))
    }
}

// ---- lent slices
// What a lent slice is made of before a call writes into it.
pub trait Element: Copy + Default {
    const UNWRITTEN: Self;
}

impl Element for u8 {
    const UNWRITTEN: u8 = 0xee;
}

impl Element for u64 {
    const UNWRITTEN: u64 = 0xeeeeeeeeeeeeeeee;
}

// A slice of at most N elements to write into.
#[derive(Drop)]
pub struct Lent<T, const N: usize>(pub ArrayVec<T, N>);

impl<T: Element + Drop, const N: usize> Argument for Lent<T, N> {
    fn read(line: &mut Tokens<'_>) -> Result<Lent<T, N>, Fault> {
        let n = line.at_most(N as u64)?;
        let mut all = ArrayVec::new();
        for _ in 0..n {
            all.try_push(T::UNWRITTEN)?;
        }
        Ok(Lent(all))
    }
}

// ---- bytes
// At most so many bytes, two hexadecimal digits for each, or `-` for none.
#[derive(Drop)]
pub struct Bytes<const MOST: usize>(pub ArrayVec<u8, MOST>);

fn hex_digit(b: u8) -> Option<u8>
    ensures { IfSome result (λ d. d < 16) }
{
    match b {
        b'0'..=b'9' => Some(b - b'0'),
        b'a'..=b'f' => Some(b - b'a' + 10),
        _ => None,
    }
}

fn octet(pair: &[u8]) -> Option<u8> {
    match pair {
        [high, low] => Some(hex_digit(*high)? << 4 | hex_digit(*low)?),
        _ => None,
    }
}

impl<const MOST: usize> Argument for Bytes<MOST> {
    fn read(line: &mut Tokens<'_>) -> Result<Bytes<MOST>, Fault> {
        let mut all = ArrayVec::new();
        let digits = line.word()?.as_bytes();
        if digits == b"-".as_slice() {
            return Ok(Bytes(all));
        }
        if digits.is_empty() || digits.len() / 2 > MOST {
            return Err(Fault::NotUnderstood);
        }
        for pair in digits.chunks(2) {
            all.try_push(octet(pair).ok_or(Fault::NotUnderstood)?)?;
        }
        Ok(Bytes(all))
    }
}

// ---- several arguments, one after another
impl<A: Argument + Drop, B: Argument> Argument for (A, B) {
    fn read(line: &mut Tokens<'_>) -> Result<(A, B), Fault> {
        let a = A::read(line)?;
        Ok((a, B::read(line)?))
    }
}

impl<A: Argument + Drop, B: Argument + Drop, C: Argument> Argument for (A, B, C) {
    fn read(line: &mut Tokens<'_>) -> Result<(A, B, C), Fault> {
        let (a, b) = Argument::read(line)?;
        Ok((a, b, C::read(line)?))
    }
}

impl<A: Argument + Drop, B: Argument + Drop, C: Argument + Drop, D: Argument> Argument
    for (A, B, C, D) {
    fn read(line: &mut Tokens<'_>) -> Result<(A, B, C, D), Fault> {
        let (a, b, c) = Argument::read(line)?;
        Ok((a, b, c, D::read(line)?))
    }
}
