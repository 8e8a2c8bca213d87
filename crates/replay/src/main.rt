// Replays a list of calls: reads it from standard input, in the form that conformance/README.md describes, makes each call through the public
// calls, and prints its answer. A line that is not of that form is answered `not understood`, and so is a frame that is not followed by all of its
// records, and each of them, and a record outside of a frame; the line that comes in a record's place is then read as any other.
// Its stdin and stdout are a sample: the list `refusals`, lines 7 to 106 of `deepest`, 7 to 206 of `why_full`, the first 200 of `long`, lines 5 to
// 204 of `worlds`, 7 to 214 of `frames` and 13 to 212 of `grid`.
#![tactic(auto)]

mod answer;
mod calls;
mod frames;
mod line;
mod stores;

use arrayvec::ArrayVec;
use frames::Frame;
use line::{Fault, Tokens};
use std::io;
use std::io::Read;
use stores::Stores;

// The stores, and the frame at hand, if there is one.
#[derive(Drop)]
struct Replay {
    stores: Stores,
    frame: Option<Frame>,
}

// Whether a line was understood.
fn understood(r: Result<(), Fault>) -> io::Result<bool> {
    match r {
        Ok(()) => Ok(true),
        Err(Fault::NotUnderstood) => Ok(false),
        Err(Fault::Io(e)) => Err(e),
    }
}

impl Replay {
    // Takes a line as the next record of the frame at hand.
    fn record(&mut self, line: &str) -> Result<(), Fault> {
        let frame = self.frame.as_mut().ok_or(Fault::NotUnderstood)?;
        frame.record(Tokens::new(line))
    }

    // Takes a frame's own line. A function of its own: one that makes a frame clears room for it whenever it is called.
    fn begin_frame(&mut self, line: Tokens<'_>) -> Result<(), Fault> {
        self.frame = Some(Frame::begin(line)?);
        Ok(())
    }

    // Makes the call of a line and prints its answer. That of a frame comes when its last record is there.
    fn call(&mut self, rt: &impl Print, line: &str) -> Result<(), Fault> {
        let mut tokens = Tokens::new(line);
        let name = tokens.word()?;
        if name == "frame" {
            return self.begin_frame(tokens);
        }
        self.stores.call_named(rt, name, tokens)
    }

    // Gives up the frame at hand, whose records did not follow: none of its lines is understood.
    fn give_up(&mut self, rt: &impl Print) -> io::Result<()> {
        let Some(frame) = &self.frame else {
            return Ok(());
        };
        answer::repeat(rt, "not understood", frame.lines())?;
        self.frame = None;
        Ok(())
    }

    // Makes the frame at hand, if all of its lines are there.
    fn serve(&mut self, rt: &impl Print) -> Result<(), Fault> {
        let Some(frame) = &mut self.frame else {
            return Ok(());
        };
        if !frame.is_whole() {
            return Ok(());
        }
        let store = self.stores.store_mut(frame.store)?;
        frame.serve(rt, store.as_mut_slice())?;
        self.frame = None;
        Ok(())
    }

    // Makes what a line tells, if it is a text at all, with a record in the place of one first.
    fn line(&mut self, rt: &impl Print, line: Option<&str>) -> Result<(), Fault> {
        let is_record = match line {
            Some(text) => understood(self.record(text))?,
            None => false,
        };
        if !is_record {
            self.give_up(rt)?;
            self.call(rt, line.ok_or(Fault::NotUnderstood)?)?;
        }
        self.serve(rt)
    }

    // The same, with an answer for every line.
    fn answer(&mut self, rt: &impl Print, line: Option<&str>) -> io::Result<()> {
        if understood(self.line(rt, line))? {
            return Ok(());
        }
        println!(rt; "not understood")
    }

    // Goes on with the line at hand by one byte, and answers it where it ends. What comes after its first 4,096 bytes is dropped, the line feed
    // with it, and a line that has none is not understood.
    fn take(&mut self, rt: &impl Print, line: &mut ArrayVec<u8, 4096>, b: u8) -> io::Result<()> {
        let _ = line.try_push(b);
        if b != b'\n' {
            return Ok(());
        }
        match line.as_slice().strip_suffix(b"\n") {
            Some(text) => self.answer(rt, str::from_utf8(text).ok())?,
            None => self.answer(rt, None)?,
        }
        line.clear();
        Ok(())
    }
}

// A proved loop has to end, and nothing says that the input does, so the turns are counted, up to a number that no run uses up. A read or a
// write that fails ends the program with its error. All that is kept has a place of its own, so nothing can fail for want of memory.
fn main(rt: HostRuntime) -> io::Result<()> {
    let mut replay = Replay {
        stores: Stores::new(),
        frame: None,
    };
    let mut input = rt.stdin();
    let mut line = ArrayVec::new();
    for _ in 0..u64::MAX {
        let mut piece = [0u8; 4096];
        let n = input.read(&mut piece)?;
        if n == 0 {
            break;
        }
        for b in &piece[..n] {
            replay.take(&rt, &mut line, *b)?;
        }
    }
    if !line.is_empty() {
        replay.answer(&rt, None)?;
    }
    replay.give_up(&rt)
}
