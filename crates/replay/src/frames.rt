// Frames: the lines of one are gathered until its last record is there.
use crate::answer;
use crate::answer::Words;
use crate::line::{Fault, Tokens};
use arrayvec::ArrayVec;
use std::io;

// A frame of which not all lines are there yet: its store, how many calls it has, its records so far, and the room for their answers.
#[derive(Drop)]
pub struct Frame {
    pub store: u64,
    calls: usize,
    records: ArrayVec<u64, 512>,
    answers: ArrayVec<u64, 512>,
}

impl Frame {
    // Takes a frame's own line, after its name.
    pub fn begin(mut line: Tokens<'_>) -> Result<Frame, Fault> {
        let store = line.at_most(3)?;
        let calls = line.at_most(64)?;
        let room = line.at_most(64)?;
        line.end()?;
        let mut answers = ArrayVec::from([0u64; 512]);
        answers.truncate(8 * room as usize);
        Ok(Frame {
            store,
            calls: calls as usize,
            records: ArrayVec::new(),
            answers,
        })
    }

    // Takes a line as the next record.
    pub fn record(&mut self, mut line: Tokens<'_>) -> Result<(), Fault> {
        if line.word()? != "record" {
            return Err(Fault::NotUnderstood);
        }
        let words: [u64; 8] = line.all()?;
        self.records.try_extend_from_slice(&words)?;
        Ok(())
    }

    // How many of its lines are there, its own among them.
    pub fn lines(&self) -> usize {
        self.records.len() / 8 + 1
    }

    pub fn is_whole(&self) -> bool {
        self.records.len() / 8 == self.calls
    }

    // Makes its calls, and answers its lines. None of its records is answered where it is refused.
    pub fn serve(&mut self, rt: &impl Print, store: &mut [u64]) -> io::Result<()> {
        let answers = self.answers.as_mut_slice();
        let reply = frame::frame(store, self.records.as_slice(), answers);
        answer::tell(rt, &reply)?;
        if reply.is_err() {
            return answer::repeat(rt, "-", self.calls);
        }
        for record in answers.chunks_exact(8).take(self.calls) {
            println!(rt; "record{}", Words(record))?;
        }
        Ok(())
    }
}
