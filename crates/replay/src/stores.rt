// The four stores, each with no words at first, and the calls on whole ones or on several.
use crate::line::{Argument, Fault, Lent, Pairs, Place, Tokens};
use crate::{answer, calls};
use arrayvec::ArrayVec;
use interval_bit_set::{join, make, measure};
use model::Operation;

// The words of a store: at most as many as a pool of capacity 64 has.
type Store = ArrayVec<u64, 904>;

#[derive(Drop)]
pub struct Stores {
    all: [Store; 4],
}

impl Stores {
    pub fn new() -> Stores {
        Stores {
            all: [
                ArrayVec::new(),
                ArrayVec::new(),
                ArrayVec::new(),
                ArrayVec::new(),
            ],
        }
    }

    fn store(&self, s: u64) -> Result<&[u64], Fault> {
        Ok(
            self.all
                .get(s as usize)
                .ok_or(Fault::NotUnderstood)?
                .as_slice(),
        )
    }

    // The array is lent as a slice first, for `get_mut`.
    pub fn store_mut(&mut self, s: u64) -> Result<&mut Store, Fault> {
        let all = &mut self.all;
        let all = &mut all[..];
        all.get_mut(s as usize).ok_or(Fault::NotUnderstood)
    }

    // The words of the store that a line names next.
    fn whole(&mut self, line: &mut Tokens<'_>) -> Result<&mut [u64], Fault> {
        Ok(self.store_mut(u64::read(line)?)?.as_mut_slice())
    }

    // Copies a store into an empty one, which can be read while another is written, or the same. The caller lends the
    // place, since a store that is returned would be copied once more.
    fn copy(&self, s: u64, to: &mut Store) -> Result<(), Fault> {
        to.try_extend_from_slice(self.store(s)?)?;
        Ok(())
    }

    // Lends a store words, each 0.
    fn lend(&mut self, rt: &impl Print, s: u64, mut line: Tokens<'_>) -> Result<(), Fault> {
        let capacity = line.at_most(64)?;
        line.end()?;
        let store = self.store_mut(s)?;
        *store = ArrayVec::from([0u64; 904]);
        store.truncate(8 * (capacity as usize + 49));
        Ok(answer::tell(rt, &Ok(()))?)
    }

    // ---- calls that read further worlds, which may be of the same store: they are read in copies
    // They take what a line tells, and not the line: a function clears room for its copies whenever it is called.
    // Each takes other arguments and other copies: what is alike is the lines that lend a store and tell the answer.
    fn shifted(
        &mut self,
        rt: &impl Print,
        to: Place,
        (from, distance, left): (Place, u64, bool),
    ) -> Result<(), Fault> {
        let mut a = ArrayVec::new();
        self.copy(from.store, &mut a)?;
        let store = self.store_mut(to.store)?.as_mut_slice();
        let done = join::shifted(store, to.world, distance, left, a.as_slice(), from.world);
        Ok(answer::tell(rt, &done)?)
    }

    fn combine(
        &mut self,
        rt: &impl Print,
        to: Place,
        (operation, p, q): (Operation, Place, Place),
    ) -> Result<(), Fault> {
        let mut a = ArrayVec::new();
        self.copy(p.store, &mut a)?;
        let mut b = ArrayVec::new();
        self.copy(q.store, &mut b)?;
        let store = self.store_mut(to.store)?.as_mut_slice();
        let done = join::combine(
            store,
            to.world,
            operation,
            a.as_slice(),
            p.world,
            b.as_slice(),
            q.world,
        );
        Ok(answer::tell(rt, &done)?)
    }

    fn not(&mut self, rt: &impl Print, to: Place, from: Place) -> Result<(), Fault> {
        let mut a = ArrayVec::new();
        self.copy(from.store, &mut a)?;
        let store = self.store_mut(to.store)?.as_mut_slice();
        let done = join::not(store, to.world, a.as_slice(), from.world);
        Ok(answer::tell(rt, &done)?)
    }

    fn eq(&self, rt: &impl Print, p: Place, q: Place) -> Result<(), Fault> {
        let same = join::eq(self.store(p.store)?, p.world, self.store(q.store)?, q.world);
        Ok(answer::tell(rt, &same)?)
    }

    // ---- names, by a match and no table: what each takes is of types of its own
    // The call at a world that a name means.
    fn world_named(
        &mut self,
        rt: &impl Print,
        p: Place,
        name: &str,
        line: Tokens<'_>,
    ) -> Result<(), Fault> {
        match name {
            "shifted" => self.shifted(rt, p, line.all()?),
            "combine" => self.combine(rt, p, line.all()?),
            "not" => self.not(rt, p, line.all()?),
            "eq" => self.eq(rt, p, line.all()?),
            _ => {
                let store = self.store_mut(p.store)?.as_mut_slice();
                calls::call_named(rt, store, p.world, name, line)
            }
        }
    }

    // Makes the call that a name means, but for frames, and prints its answer: a name, a store or a world but for clear_map and convert, and what
    // the call takes.
    pub fn call_named(
        &mut self,
        rt: &impl Print,
        name: &str,
        mut line: Tokens<'_>,
    ) -> Result<(), Fault> {
        match name {
            "clear_map" => calls::clear_map(rt, line),
            "convert" => calls::convert(rt, line),
            "words" => {
                let s = u64::read(&mut line)?;
                self.lend(rt, s, line)
            }
            "spoil" => spoil(rt, self.whole(&mut line)?, line),
            "new" => new(rt, self.whole(&mut line)?, line),
            "deepest" => deepest(rt, self.whole(&mut line)?, line),
            "why_full" => why_full(rt, self.whole(&mut line)?, line),
            _ => {
                let p = Place::read(&mut line)?;
                self.world_named(rt, p, name, line)
            }
        }
    }
}

// ---- calls on a whole store, of which two only measure it
// Not a call of the library: makes a store unsound, which has to have words.
fn spoil(rt: &impl Print, store: &mut [u64], line: Tokens<'_>) -> Result<(), Fault> {
    line.end()?;
    *store.get_mut(7).ok_or(Fault::NotUnderstood)? = 1;
    Ok(answer::tell(rt, &Ok(()))?)
}

fn new(rt: &impl Print, store: &mut [u64], line: Tokens<'_>) -> Result<(), Fault> {
    calls::make(
        rt,
        line,
        |limits: Pairs<64>| make::new(store, limits.0.as_slice()),
    )
}

fn deepest(rt: &impl Print, store: &[u64], line: Tokens<'_>) -> Result<(), Fault> {
    calls::make(rt, line, |(height, out): (u64, Lent<u64, 128>)| {
        answer::filled(out, |out| measure::deepest(store, height, out))
    })
}

fn why_full(rt: &impl Print, store: &[u64], line: Tokens<'_>) -> Result<(), Fault> {
    calls::make(rt, line, |(out, bounds): (Lent<u64, 128>, Pairs<128>)| {
        answer::filled(
            out,
            |out| measure::why_full(store, bounds.0.as_slice(), out),
        )
    })
}
