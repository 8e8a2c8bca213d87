// Writing a world's set, and the map of a window, into the front of a lent slice. First the calls that tell how many bytes they wrote; then
// the same calls handing back the part that they filled.
// Document 02 (Ticket 4) wants both forms of writing a map, and both are public, so each picks its form here, by a const parameter.
ghost use Rattle.std.specs.Prelude.{◌≡◌, ◌≤◌, ◌++◌, length, drop, IfOk, IfErr, Ok, Err};
ghost use Rattle.std.specs.Borrow.{sem, LendsIfOk, Array, u8 as byte};
ghost use Rattle.model.specs.Numbers.{refusal_number};
ghost use Rattle.model.specs.Call.{Call, refused};
ghost use Rattle.interval_bit_set.specs.Met.{outcome_of};
ghost use Rattle.interval_bit_set.specs.Out.{WritesOut};
ghost use Rattle.interval_bit_set.specs.Parts.{code_of, front_of, count_of, Handed};

use crate::checked::PoolRef;
use maps::window::Window;
use model::{Edition, Refusal};
use pool::layout::NODES;

impl<'a> PoolRef<'a> {
    // Writes a world's set, and returns how many bytes it has.
    pub fn write_set(self, world: u64, edition: Edition, out: &mut [u8]) -> Result<usize, Refusal>
        ensures { WritesOut (Call.write_set edition) self.entry.words.now world out.old result out.new }
    {
        let h = self.open(world)?;
        let n = streams::write::run_count(&self.words[NODES..], h);
        let due = codec::set::length_of(n) as usize;
        if out.len() < due {
            return Err(Refusal::OutputShort);
        }
        streams::write::write_set(&self.words[NODES..], h, edition, out);
        Ok(due)
    }

    // Writes the map of a window, a word at a time or, where `WIDE` is false, by single bytes, and returns how many bytes it has.
    // `WIDE` picks one of two writers, and no closure does: painting goes over the nodes, and writing by bytes over the runs in order.
    pub fn write_map<const WIDE: bool>(
        self,
        world: u64,
        base: u64,
        n: u64,
        out: &mut [u8],
    ) -> Result<usize, Refusal>
        ensures { WritesOut (Call.write_map base n) self.entry.words.now world out.old result out.new }
    {
        let h = self.open(world)?;
        if !crate::window::window_fits(base, n) {
            return Err(Refusal::Window);
        }
        let due = n.div_ceil(8) as usize;
        if out.len() < due {
            return Err(Refusal::OutputShort);
        }
        let window = Window { base, n };
        if WIDE {
            maps::write::write_map(&self.words[NODES..], h, window, out);
        } else {
            maps::write::write_map_by_bytes(&self.words[NODES..], h, window, out);
        }
        Ok(due)
    }
}

// Writes a world's set, and tells how many bytes it has.
pub fn write_set(
    words: &[u64],
    world: u64,
    edition: Edition,
    out: &mut [u8],
) -> Result<usize, Refusal>
    ensures { WritesOut (Call.write_set edition) words.now world out.old result out.new }
{
    PoolRef::check(words)?.write_set(world, edition, out)
}

// Writes the map of a window, and tells how many bytes it has. Eight bytes of the map are written as a word.
pub fn write_map(
    words: &[u64],
    world: u64,
    base: u64,
    n: u64,
    out: &mut [u8],
) -> Result<usize, Refusal>
    ensures { WritesOut (Call.write_map base n) words.now world out.old result out.new }
{
    PoolRef::check(words)?.write_map::<true>(world, base, n, out)
}

// The same by single bytes: the plain form, which the other is proved to agree with.
pub fn write_map_by_bytes(
    words: &[u64],
    world: u64,
    base: u64,
    n: u64,
    out: &mut [u8],
) -> Result<usize, Refusal>
    ensures { WritesOut (Call.write_map base n) words.now world out.old result out.new }
{
    PoolRef::check(words)?.write_map::<false>(world, base, n, out)
}

// The part of a slice that was filled, as far as `filled` tells, or the refusal. What the caller's slice ends as is told by `ends`: what the part
// holds by then, and behind it what was there; after a refusal all that was there. The check derives no such clause of a part of a slice, so this
// function and the two below are proved by hand.
fn handed<'a>(out: &'a mut [u8], filled: Result<usize, Refusal>) -> Result<&'a mut [u8], Refusal>
    requires { IfOk filled (λ n. n ≤ length out.old) }
    ensures* ends { sem 𝓛 (LendsIfOk (Array byte 0) (Array byte 0) out.entry result (λ ws. ws ++ drop (count_of filled) out.old) out.old) }
    ensures told { Handed filled out.old out.entry.ref_ptr result }
{
    match filled {
        Err(refusal) => Err(refusal),
        Ok(n) => Ok(&mut out[..n]),
    }
}

// Writes a world's set, and hands back the part of the slice that it fills.
pub fn written_set<'a>(
    words: &[u64],
    world: u64,
    edition: Edition,
    out: &'a mut [u8],
) -> Result<&'a mut [u8], Refusal>
    ensures* ends { sem 𝓛 (LendsIfOk (Array byte 0) (Array byte 0) out.entry result
        (λ ws. ws ++ drop (length (front_of (outcome_of words.now world (Call.write_set edition out.old)).answer)) out.old) out.old) }
    ensures refused { IfErr result (λ r. (outcome_of words.now world (Call.write_set edition out.old)).answer ≡ refused (refusal_number r)) }
    ensures filled { IfOk result (λ part. (code_of (outcome_of words.now world (Call.write_set edition out.old)).answer ≡ 0)
        × (part.now ≡ front_of (outcome_of words.now world (Call.write_set edition out.old)).answer)
        × (part.ref_ptr ≡ out.entry.ref_ptr)) }
{
    let filled = write_set(words, world, edition, out);
    handed(out, filled)
}

// Writes the map of a window, and hands back the part of the slice that it fills.
pub fn written_map<'a>(
    words: &[u64],
    world: u64,
    base: u64,
    n: u64,
    out: &'a mut [u8],
) -> Result<&'a mut [u8], Refusal>
    ensures* ends { sem 𝓛 (LendsIfOk (Array byte 0) (Array byte 0) out.entry result
        (λ ws. ws ++ drop (length (front_of (outcome_of words.now world (Call.write_map base n out.old)).answer)) out.old) out.old) }
    ensures refused { IfErr result (λ r. (outcome_of words.now world (Call.write_map base n out.old)).answer ≡ refused (refusal_number r)) }
    ensures filled { IfOk result (λ part. (code_of (outcome_of words.now world (Call.write_map base n out.old)).answer ≡ 0)
        × (part.now ≡ front_of (outcome_of words.now world (Call.write_map base n out.old)).answer)
        × (part.ref_ptr ≡ out.entry.ref_ptr)) }
{
    let filled = write_map(words, world, base, n, out);
    handed(out, filled)
}
