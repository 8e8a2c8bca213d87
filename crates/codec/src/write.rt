// Writing a set, run by run or from a set of the other edition: the version byte, the number of runs as 4 bytes, then start and end of each run,
// 8 bytes each, as the edition arranges them.
ghost use Rattle.std.specs.Prelude.{◌≡◌, ◌+◌, ◌*◌, ◌≤◌, ◌<◌, ◌++◌, length, drop};
ghost use Rattle.model.specs.Bytes.{big_endian, encode, runs_told, into_front};
ghost use Rattle.model.specs.Converting.{other_edition};
ghost use Rattle.codec.specs.Placed.{placed, strewn, head_of, put_run};

use crate::told::Told;
use model::{Edition, Run};
use run_lists::RunList;

// Writes what stands before the runs: the version byte, and their number.
#[tactic(auto, using(crate::proofs::Strewing::head_placed))]
pub fn put_head(out: &mut [u8], edition: Edition, n: u64)
    requires { 5 ≤ length out.old }
    ensures { out.new ≡ placed 0 (head_of edition n) out.old }
{
    out[0] = u8::from(edition);
    crate::numbers::put_count(out, 1, n);
}

// Writes start and end of a run as 16 bytes that stand `step` apart.
#[inline(always)]
#[tactic(auto, using(crate::proofs::Strewing::both_strewn))]
fn put_both(out: &mut [u8], at: usize, step: usize, r: Run)
    requires { at + 15 * step < length out.old }
    ensures { out.new ≡ strewn at step (big_endian 8 r.start ++ big_endian 8 r.«end») out.old }
{
    crate::numbers::put_word(out, at, step, r.start);
    crate::numbers::put_word(out, at + 8 * step, step, r.end);
}

// Writes run i of n in either edition.
// By number: where run i of n goes depends on both, and in edition 2 its bytes lie all over the slice.
#[tactic(auto, unfolding(crate::specs::Placed::put_run))]
pub fn put_run(out: &mut [u8], edition: Edition, n: u64, i: u64, r: Run)
    requires { (5 + 16 * n ≤ length out.old) × (i < n) }
    ensures { out.new ≡ put_run edition n i r.start r.«end» out.old }
{
    match edition {
        Edition::Rows => put_both(out, (5 + 16 * i) as usize, 1, r),
        Edition::Columns => put_both(out, (5 + i) as usize, n as usize, r),
    }
}

// The other edition.
pub fn other_edition(edition: Edition) -> Edition
    ensures { result ≡ other_edition edition }
{
    match edition {
        Edition::Rows => Edition::Columns,
        Edition::Columns => Edition::Rows,
    }
}

// Writes the runs that bytes tell in one edition into the front of a slice in the other.
pub fn convert(told: Told<'_>, out: &mut [u8])
    requires { 5 + 16 * told.count ≤ length out.old }
    ensures { out.new ≡ into_front (encode (other_edition told.entry.edition)
        (runs_told told.entry.edition told.entry.count (drop 5 told.entry.bytes.now))) out.old }
{
    let to = other_edition(told.edition);
    put_head(out, to, told.count);
    for i in 0..told.count {
        let r = told.run(i);
        put_run(out, to, told.count, i, r);
    }
}
