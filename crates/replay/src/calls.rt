// The calls at a world of a store, and those that take no store. Each is made only if the line has all that it takes and no more. A call that
// is added is a line here.
// A match on names and no table: each call takes arguments of types of its own, so no one type of function would be that of a table.
// The handle, store, world, name and line stay apart: the closures take store and world, and `make` handle and line, so a struct would be taken apart in each arm.
use crate::answer;
use crate::answer::{Both, Cleared, Told};
use crate::line::{Argument, Bytes, Fault, Lent, Pairs, Tokens};
use arrayvec::ArrayVec;
use interval_bit_set::{bytes, cells, change, mend, report, write};
use model::{Edition, Listing, Refusal};

// Makes a call with what the rest of the line tells, and prints its answer.
pub fn make<T: Argument + Drop, A: Told + Drop, F: FnOnce(T) -> Result<A, Refusal> + Drop>(
    rt: &impl Print,
    line: Tokens<'_>,
    call: F,
) -> Result<(), Fault>
    requires { F.IsAlwaysCallable call }
{
    Ok(answer::tell(rt, &call(line.all()?))?)
}

// ---- no store
pub fn clear_map(rt: &impl Print, line: Tokens<'_>) -> Result<(), Fault> {
    make(rt, line, |(base, window, map): (u64, u64, Bytes<1024>)| {
        let mut map = map.0;
        let bits = bytes::clear_map(base, window, map.as_mut_slice())?;
        Ok(Cleared { bits, map })
    })
}

pub fn convert(rt: &impl Print, line: Tokens<'_>) -> Result<(), Fault> {
    make(rt, line, |(set, out): (Bytes<1029>, Lent<u8, 1029>)| {
        answer::filled(out, |out| bytes::convert(set.0.as_slice(), out))
    })
}

// ---- changes
fn mend(
    store: &mut [u64],
    world: u64,
    set: &[u8],
    mut out: ArrayVec<u8, 1029>,
    mut notes: ArrayVec<u8, 1029>,
) -> Result<Both, Refusal> {
    let made = mend::mend(store, world, set, out.as_mut_slice(), notes.as_mut_slice())?;
    Ok(Both {
        made,
        out,
        report: notes,
    })
}

// The call that a name means at a world.
pub fn call_named(
    rt: &impl Print,
    store: &mut [u64],
    world: u64,
    name: &str,
    line: Tokens<'_>,
) -> Result<(), Fault> {
    match name {
        "set" => make(rt, line, |(a, b, v)| change::set(store, world, a, b, v)),
        "set_strict" => make(
            rt,
            line,
            |(a, b, v)| change::set_strict(store, world, a, b, v),
        ),
        "flip" => make(rt, line, |(a, b)| change::flip(store, world, a, b)),
        "flip_strict" => make(rt, line, |(a, b)| change::flip_strict(store, world, a, b)),
        "set_rect" => make(rt, line, |(q, v)| cells::set_rect(store, world, q, v)),
        "shift" => make(rt, line, |(d, left)| change::shift(store, world, d, left)),
        "load" => make(
            rt,
            line,
            |set: Bytes<1029>| bytes::load(store, world, set.0.as_slice()),
        ),
        "mend" => make(
            rt,
            line,
            |(set, out, notes): (Bytes<1029>, Lent<u8, 1029>, Lent<u8, 1029>)| {
                mend(store, world, set.0.as_slice(), out.0, notes.0)
            },
        ),
        "build" => make(
            rt,
            line,
            |runs: Pairs<128>| bytes::from_sorted_words(store, world, runs.0.as_slice()),
        ),
        "read_map" => make(rt, line, |(base, window, map): (u64, u64, Bytes<1024>)| {
            bytes::read_map(store, world, base, window, map.0.as_slice())
        }),
        _ => report_named(rt, store, world, name, line),
    }
}

// ---- reports
fn report_named(
    rt: &impl Print,
    store: &[u64],
    world: u64,
    name: &str,
    line: Tokens<'_>,
) -> Result<(), Fault> {
    match name {
        "get" => make(rt, line, |x| report::get(store, world, x)),
        "run_at" => make(rt, line, |x| report::run_at(store, world, x)),
        "find" => make(rt, line, |(a, b, v)| report::find(store, world, a, b, v)),
        "tally" => make(rt, line, |(a, b, v)| report::tally(store, world, a, b, v)),
        "tally_strict" => make(
            rt,
            line,
            |(a, b, v)| report::tally_strict(store, world, a, b, v),
        ),
        "select" => make(
            rt,
            line,
            |(a, b, v, k)| report::select(store, world, a, b, v, k),
        ),
        "gap" => make(rt, line, |(a, b, n)| report::gap(store, world, a, b, n)),
        "ranges" => make(rt, line, |(a, b, v)| report::ranges(store, world, a, b, v)),
        "draw_front" => make(rt, line, |l: Listing| report::draw_front(store, world, l)),
        "draw_back" => make(rt, line, |l: Listing| report::draw_back(store, world, l)),
        "fill" => make(
            rt,
            line,
            |(base, window)| report::fill(store, world, base, window),
        ),
        "count_rect" => make(rt, line, |q| cells::count_rect(store, world, q)),
        "survey" => make(
            rt,
            line,
            |(row, column, k, out): (u64, u64, u64, Lent<u64, 128>)| {
                answer::filled(out, |out| cells::survey(store, world, row, column, k, out))
            },
        ),
        "write_set" => make(rt, line, |(edition, out): (u64, Lent<u8, 1029>)| {
            answer::filled(
                out,
                |out| write::write_set(store, world, Edition::from(edition), out),
            )
        }),
        "write_map" => make(
            rt,
            line,
            |(base, window, out): (u64, u64, Lent<u8, 1029>)| {
                answer::filled(out, |out| write::write_map(store, world, base, window, out))
            },
        ),
        _ => Err(Fault::NotUnderstood),
    }
}
