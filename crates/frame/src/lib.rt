// A frame's calls at once: one look at the pool, then every call of a list on its worlds, in order; refused calls too, each answered by its
// number. Calls and answers are records of eight words.
#![tactic(auto)]

ghost use Rattle.std.specs.Prelude.{◌≡◌, ◌+◌, ◌*◌, ◌/◌, ◌≤◌, length};
ghost use Rattle.model.specs.Answers.{completed_answer};
ghost use Rattle.codec.specs.Placed.{placed};
ghost use Rattle.frame.specs.Frame.{Framed};
ghost use Rattle.frame.specs.Records.{rect_by};
ghost use Rattle.flat.specs.Records.{words_of};
ghost use Rattle.frame.specs.Serving.{Serves, Playable, Plays};

use crate::entry::{Entry, Kind};
use flat::Reply;
use interval_bit_set::checked::Pool;
use model::between::Range;
use model::{Listing, Rect, Refusal};

pub mod entry;

// The rectangle that a record tells.
// No From: a record is also read as bounds or as a listing, and the name says which is meant.
fn rect(e: Entry) -> Rect
    ensures { result ≡ rect_by e }
{
    Rect {
        top: e.lower,
        left: e.from,
        bottom: e.upper,
        right: e.upto,
    }
}

// Serves one call on a pool.
// A match and no table: each call takes other words of the record, and the arm names them.
fn serve(pool: &mut Pool<'_>, e: Entry) -> Reply
    ensures serves { Serves pool.old.words.now e result pool.new.words.now }
    ensures same_loan { pool.new.words.ghost_name ≡ pool.old.words.ghost_name }
{
    let Some(world) = entry::world_of(e) else {
        return flat::lay::<()>(Err(Refusal::WorldUnopened));
    };
    let Range { lower, upper } = flat::range(e.lower, e.from, e.upper, e.upto);
    let value = e.value != 0;
    let left = Listing {
        first: e.from,
        last: e.upto,
        value,
    };
    match Kind::from(e.call) {
        Kind::Empty => flat::lay(pool.empty(world)),
        Kind::Set => flat::lay(pool.set(world, lower, upper, value)),
        Kind::Flip => flat::lay(pool.flip(world, lower, upper)),
        Kind::Shift => flat::lay(pool.shift(world, e.from, value)),
        Kind::RunAt => flat::lay(pool.read().run_at(world, e.from)),
        Kind::Find => flat::lay(pool.read().find(world, lower, upper, value)),
        Kind::Select => flat::lay(pool.read().select(world, lower, upper, value, e.k)),
        Kind::Ranges => flat::lay(pool.read().ranges(world, lower, upper, value)),
        Kind::DrawFront => flat::lay(pool.read().draw_front(world, left)),
        Kind::DrawBack => flat::lay(pool.read().draw_back(world, left)),
        Kind::Fill => flat::lay(pool.read().fill(world, e.from, e.upto)),
        Kind::Gap => flat::lay(pool.read().gap(world, lower, upper, e.k)),
        Kind::Tally => flat::lay(pool.read().tally(world, lower, upper, value)),
        Kind::SetStrict => flat::lay(pool.set_strict(world, lower, upper, value)),
        Kind::FlipStrict => flat::lay(pool.flip_strict(world, lower, upper)),
        Kind::TallyStrict => flat::lay(pool.read().tally_strict(world, lower, upper, value)),
        Kind::SetRect => flat::lay(pool.set_rect(world, rect(e), value)),
        Kind::CountRect => flat::lay(pool.read().count_rect(world, rect(e))),
        Kind::Get => flat::lay(pool.read().get(world, e.from)),
    }
}

// Writes a reply as the record i of a list.
// By number, and not into a chunk that is lent: of a slice that was lent in chunks to be written, only the length is known afterwards.
fn put(answers: &mut [u64], i: usize, r: Reply)
    requires { 8 * i + 8 ≤ length answers.old }
    ensures { answers.new ≡ placed (8 * i) (words_of r) answers.old }
{
    let at = 8 * i;
    answers[at..at + 8].copy_from_slice(&<[u64; 8]>::from(r));
}

// Serves every record of a list. The caller has compared the room for the answers with it.
fn play(pool: &mut Pool<'_>, calls: &[u64], answers: &mut [u64])
    requires { Playable calls.now answers.old (length calls.now / 8) }
    ensures plays { Plays pool.old.words.now calls.now answers.old (length calls.now / 8) pool.new.words.now answers.new }
    ensures same_loan { pool.new.words.ghost_name ≡ pool.old.words.ghost_name }
{
    let (records, _) = calls.as_chunks::<8>();
    for (i, record) in records.iter().enumerate() {
        let r = serve(pool, Entry::from(*record));
        put(answers, i, r);
    }
}

// Serves every call of a list. Refused with 1 or 7 of the pool, or with 2 where the answers do not fit; then nothing has changed.
pub fn frame(words: &mut [u64], calls: &[u64], answers: &mut [u64]) -> Result<(), Refusal>
    ensures { Framed words.old calls.now answers.old (completed_answer result) words.new answers.new }
{
    let worn = interval_bit_set::checked::check(words)?;
    if answers.len() / 8 < calls.len() / 8 {
        return Err(Refusal::OutputShort);
    }
    let mut pool = Pool { words };
    play(&mut pool, calls, answers);
    pool.end(worn, Ok(()))
}
