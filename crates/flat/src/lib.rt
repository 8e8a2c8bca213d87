// Every answer laid flat, as numbers: once for the records of a frame and for the record that crosses to C. And what the numbers mean that come
// in as a range.
// C and the records have words alone: so kinds, refusals and whether something was found are numbers here, and enums and Options on the other side.
#![tactic(auto)]

ghost use Rattle.std.specs.Prelude.{◌≡◌, [], cond, Some, None};
ghost use Rattle.model.specs.Answers.{answer_by, completed_answer};
ghost use Rattle.model.specs.Range.{named, bound_by, range_by};
ghost use Rattle.model.specs.Numbers.{worth, refusal_number};
ghost use Rattle.model.specs.Call.{Result, gave, done, number, tallied, value, around, position, listing, drawn, written, mended};
ghost use Rattle.flat.specs.Flat.{result_reply, reply_of};
ghost use Rattle.flat.specs.Records.{words_of, code_of, recorded};

use model::between::Range;
use model::{Bound, Count, Drawn, Listing, Mended, Refusal, Run, Tally};

// An answer: the refusal's number, 0 where there is none, and then what the call gives, with zeros elsewhere. `found` is also a count's carry;
// `number` is a count's low word, a number, a value, a position, a number of bytes, or the start of a run, and `end` its end, or the number of
// bytes of a second slice; of a tally `found` and `number` are the positions' carry and low word, and `end` is the number of runs; `first`, `last`
// and `value` are a listing.
#[derive(Clone, Copy, Default)]
pub struct Reply {
    pub refusal: u64,
    pub found: u64,
    pub number: u64,
    pub end: u64,
    pub first: u64,
    pub last: u64,
    pub value: u64,
}

// The record of eight words: its fields in their order, and a 0.
impl From<Reply> for [u64; 8] {
    ghost from_gives = { λ r ws. ws ≡ words_of r };

    fn from(r: Reply) -> [u64; 8] {
        [
            r.refusal, r.found, r.number, r.end, r.first, r.last, r.value, 0,
        ]
    }
}

// A bound, where its kind is named: kind 1 includes the value, 2 excludes it, 3 is no bound.
#[tactic(auto, unfolding(model::specs::Range::named, model::specs::Range::bound_by))]
fn bound(kind: u64, value: u64) -> Option<Bound>
    ensures { result ≡ cond (named kind) (Some (bound_by kind value)) None }
{
    match kind {
        1 => Some(Bound::Included(value)),
        2 => Some(Bound::Excluded(value)),
        3 => Some(Bound::Unbounded),
        _ => None,
    }
}

// The range of two bounds, each a kind and a value. It is empty where either kind is not named: words that nobody wrote are zeros, and select no
// position.
// A function of four words, as a frame's record and a list of ranges have them: a tuple for a From would not say which of them are kinds.
#[tactic(auto, unfolding(model::specs::Range::range_by))]
pub fn range(lower_kind: u64, lower: u64, upper_kind: u64, upper: u64) -> Range
    ensures { result ≡ range_by lower_kind lower upper_kind upper }
{
    match (bound(lower_kind, lower), bound(upper_kind, upper)) {
        (Some(lower), Some(upper)) => Range { lower, upper },
        _ => Range {
            lower: Bound::Included(0),
            upper: Bound::Excluded(0),
        },
    }
}

// What a call gives, laid flat.
pub trait Gift {
    // What the model says was given. Of bytes that were written it has none here: they lie in the slices of the caller.
    ghost given: { Self → Result };

    fn laid(self) -> Reply
        ensures { result ≡ result_reply (given self) };
}

// The answer of a call, flat.
// As a From it would read no shorter (`Reply::from`), and its promise would stand apart from it.
pub fn lay<T: Gift>(answer: Result<T, Refusal>) -> Reply
    ensures { result ≡ reply_of (answer_by (λ x. gave (T.given x)) answer) }
{
    match answer {
        Err(r) => Reply {
            refusal: u64::from(r),
            ..Reply::default()
        },
        Ok(x) => x.laid(),
    }
}

// The number of an answer, its refusal's or 0, of a call that gives nothing.
pub fn code(answer: Result<(), Refusal>) -> u64
    ensures { result ≡ code_of (completed_answer answer) }
{
    match answer {
        Err(r) => u64::from(r),
        Ok(()) => 0,
    }
}

// The number of an answer; what it gives goes into a lent record, and a refusal leaves that as it was.
pub fn record<T: Gift>(answer: Result<T, Refusal>, out: &mut [u64; 8]) -> u64
    ensures number { result ≡ code_of (answer_by (λ x. gave (T.given x)) answer) }
    ensures record_ { out.new ≡ recorded (answer_by (λ x. gave (T.given x)) answer) out.old }
{
    match answer {
        Err(r) => u64::from(r),
        Ok(x) => {
            *out = x.laid().into();
            0
        }
    }
}

// Of calls that give nothing.
impl Gift for () {
    ghost given = { λ _. done };

    fn laid(self) -> Reply {
        Reply::default()
    }
}

// How many positions changed.
impl Gift for Count {
    ghost given = { λ c. number (worth c) };

    fn laid(self) -> Reply {
        Reply {
            found: self.carry,
            number: self.low,
            ..Reply::default()
        }
    }
}

// Of thousandths, of bits, or of cells.
impl Gift for u64 {
    ghost given = { λ n. number n };

    fn laid(self) -> Reply {
        Reply {
            number: self,
            ..Reply::default()
        }
    }
}

// How many positions, and in how many runs.
impl Gift for Tally {
    ghost given = { λ t. tallied (worth t.count) t.runs };

    fn laid(self) -> Reply {
        Reply {
            end: self.runs,
            ..self.count.laid()
        }
    }
}

// Whether a position is held, or two sets are equal.
impl Gift for bool {
    ghost given = { λ b. value b };

    fn laid(self) -> Reply {
        Reply {
            number: u64::from(self),
            ..Reply::default()
        }
    }
}

// The run around a position.
impl Gift for Run {
    ghost given = { λ r. around r };

    fn laid(self) -> Reply {
        Reply {
            number: self.start,
            end: self.end,
            ..Reply::default()
        }
    }
}

// A position, if there is one.
impl Gift for Option<u64> {
    ghost given = { λ o. position o };

    fn laid(self) -> Reply {
        match self {
            Some(x) => Reply {
                found: 1,
                number: x,
                ..Reply::default()
            },
            None => Reply::default(),
        }
    }
}

// What is left of a listing.
impl Gift for Listing {
    ghost given = { λ l. listing l };

    fn laid(self) -> Reply {
        Reply {
            first: self.first,
            last: self.last,
            value: u64::from(self.value),
            ..Reply::default()
        }
    }
}

// Of a draw from either end: the run, if one was left, and the listing after it.
impl Gift for Drawn {
    ghost given = { λ d. drawn d.run d.rest };

    fn laid(self) -> Reply {
        let rest = self.rest.laid();
        match self.run {
            Some(x) => Reply {
                found: 1,
                number: x.start,
                end: x.end,
                ..rest
            },
            None => rest,
        }
    }
}

// How many bytes or words were written.
impl Gift for usize {
    ghost given = { λ n. written n [] };

    fn laid(self) -> Reply {
        Reply {
            number: self as u64,
            ..Reply::default()
        }
    }
}

// How many bytes of a mended set were written, and how many of its report.
impl Gift for Mended {
    ghost given = { λ m. mended m.bytes [] m.report [] };

    fn laid(self) -> Reply {
        Reply {
            number: self.bytes as u64,
            end: self.report as u64,
            ..Reply::default()
        }
    }
}
