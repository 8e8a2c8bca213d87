// What a record of a call means. Every record means a call: a number that names none is a get, a range with a bound of another kind is empty,
// and a truth value is anything but 0. The last word of a record names the world, but that 7 and 9 ask at none.
ghost use Rattle.std.specs.Prelude.{◌≡◌};
ghost use Rattle.frame.specs.Records.{entry_at, kind_of, asked_at};

// Which call it is.
#[derive(Clone, Copy)]
pub enum Kind {
    Empty,
    Set,
    Flip,
    Shift,
    RunAt,
    Find,
    Select,
    Ranges,
    DrawFront,
    DrawBack,
    Fill,
    Gap,
    Tally,
    SetStrict,
    FlipStrict,
    TallyStrict,
    SetRect,
    CountRect,
    Get,
}

// The words of a record. `lower` and `upper` are the kinds of the bounds, `from` and `upto` their values. `from` is also the position of get
// and run_at, the distance of shift, the base of fill and the first position of a listing; `upto` is the length of fill and the last position
// of a listing; `value` tells a shift to go left; `k` is also how many positions a gap has. Of a rectangle `lower` and `from` are the row and
// column of its first corner, `upper` and `upto` those of its last.
// The call is a number here, as the record has it; `Kind` says what it means.
#[derive(Clone, Copy)]
pub struct Entry {
    pub call: u64,
    pub lower: u64,
    pub from: u64,
    pub upper: u64,
    pub upto: u64,
    pub value: u64,
    pub k: u64,
    pub world: u64,
}

// The record of eight words: its fields in their order.
impl From<[u64; 8]> for Entry {
    ghost from_gives = { λ ws e. e ≡ entry_at ws 0 };

    #[tactic(auto, unfolding(crate::specs::Records::entry_at))]
    fn from(words: [u64; 8]) -> Entry {
        let [call, lower, from, upper, upto, value, k, world] = words;
        Entry {
            call,
            lower,
            from,
            upper,
            upto,
            value,
            k,
            world,
        }
    }
}

// The call that a number names.
impl From<u64> for Kind {
    ghost from_gives = { λ n k. k ≡ kind_of n };

    #[tactic(auto, unfolding(crate::specs::Records::kind_of))]
    fn from(n: u64) -> Kind {
        match n {
            1 => Kind::Empty,
            2 => Kind::Set,
            3 => Kind::Flip,
            4 => Kind::Shift,
            5 => Kind::RunAt,
            6 => Kind::Find,
            8 => Kind::Select,
            10 => Kind::Ranges,
            11 => Kind::DrawFront,
            12 => Kind::DrawBack,
            13 => Kind::Fill,
            14 => Kind::Gap,
            15 => Kind::Tally,
            16 => Kind::SetStrict,
            17 => Kind::FlipStrict,
            18 => Kind::TallyStrict,
            19 => Kind::SetRect,
            20 => Kind::CountRect,
            _ => Kind::Get,
        }
    }
}

// The world that a record asks at, if it asks at one. 7 and 9 are withdrawn and ask at none: a record of one is refused with 12, and not answered
// as another call.
// No From: the world is one field of a record, and `from` would not say which.
#[tactic(auto, unfolding(crate::specs::Records::asked_at, crate::specs::Records::withdrawn))]
pub fn world_of(e: Entry) -> Option<u64>
    ensures { result ≡ asked_at e }
{
    match e.call {
        7 | 9 => None,
        _ => Some(e.world),
    }
}
