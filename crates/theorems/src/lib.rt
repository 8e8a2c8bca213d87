//! The theorems. A function here has no parameters, does nothing and is called by nobody: its contract is theorems, each named as its statement in
//! `specs/` is, and the check proves them. They speak of nothing but what the public calls promise.
#![tactic(auto)]

ghost use Rattle.theorems.specs.Determinism.{Determinism};
ghost use Rattle.theorems.specs.Tables.{Cases-hold, Worked-hold, Columns-back};
ghost use Rattle.theorems.specs.Theorems.{Equal-bytes, Room-suffices, Equal-pools, Framed-wrote, Floor-reached, Sum-alone, Sum-alone-lists};
ghost use Rattle.theorems.specs.Theorems.{Cleared-reads, Cleared-once, Written-stays, Forms-agree, Fill-none, Fill-full};
ghost use Rattle.theorems.specs.Theorems.{Converted-back, Converted-loads, Loads-converts, Old-reader, Mended-right, Mended-loads, Mended-floor};
ghost use Rattle.theorems.specs.Theorems.{Survey-parts, Deepest-height, Deepest-room, Deepest-shortest, Why-smallest, Why-none, Why-exact};
ghost use Rattle.theorems.specs.Equal.{Equal-answers};
ghost use Rattle.theorems.specs.Laws.{Counts-add, Shift-through, Shifted-through, Shifted-is-shift, Shifts-add, Shifts-empty, Shifted-add, Shifted-empty};
ghost use Rattle.theorems.specs.Laws.{Left-right, Left-right-clears, Shifted-left-right, Right-left, Shift-unrefused, Unrefused-shifted, Converse-fails};
ghost use Rattle.theorems.specs.Swaps.{Reports-swap, Worlds-swap, Overwritten, Ranges-swap, Sets-swap, Sets-one-value, Set-covered};
ghost use Rattle.theorems.specs.Swaps.{Flips-swap, Flip-undone, Shifts-swap, Set-strict, Flip-strict};

/// Whole plays: calls singly and in frames.
pub fn whole_plays()
    ensures determinism { Determinism }
    ensures equal_pools { Equal-pools }
    ensures framed_wrote { Framed-wrote }
{}

/// Worlds that share a pool.
pub fn worlds()
    ensures floor_reached { Floor-reached }
    ensures sum_alone { Sum-alone }
    ensures sum_alone_lists { Sum-alone-lists }
{}

/// Maps, and how full a window is.
pub fn maps()
    ensures cleared_reads { Cleared-reads }
    ensures cleared_once { Cleared-once }
    ensures written_stays { Written-stays }
    ensures forms_agree { Forms-agree }
    ensures fill_none { Fill-none }
    ensures fill_full { Fill-full }
{}

/// Written sets of both editions, converted and mended.
pub fn written_sets()
    ensures equal_bytes { Equal-bytes }
    ensures room_suffices { Room-suffices }
    ensures converted_back { Converted-back }
    ensures converted_loads { Converted-loads }
    ensures loads_converts { Loads-converts }
    ensures old_reader { Old-reader }
    ensures mended_right { Mended-right }
    ensures mended_loads { Mended-loads }
    ensures mended_floor { Mended-floor }
{}

/// Surveys of squares.
pub fn square_surveys()
    ensures survey_parts { Survey-parts }
{}

/// The deepest tree, and why a list of ranges was refused.
pub fn measures()
    ensures deepest_height { Deepest-height }
    ensures deepest_room { Deepest-room }
    ensures deepest_shortest { Deepest-shortest }
    ensures why_smallest { Why-smallest }
    ensures why_none { Why-none }
    ensures why_exact { Why-exact }
{}

/// The plain model alone.
pub fn tables()
    ensures cases_hold { Cases-hold }
    ensures worked_hold { Worked-hold }
    ensures columns_back { Columns-back }
{}

// ---- laws, for whoever reorders calls
/// Counts of joined sets.
pub fn counts()
    ensures counts_add { Counts-add }
{}

/// Shifts of joined sets, and one shift after another.
pub fn shifts()
    ensures shift_through { Shift-through }
    ensures shifted_through { Shifted-through }
    ensures shifted_is_shift { Shifted-is-shift }
    ensures shifts_add { Shifts-add }
    ensures shifts_empty { Shifts-empty }
    ensures shifted_add { Shifted-add }
    ensures shifted_empty { Shifted-empty }
    ensures left_right { Left-right }
    ensures left_right_clears { Left-right-clears }
    ensures shifted_left_right { Shifted-left-right }
    ensures right_left { Right-left }
    ensures shifts_swap { Shifts-swap }
{}

/// Which shifts, and joins of shifted sets, are not refused.
pub fn refusals()
    ensures shift_unrefused { Shift-unrefused }
    ensures unrefused_shifted { Unrefused-shifted }
    ensures converse_fails { Converse-fails }
{}

/// Worlds that hold the same positions.
pub fn equal_sets()
    ensures equal_answers { Equal-answers }
{}

/// Which calls may be swapped.
pub fn swaps()
    ensures reports_swap { Reports-swap }
    ensures worlds_swap { Worlds-swap }
    ensures ranges_swap { Ranges-swap }
    ensures sets_swap { Sets-swap }
    ensures sets_one_value { Sets-one-value }
    ensures flips_swap { Flips-swap }
{}

/// Which calls are needless.
pub fn needless()
    ensures overwritten { Overwritten }
    ensures set_covered { Set-covered }
    ensures flip_undone { Flip-undone }
{}

/// Strict calls that are not refused.
pub fn strict()
    ensures set_strict { Set-strict }
    ensures flip_strict { Flip-strict }
{}
