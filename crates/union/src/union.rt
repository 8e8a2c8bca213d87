// The runs of a list's union, one after another: the entries come in rising order, and each joins the last run or begins one.
ghost use Rattle.std.specs.Prelude.{◌≡◌, []};
ghost use Rattle.std.specs.Iterator.{at_most};
ghost use Rattle.model.specs.Positions.{stretches, mem};
ghost use Rattle.union.specs.Joins.{Joining, OnItsWay, GivesGroup, pending};

use crate::Group;
use crate::places::Places;
use run_lists::RunList;

// The places that come next, and the last run as far as it is known.
#[derive(Drop)]
pub struct Union<L> {
    pub places: Places<L>,
    pub last: Option<Group>,
}

impl<L: RunList + Copy> Union<L> {
    // Of which no run is told yet.
    pub fn of(list: L) -> Union<L>
        ensures { (result.places.list ≡ list) × Joining (L.runs list) [] result }
    {
        Union {
            places: Places::of(list),
            last: None,
        }
    }
}

// The runs, one after another.
impl<L: RunList + Copy> Iterator for Union<L> {
    type Item = Group;

    ghost can_next = { OnItsWay L.runs };

    ghost next_gives = { GivesGroup L.runs };

    ghost remaining = { λ u. at_most (pending u) };

    fn next(&mut self) -> Option<Group> {
        while let Some(place) = self.places.next() {
            let r = self.places.list.run(place);
            let begun = Group::alone(r, place);
            let Some(g) = self.last else {
                self.last = Some(begun);
                continue;
            };
            if !g.reaches(r.start) {
                self.last = Some(begun);
                return Some(g);
            }
            self.last = Some(g.with(r, place));
        }
        self.last.take()
    }
}

// How many runs it has.
pub fn runs_of<L: RunList + Copy>(list: L) -> u64
    ensures { result ≡ stretches (mem (L.runs list)) }
{
    Union::of(list).count() as u64
}
