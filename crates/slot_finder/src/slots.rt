//! The first moment from which enough seconds are free.

ghost use Rattle.std.specs.Prelude.{◌<◌, All, MatchOption, ℤ};
ghost use Rattle.slot_finder.specs.FreeTimes.{AreInOrder, IsEarliest, IsSlot, free_of_runs};

use crate::calendars::{GUESSES, moved_on};
use crate::fits::has_room;
use cal_base::List;
use cal_model::Range;
use cal_moment::Utc;
use freebusy::Run;

/// The first moment of a range from which so many seconds are free in all calendars and lie in the
/// range; none where there is no such moment. Each calendar is given by its runs, in order. A second is
/// free where no run holds it, whatever its class. Takes no memory.
pub fn earliest(runs: &List<List<Run>>, range: Range, seconds: u32) -> Option<Utc>
    requires order { All AreInOrder runs.now }
    requires some { 0 < seconds }
    ensures { MatchOption result ((at : ℤ) → ¬ IsSlot (free_of_runs runs.now) range seconds at) (λ at. IsEarliest (free_of_runs runs.now) range seconds at.0) }
{
    let mut at = range.start.0;
    let mut guesses = [0; GUESSES];
    'passes: while has_room(at, range.end.0, seconds) {
        let next = moved_on(runs.as_slice(), at, seconds, &mut guesses);
        if next == at {
            return Some(Utc(at));
        }
        at = next;
    }
    None
}
