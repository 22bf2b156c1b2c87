//! The room that a home has left (RFC 4918, 11.5).
ghost use Rattle.std.specs.Prelude.{◌≡◌, IsSome};
ghost use Rattle.cal_model.specs.State.ServerState.{home_at};
ghost use Rattle.cal_book.specs.Showing.ShownStates.{shown_state};
ghost use Rattle.cal_book.specs.Checking.Rows.{is_full_at, has_all_calendars_at};

use crate::view::BookView;
use cal_model::CHANGE_COST;

/// What all accepted changes of one home may cost.
const HOME_LIMIT: u64 = 33_554_432;

/// The calendars of a home.
const MOST_CALENDARS: usize = 64;

/// Whether a home has not so much left of what it may accept: a body of so many octets.
pub(crate) fn is_full(view: &BookView<'_>, home: u32, size: u32) -> bool
    requires there { IsSome (home_at (shown_state view.now) home) }
    ensures { result ≡ is_full_at (shown_state view.now) home size }
{
    view.used(home) + (u64::from(size) + CHANGE_COST) > HOME_LIMIT
}

/// Whether a home has as many calendars as it may have.
pub(crate) fn has_all_calendars(view: &BookView<'_>, home: u32) -> bool
    requires there { IsSome (home_at (shown_state view.now) home) }
    ensures { result ≡ has_all_calendars_at (shown_state view.now) home }
{
    view.calendar_count(home) >= MOST_CALENDARS
}
