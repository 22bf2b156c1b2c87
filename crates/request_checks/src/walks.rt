//! Whether a home is visible.
ghost use Rattle.std.specs.Prelude.{◌≡◌, ◌<◌, ◌==◌, not, [], length, Some};
ghost use Rattle.cal_model.specs.Access.Privileges.{privileges_held};
ghost use Rattle.cal_model.specs.State.ServerState.{groups_of};
ghost use Rattle.cal_model.specs.State.NameWalks.{calendars_above};
ghost use Rattle.cal_model.specs.State.SoundStates.{HaveGroups, IsSound};
ghost use Rattle.request_checks.specs.declared.looks.Look.{Look as Looks};
ghost use Rattle.request_checks.specs.Sightings.{home_shows};
ghost use Rattle.request_checks.specs.Walks.{any_held};

use cal_model::CalendarData;
use cal_model::view::View;
use privileges::held;

/// Whether a user holds something on a calendar.
fn holds_something<V: View>(view: &V, kept: &CalendarData, owner: u32, who: u32) -> bool
    requires known { who < length (V.directory view.now).names }
    requires groups { HaveGroups (V.directory view.now) kept.now.acl.grants }
    ensures { result ≡ not (privileges_held (groups_of (V.directory view.now) who) kept.now.acl.grants owner who == 0) }
{
    held(&kept.acl, owner, who, view).0 != 0
}

/// Whether a user holds something on a calendar of a home. A walk over its calendars, up to the first
/// on which this user does.
pub(crate) fn shows_a_calendar<V: View>(view: &V, owner: u32, who: u32) -> bool
    requires { who < length (V.directory view.now).names }
    ensures any { result ≡ any_held (V.directory view.now) owner who (calendars_above (V.state view.now) owner []) }
    ensures sound { IsSound (V.directory view.now) (V.state view.now) }
{
    let mut last: &[u8] = b"";
    'calendars: while let Some((name, kept)) = view.calendar_after(owner, last) {
        if holds_something(view, kept, owner, who) {
            return true;
        }
        last = name;
    }
    false
}

/// Whether a user's home is visible: to its owner, and to others with one of its calendars.
pub(crate) fn shows_home<V: View>(view: &V, owner: u32, who: u32) -> bool
    requires owner { owner < length (V.directory view.now).names }
    requires known { who < length (V.directory view.now).names }
    ensures { (look : Looks) → result ≡ home_shows look (V.directory view.now) (V.state view.now) who (Some owner) }
{
    shows_a_calendar(view, owner, who) || owner == who
}
