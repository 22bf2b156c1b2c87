//! What a user sees at the parts of a path, each for itself.
ghost use Rattle.std.specs.Prelude.{◌≡◌, ◌<◌, ◌&&◌, ℕ, length, IfSome, Option, Some, option_map};
ghost use Rattle.cal_model.specs.Sight.Scenes.{at_both, calendar_in, object_in, octets_seen};
ghost use Rattle.cal_model.specs.State.SoundStates.{IsSound};
ghost use Rattle.request_checks.specs.declared.looks.Look.{Look as Looks};
ghost use Rattle.request_checks.specs.Sightings as sightings;

use crate::looks::{Look, shows_objects};
use crate::path_names::{calendar_name, names_home, user_name};
use crate::walks::shows_home;
use cal_base::Arc;
use cal_model::view::View;
use cal_model::{CalendarData, Path, Stored};
use privileges::held;

/// The user whose name a path has.
pub(crate) fn user_at<V: View>(view: &V, path: &Path) -> Option<u32>
    ensures user { result ≡ sightings.user_seen (V.directory view.now) path.now }
    ensures known { IfSome result (λ user. user < length (V.directory view.now).names) }
{
    match user_name(path) {
        Some(name) => view.find_user(name),
        None => None,
    }
}

/// Whether a path is that of a group's principal.
pub(crate) fn is_group<V: View>(view: &V, path: &Path) -> bool
    ensures { result ≡ sightings.names_group (V.directory view.now) path.now }
{
    match path {
        Path::Principal(name) => view.find_group(name.as_slice()).is_some(),
        _ => false,
    }
}

/// The calendar of a name in a user's home, with the privileges held on it.
fn look_up<'a, V: View>(
    view: &'a V,
    owner: u32,
    name: &[u8],
    who: u32,
) -> Option<(u16, &'a CalendarData)>
    requires { who < length (V.directory view.now).names }
    ensures held { (look : Looks) → sightings.held_of result ≡ sightings.held_on_sight (sightings.calendar_seen look (V.directory view.now) (V.state view.now) who (Some owner) (Some name.now)) }
    ensures kept { IfSome result (λ p. sightings.IsDataAt (V.state view.now) (Some owner) (Some name.now) p.1.now) }
    ensures sound { IsSound (V.directory view.now) (V.state view.now) }
{
    let Some(kept) = view.calendar(owner, name) else {
        return None;
    };
    let held = held(&kept.acl, owner, who, view).0;
    if held == 0 { None } else { Some((held, kept)) }
}

/// The calendar that a path names, once its user is known.
pub(crate) fn calendar_at<'a, V: View>(
    view: &'a V,
    user: Option<u32>,
    path: &Path,
    who: u32,
) -> Option<(u16, &'a CalendarData)>
    requires { who < length (V.directory view.now).names }
    ensures held { (look : Looks) → sightings.held_of result ≡ sightings.held_on_sight (sightings.calendar_seen look (V.directory view.now) (V.state view.now) who user (calendar_in path.now)) }
    ensures kept { IfSome result (λ p. sightings.IsDataAt (V.state view.now) user (calendar_in path.now) p.1.now) }
    ensures sound { sightings.IsSoundAt user (calendar_in path.now) (V.directory view.now) (V.state view.now) }
{
    let Some(owner) = user else {
        return None;
    };
    match calendar_name(path) {
        Some(name) => look_up(view, owner, name, who),
        None => None,
    }
}

/// Whether the home that a path names is visible, once it is known what its calendar is.
pub(crate) fn home_at<V: View>(
    view: &V,
    user: Option<u32>,
    path: &Path,
    calendar: &Option<(u16, &CalendarData)>,
    who: u32,
) -> bool
    requires known { IfSome user (λ owner. owner < length (V.directory view.now).names) }
    requires who { who < length (V.directory view.now).names }
    requires calendar { (look : Looks) → sightings.held_of calendar.now ≡ sightings.held_on_sight (sightings.calendar_seen look (V.directory view.now) (V.state view.now) who user (calendar_in path.now)) }
    ensures { (look : Looks) → result ≡ (sightings.names_home path.now && sightings.home_shows look (V.directory view.now) (V.state view.now) who user) }
{
    if !names_home(path) {
        return false;
    }
    if calendar.is_some() {
        return true;
    }
    match user {
        Some(owner) => shows_home(view, owner, who),
        None => false,
    }
}

/// The privileges held on a calendar that may be there.
pub(crate) fn held_on(calendar: &Option<(u16, &CalendarData)>) -> u16
    ensures { result ≡ sightings.held_or_nothing (sightings.held_of calendar.now) }
{
    match calendar {
        Some((held, _)) => *held,
        None => 0,
    }
}

/// The object that a path names, once it is known what its calendar is.
pub(crate) fn object_at<'a, V: View>(
    view: &'a V,
    user: Option<u32>,
    path: &Path,
    look: Look,
    calendar: &Option<(u16, &CalendarData)>,
    who: u32,
) -> Option<(&'a Arc<Stored>, u64)>
    requires held { sightings.held_of calendar.now ≡ sightings.held_on_sight (sightings.calendar_seen look (V.directory view.now) (V.state view.now) who user (calendar_in path.now)) }
    requires sound { sightings.IsSoundAt user (calendar_in path.now) (V.directory view.now) (V.state view.now) }
    ensures octets { sightings.octets_lent result ≡ at_both (octets_seen (sightings.calendar_seen look (V.directory view.now) (V.state view.now) who user (calendar_in path.now))) (object_in path.now) }
    ensures origin { IfSome result (λ p. sightings.IsOriginAt (V.origins view.now) user path.now p.1) }
{
    let Some(owner) = user else {
        return None;
    };
    let Path::Object(_, within, name) = path else {
        return None;
    };
    if shows_objects(look, held_on(calendar)) {
        view.object(owner, within.as_slice(), name.as_slice())
    } else {
        None
    }
}
