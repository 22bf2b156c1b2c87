//! Resources as a user sees them, as far as their properties show them.
ghost use Rattle.std.specs.Prelude.{◌≡◌, ◌<◌, ℕ, [], ◌∷◌, length, Option, IfSome, IfNone, Some, None, IsTrue};
ghost use Rattle.cal_model.specs.Access.Privileges as privilege;
ghost use Rattle.cal_model.specs.declared.path.Path.TheVariants.{Principal as PrincipalPath};
ghost use Rattle.cal_model.specs.State.ServerState.{ServerState};
ghost use Rattle.cal_model.specs.Sight.Resources.{held_of};
ghost use Rattle.cal_model.specs.Serving.SeenResources.{resources_seen};
ghost use Rattle.dav_props.specs.Contents.{held_at};
ghost use Rattle.dav_props.specs.Rows.{is_on as is_at};
ghost use Rattle.dav_props.specs.Subjects.{Unseen, resource_of, IsSeenAs, IsCalendarSeen, IsObjectSeen};

use crate::rows::Place;
use cal_base::Octets;
use cal_model::privilege::{ALL, READ};
use cal_model::view::View;
use cal_model::{CalendarData, Path, Seen, Stored};
use privileges::held;

/// What a user sees at a path. With a user's name, the privileges that are held, and what shows the
/// properties.
#[derive(Clone, Copy)]
pub(crate) enum Subject<'a> {
    Root,
    /// The principal of a name that no group has, with the number of its user, if there is one.
    Principal(&'a [u8], Option<u32>),
    /// The principal of a group, with its name and its number.
    Group(&'a [u8], u32),
    Home(&'a [u8]),
    Calendar(&'a [u8], u16, &'a CalendarData),
    Object(&'a [u8], u16, &'a Stored),
}

/// The privileges held on a resource: what has none of its own shows all.
pub(crate) fn held_on(subject: &Subject<'_>) -> u16
    ensures held { result ≡ held_at subject.now }
    ensures seen { (unseen : Unseen) → held_of (resource_of subject.now unseen) ≡ result }
{
    match subject {
        Subject::Root | Subject::Principal(_, _) | Subject::Group(_, _) | Subject::Home(_) => ALL,
        Subject::Calendar(_, held, _) | Subject::Object(_, held, _) => *held,
    }
}

/// Whether some privileges are all in a set.
pub(crate) fn has_all(set: u16, wanted: u16) -> bool
    ensures { result ≡ privilege.has_all set wanted }
{
    set & wanted == wanted
}

/// Whether a resource is one of those at which a property can be.
pub(crate) fn is_on(place: Place, subject: &Subject<'_>) -> bool
    ensures { (unseen : Unseen) → result ≡ is_at place (resource_of subject.now unseen) }
{
    match place {
        Place::Anywhere => true,
        Place::Owned => !matches!(
            subject,
            Subject::Root | Subject::Principal(_, _) | Subject::Group(_, _)
        ),
        Place::Principal => matches!(subject, Subject::Principal(_, _) | Subject::Group(_, _)),
        Place::User => matches!(subject, Subject::Principal(_, _)),
        Place::Group => matches!(subject, Subject::Group(_, _)),
        Place::Calendar => matches!(subject, Subject::Calendar(_, _, _)),
        Place::Named => matches!(
            subject,
            Subject::Principal(_, _) | Subject::Group(_, _) | Subject::Calendar(_, _, _)
        ),
        Place::Object => matches!(subject, Subject::Object(_, _, _)),
    }
}

/// What a user sees at a path, if something is there that is seen. Takes no memory.
pub(crate) fn subject_at<'a, V: View>(seen: &Seen<'a, V>, path: &'a Path) -> Option<Subject<'a>>
    requires { seen.now.who < length (V.directory seen.now.view.now).names }
    ensures some { IfSome result (λ subject. IsSeenAs (V.directory seen.now.view.now) (V.state seen.now.view.now) seen.now.who path.now subject) }
    ensures none { IfNone result (resources_seen (V.directory seen.now.view.now) (V.state seen.now.view.now) seen.now.who path.now ≡ []) }
{
    match path {
        Path::Root => Some(Subject::Root),
        Path::Principal(name) => Some(principal_at(seen, name.as_slice())),
        Path::Home(user) => Some(Subject::Home(user.as_slice())),
        Path::Calendar(user, name) => calendar_at(seen, user, name),
        Path::Object(user, calendar, name) => object_at(seen, user, calendar, name),
    }
}

/// The principal of a name: a group's, or a user's.
fn principal_at<'a, V: View>(seen: &Seen<'a, V>, name: &'a [u8]) -> Subject<'a>
    ensures { IsSeenAs (V.directory seen.now.view.now) (V.state seen.now.view.now) seen.now.who (PrincipalPath name.now) result }
{
    match seen.view.find_group(name) {
        Some(group) => Subject::Group(name, group),
        None => Subject::Principal(name, seen.view.find_user(name)),
    }
}

/// The calendar of a name in a user's home, if it is there and visible.
fn calendar_at<'a, V: View>(
    seen: &Seen<'a, V>,
    user: &'a Octets,
    name: &'a Octets,
) -> Option<Subject<'a>>
    requires { seen.now.who < length (V.directory seen.now.view.now).names }
    ensures { IsCalendarSeen (V.directory seen.now.view.now) (V.state seen.now.view.now) seen.now.who user.now name.now result }
{
    let view: &'a V = seen.view;
    let owner = view.find_user(user.as_slice())?;
    let calendar = view.calendar(owner, name.as_slice())?;
    let held = held(&calendar.acl, owner, seen.who, view).0;
    if held == 0 {
        None
    } else {
        Some(Subject::Calendar(user.as_slice(), held, calendar))
    }
}

/// The object of a name in a calendar, if it is there and its calendar's contents are seen.
fn object_at<'a, V: View>(
    seen: &Seen<'a, V>,
    user: &'a Octets,
    calendar: &'a Octets,
    name: &'a Octets,
) -> Option<Subject<'a>>
    requires { seen.now.who < length (V.directory seen.now.view.now).names }
    ensures { IsObjectSeen (V.directory seen.now.view.now) (V.state seen.now.view.now) seen.now.who user.now calendar.now name.now result }
{
    let view: &'a V = seen.view;
    let owner = view.find_user(user.as_slice())?;
    let data = view.calendar(owner, calendar.as_slice())?;
    let held = held(&data.acl, owner, seen.who, view).0;
    if !has_all(held, READ) {
        return None;
    }
    let (stored, _) = view.object(owner, calendar.as_slice(), name.as_slice())?;
    Some(Subject::Object(user.as_slice(), held, stored))
}
