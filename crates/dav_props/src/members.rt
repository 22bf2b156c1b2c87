//! The members of a collection in the reply to a PROPFIND of depth 1 (RFC 4918, 9.1).
ghost use Rattle.std.specs.Prelude.{◌≡◌, ◌<◌, ◌++◌, ℕ, List, Some, OnOk, length, flat_map};
ghost use Rattle.cal_model.specs.declared.path.Path.TheVariants.{Home as HomePath, Calendar as CalendarPath, Object as ObjectPath};
ghost use Rattle.cal_model.specs.Access.Privileges.{privileges_held};
ghost use Rattle.cal_model.specs.Refusals.RequestLimits.{answer_limit};
ghost use Rattle.cal_model.specs.Replies.Hrefs.{href as href_of};
ghost use Rattle.cal_model.specs.Sight.Views.{Sight};
ghost use Rattle.cal_model.specs.State.ServerState.{Calendar};
ghost use Rattle.cal_model.specs.State.SoundStates.{AreToUsers};
ghost use Rattle.cal_model.specs.State.StoredData.{data_of};
ghost use Rattle.object_walk.specs.WalkedObjects.{objects_at};
ghost use Rattle.dav_props.specs.Finding.{IsUpTo, calendar_text, calendars_of, members_text, names_asked, object_text, with_last};

use crate::subjects::{Subject, has_all};
use crate::telling::push_resource;
use cal_base::{NoMemory, Octets};
use cal_model::privilege::READ;
use cal_model::view::View;
use cal_model::{ANSWER_LIMIT, CalendarData, Path, PropName, Props, Seen, Stored};
use dav_write::append_path;
use object_walk::Walks;
use privileges::held;
use std::alloc::Global;

/// Appends the responses of the members of what is seen at a path, until the reply is too long.
pub(crate) fn push_members<V: Walks>(
    alloc: Global,
    seen: &Seen<'_, V>,
    path: &Path,
    props: &Props,
    named: &[PropName],
    href: &mut Octets,
    out: &mut Octets,
) -> Result<(), NoMemory>
    requires user { seen.now.who < length (V.directory seen.now.view.now).names }
    requires named { named.now ≡ names_asked props.now }
    ensures { OnOk result (IsUpTo answer_limit out.new (out.old ++ members_text (V.directory seen.now.view.now) (V.state seen.now.view.now) seen.now.who props.now path.now)) }
{
    match path {
        Path::Home(user) => push_home_members(alloc, seen, user, props, named, href, out),
        Path::Calendar(user, name) => {
            push_calendar_members(alloc, seen, user, name, props, named, href, out)
        }
        _ => Ok(()),
    }
}

/// Appends the responses of the visible calendars of a user's home.
fn push_home_members<V: View>(
    alloc: Global,
    seen: &Seen<'_, V>,
    user: &Octets,
    props: &Props,
    named: &[PropName],
    href: &mut Octets,
    out: &mut Octets,
) -> Result<(), NoMemory>
    requires user { seen.now.who < length (V.directory seen.now.view.now).names }
    requires named { named.now ≡ names_asked props.now }
    ensures { OnOk result (IsUpTo answer_limit out.new (out.old ++ members_text (V.directory seen.now.view.now) (V.state seen.now.view.now) seen.now.who props.now (HomePath user.now))) }
{
    let Some(owner) = seen.view.find_user(user.as_slice()) else {
        return Ok(());
    };
    let mut member = Path::Calendar(Octets::of(alloc, user.as_slice())?, Octets::new(alloc));
    push_calendars(
        alloc,
        seen,
        owner,
        user.as_slice(),
        props,
        named,
        &mut member,
        href,
        out,
    )
}

/// Appends the responses of the visible calendars of a home.
fn push_calendars<V: View>(
    alloc: Global,
    seen: &Seen<'_, V>,
    owner: u32,
    user: &[u8],
    props: &Props,
    named: &[PropName],
    member: &mut Path,
    href: &mut Octets,
    out: &mut Octets,
) -> Result<(), NoMemory>
    requires user { seen.now.who < length (V.directory seen.now.view.now).names }
    requires named { named.now ≡ names_asked props.now }
    requires member { (name : List ℕ) → with_last member.old name ≡ CalendarPath user.now name }
    ensures { OnOk result (IsUpTo answer_limit out.new (out.old ++ flat_map (calendar_text (V.directory seen.now.view.now) seen.now.who props.now owner user.now) (calendars_of (V.state seen.now.view.now) owner))) }
{
    let mut last: &[u8] = &[];
    'calendars: while let Some((name, kept)) = seen.view.calendar_after(owner, last) {
        if out.len() > ANSWER_LIMIT {
            return Ok(());
        }
        push_calendar(
            alloc, seen, owner, user, name, kept, props, named, member, href, out,
        )?;
        last = name;
    }
    Ok(())
}

/// Appends the response of a calendar, where it is visible.
fn push_calendar<V: View>(
    alloc: Global,
    seen: &Seen<'_, V>,
    owner: u32,
    user: &[u8],
    name: &[u8],
    kept: &CalendarData,
    props: &Props,
    named: &[PropName],
    member: &mut Path,
    href: &mut Octets,
    out: &mut Octets,
) -> Result<(), NoMemory>
    requires user { seen.now.who < length (V.directory seen.now.view.now).names }
    requires users { AreToUsers (V.directory seen.now.view.now) kept.now.acl.grants }
    requires named { named.now ≡ names_asked props.now }
    requires member { (name : List ℕ) → with_last member.old name ≡ CalendarPath user.now name }
    ensures member { OnOk result ((name : List ℕ) → with_last member.new name ≡ CalendarPath user.now name) }
    ensures text { OnOk result ((c : Calendar) → kept.now ≡ data_of owner c → out.new ≡ out.old ++ calendar_text (V.directory seen.now.view.now) seen.now.who props.now owner user.now (name.now, c)) }
{
    let held = held(&kept.acl, owner, seen.who, seen.view).0;
    if held == 0 {
        return Ok(());
    }
    write_member(member, name, href)?;
    let subject = Subject::Calendar(user, held, kept);
    push_resource(alloc, seen, props, named, href.as_slice(), &subject, out)
}

/// Appends the responses of the objects of a calendar, where they are seen.
fn push_calendar_members<V: Walks>(
    alloc: Global,
    seen: &Seen<'_, V>,
    user: &Octets,
    calendar: &Octets,
    props: &Props,
    named: &[PropName],
    href: &mut Octets,
    out: &mut Octets,
) -> Result<(), NoMemory>
    requires user { seen.now.who < length (V.directory seen.now.view.now).names }
    requires named { named.now ≡ names_asked props.now }
    ensures { OnOk result (IsUpTo answer_limit out.new (out.old ++ members_text (V.directory seen.now.view.now) (V.state seen.now.view.now) seen.now.who props.now (CalendarPath user.now calendar.now))) }
{
    let Some(owner) = seen.view.find_user(user.as_slice()) else {
        return Ok(());
    };
    let Some(kept) = seen.view.calendar(owner, calendar.as_slice()) else {
        return Ok(());
    };
    let held = held(&kept.acl, owner, seen.who, seen.view).0;
    if !has_all(held, READ) {
        return Ok(());
    }
    push_read_members(
        alloc, seen, owner, held, user, calendar, props, named, href, out,
    )
}

/// Appends the responses of the objects of a calendar that are there, given the privileges held on it.
fn push_read_members<V: Walks>(
    alloc: Global,
    seen: &Seen<'_, V>,
    owner: u32,
    held: u16,
    user: &Octets,
    calendar: &Octets,
    props: &Props,
    named: &[PropName],
    href: &mut Octets,
    out: &mut Octets,
) -> Result<(), NoMemory>
    requires user { seen.now.who < length (V.directory seen.now.view.now).names }
    requires named { named.now ≡ names_asked props.now }
    ensures { OnOk result ((sight : Sight) → sight.held ≡ held → IsUpTo answer_limit out.new (out.old ++ flat_map (object_text (V.directory seen.now.view.now) seen.now.who props.now user.now calendar.now sight) (objects_at (V.state seen.now.view.now) owner calendar.now))) }
{
    let mut member = Path::Object(
        Octets::of(alloc, user.as_slice())?,
        Octets::of(alloc, calendar.as_slice())?,
        Octets::new(alloc),
    );
    push_objects(
        alloc,
        seen,
        owner,
        held,
        user.as_slice(),
        calendar.as_slice(),
        props,
        named,
        &mut member,
        href,
        out,
    )
}

/// Appends the responses of the objects of a calendar.
fn push_objects<V: Walks>(
    alloc: Global,
    seen: &Seen<'_, V>,
    owner: u32,
    held: u16,
    user: &[u8],
    calendar: &[u8],
    props: &Props,
    named: &[PropName],
    member: &mut Path,
    href: &mut Octets,
    out: &mut Octets,
) -> Result<(), NoMemory>
    requires user { seen.now.who < length (V.directory seen.now.view.now).names }
    requires named { named.now ≡ names_asked props.now }
    requires member { (name : List ℕ) → with_last member.old name ≡ ObjectPath user.now calendar.now name }
    ensures { OnOk result ((sight : Sight) → sight.held ≡ held → IsUpTo answer_limit out.new (out.old ++ flat_map (object_text (V.directory seen.now.view.now) seen.now.who props.now user.now calendar.now sight) (objects_at (V.state seen.now.view.now) owner calendar.now))) }
{
    'walk: for (stored, _) in seen.view.objects(owner, calendar) {
        if out.len() > ANSWER_LIMIT {
            return Ok(());
        }
        push_object(
            alloc, seen, held, user, calendar, stored, props, named, member, href, out,
        )?;
    }
    Ok(())
}

/// Appends the response of an object.
fn push_object<V: View>(
    alloc: Global,
    seen: &Seen<'_, V>,
    held: u16,
    user: &[u8],
    calendar: &[u8],
    stored: &Stored,
    props: &Props,
    named: &[PropName],
    member: &mut Path,
    href: &mut Octets,
    out: &mut Octets,
) -> Result<(), NoMemory>
    requires user { seen.now.who < length (V.directory seen.now.view.now).names }
    requires named { named.now ≡ names_asked props.now }
    requires member { (name : List ℕ) → with_last member.old name ≡ ObjectPath user.now calendar.now name }
    ensures member { OnOk result ((name : List ℕ) → with_last member.new name ≡ ObjectPath user.now calendar.now name) }
    ensures text { OnOk result ((sight : Sight) → sight.held ≡ held → out.new ≡ out.old ++ object_text (V.directory seen.now.view.now) seen.now.who props.now user.now calendar.now sight (stored.now.path.object, stored.now.octets)) }
{
    write_member(member, stored.path.object.as_slice(), href)?;
    let subject = Subject::Object(user, held, stored);
    push_resource(alloc, seen, props, named, href.as_slice(), &subject, out)
}

/// Puts a name in the place of the last one of a path, and writes the path.
fn write_member(member: &mut Path, name: &[u8], href: &mut Octets) -> Result<(), NoMemory>
    ensures member { OnOk result (member.new ≡ with_last member.old name.now) }
    ensures href { OnOk result (href.new ≡ href_of (with_last member.old name.now)) }
{
    set_last(member, name)?;
    write_href(member, href)
}

/// Puts a name in the place of the last one of a path.
fn set_last(member: &mut Path, name: &[u8]) -> Result<(), NoMemory>
    ensures { OnOk result (member.new ≡ with_last member.old name.now) }
{
    match member {
        Path::Calendar(_, last) => put_in(last, name),
        Path::Object(_, _, last) => put_in(last, name),
        _ => Ok(()),
    }
}

/// Puts a name in the place of another.
fn put_in(place: &mut Octets, name: &[u8]) -> Result<(), NoMemory>
    ensures { OnOk result (place.new ≡ name.now) }
{
    place.truncate(0);
    place.extend_from_slice(name)
}

/// Writes a path in the place of what a buffer has.
pub(crate) fn write_href(path: &Path, href: &mut Octets) -> Result<(), NoMemory>
    ensures { OnOk result (href.new ≡ href_of path.now) }
{
    href.truncate(0);
    append_path(path, href)
}
