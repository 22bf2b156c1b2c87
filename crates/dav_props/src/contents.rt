//! What properties hold, as it is written.
ghost use Rattle.std.specs.Prelude.{◌≡◌, ◌++◌, ◌<◌, OnOk, length, take, decimal};
ghost use Rattle.cal_model.specs.Busy.FreeBusyText.{utc_text};
ghost use Rattle.cal_model.specs.Properties.PropertyValues.{kinds_elements, data_type};
ghost use Rattle.cal_model.specs.Replies.Etags.{etag_of, etag_text};
ghost use Rattle.cal_moment.specs.Calendar.{IsCalendarMoment};
ghost use Rattle.dav_props.specs.Contents as spec;
ghost use Rattle.dav_props.specs.Rows.{asked_name};
ghost use Rattle.dav_props.specs.Subjects.{HasUsers};

use crate::access::push_acl;
use crate::groups::{push_groups_of, push_members_of};
use crate::privileges_held::{push_held, push_if_all};
use crate::rows::{Asked, Row};
use crate::subjects::{Subject, held_on};
use crate::texts::text_of;
use cal_base::{NoMemory, Octets};
use cal_model::view::View;
use cal_model::{FIRST_DATE, LAST_DATE, RESOURCE_LIMIT, Seen};
use cal_moment::{Utc, write_utc};
use dav_write::push_text;
use itoa::Buffer;
use multistatus::{push_home, push_principal};
use std::alloc::Global;

/// The most instances of an object.
const INSTANCES_LIMIT: usize = 250_000;

const DATA_TYPE: &[u8] = b"<C:calendar-data content-type=\"text/calendar\" version=\"2.0\"/>";

const REPORTS: &[u8] =
    b"<D:supported-report><D:report><C:calendar-query/></D:report></D:supported-report><D:supported-report><D:report><C:calendar-multiget/></D:report></D:supported-report><D:supported-report><D:report><C:free-busy-query/></D:report></D:supported-report>";

/// Appends the content of a property that is there.
pub(crate) fn push_content<V: View>(
    alloc: Global,
    seen: &Seen<'_, V>,
    asked: &Asked<'_>,
    subject: &Subject<'_>,
    out: &mut Octets,
) -> Result<(), NoMemory>
    requires user { seen.now.who < length (V.directory seen.now.view.now).names }
    requires users { HasUsers (V.directory seen.now.view.now) subject.now }
    ensures text { OnOk result (out.new ≡ out.old ++ spec.shown_content (V.directory seen.now.view.now) seen.now.who asked.now.row (asked_name asked.now) subject.now) }
    ensures front { take (length out.old) out.new ≡ out.old }
{
    match asked.row {
        Row::ResourceType => out.extend_from_slice(type_of(subject)),
        Row::AskingPrincipal => push_principal(alloc, seen.view.user_name(seen.who), out),
        Row::Owner => push_principal(alloc, owner_of(subject), out),
        Row::HeldPrivileges => push_held(held_on(subject), out),
        Row::DisplayName => push_display(asked, subject, out),
        Row::PrincipalUrl => push_principal(alloc, owner_of(subject), out),
        Row::CalendarHome => push_home(alloc, owner_of(subject), out),
        Row::GroupMembers => push_group_members(alloc, seen, subject, out),
        Row::GroupMemberships => push_memberships(alloc, seen, subject, out),
        Row::Etag => push_etag(subject, out),
        Row::ContentType => out.extend_from_slice(b"text/calendar; charset=utf-8"),
        Row::ContentLength => push_length(subject, out),
        Row::CalendarData => Ok(()),
        Row::Description => push_set_text(asked, subject, out),
        Row::Timezone => push_set_text(asked, subject, out),
        Row::Kinds => push_kinds_of(subject, out),
        Row::DataType => push_data_type(out),
        Row::MaxSize => push_number(RESOURCE_LIMIT, out),
        Row::MinDate => push_moment(Utc(FIRST_DATE), out),
        Row::MaxDate => push_moment(Utc(LAST_DATE), out),
        Row::MaxInstances => push_number(INSTANCES_LIMIT, out),
        Row::Reports => out.extend_from_slice(REPORTS),
        Row::Acl => push_acl_of(alloc, seen, subject, out),
        Row::Text => push_set_text(asked, subject, out),
    }
}

/// The elements that say what a resource is (RFC 4918, 15.9; RFC 3744, 4; RFC 4791, 4.2).
fn type_of(subject: &Subject<'_>) -> &'static [u8]
    ensures { result.now ≡ spec.type_elements subject.now }
{
    match subject {
        Subject::Root | Subject::Home(_) => b"<D:collection/>",
        Subject::Principal(_, _) | Subject::Group(_, _) => b"<D:collection/><D:principal/>",
        Subject::Calendar(_, _, _) => b"<D:collection/><C:calendar/>",
        Subject::Object(_, _, _) => b"",
    }
}

/// The name of the user whose home a resource is in, or of the principal itself.
fn owner_of<'a>(subject: &Subject<'a>) -> &'a [u8]
    ensures { result.now ≡ spec.owner_named subject.now }
{
    match subject {
        Subject::Root => b"",
        Subject::Principal(user, _) | Subject::Group(user, _) | Subject::Home(user) => user,
        Subject::Calendar(user, _, _) | Subject::Object(user, _, _) => user,
    }
}

/// Appends the name of a principal, or what was set on a calendar (RFC 4918, 15.2).
fn push_display(asked: &Asked<'_>, subject: &Subject<'_>, out: &mut Octets) -> Result<(), NoMemory>
    ensures text { OnOk result (out.new ≡ out.old ++ spec.display_element (asked_name asked.now) subject.now) }
    ensures front { take (length out.old) out.new ≡ out.old }
{
    match subject {
        Subject::Principal(name, _) | Subject::Group(name, _) => push_text(name, out),
        _ => push_set_text(asked, subject, out),
    }
}

/// Appends the members of a group (RFC 3744, 4.3).
fn push_group_members<V: View>(
    alloc: Global,
    seen: &Seen<'_, V>,
    subject: &Subject<'_>,
    out: &mut Octets,
) -> Result<(), NoMemory>
    requires { HasUsers (V.directory seen.now.view.now) subject.now }
    ensures text { OnOk result (out.new ≡ out.old ++ spec.members_shown (V.directory seen.now.view.now) subject.now) }
    ensures front { take (length out.old) out.new ≡ out.old }
{
    match subject {
        Subject::Group(_, group) => push_members_of(alloc, seen.view, *group, out),
        _ => Ok(()),
    }
}

/// Appends the groups that a user is in; a group is in none (RFC 3744, 4.4).
fn push_memberships<V: View>(
    alloc: Global,
    seen: &Seen<'_, V>,
    subject: &Subject<'_>,
    out: &mut Octets,
) -> Result<(), NoMemory>
    requires { HasUsers (V.directory seen.now.view.now) subject.now }
    ensures text { OnOk result (out.new ≡ out.old ++ spec.memberships_shown (V.directory seen.now.view.now) subject.now) }
    ensures front { take (length out.old) out.new ≡ out.old }
{
    match subject {
        Subject::Principal(_, Some(user)) => push_groups_of(alloc, seen.view, *user, out),
        _ => Ok(()),
    }
}

/// Appends what was set on a calendar.
fn push_set_text(asked: &Asked<'_>, subject: &Subject<'_>, out: &mut Octets) -> Result<(), NoMemory>
    ensures text { OnOk result (out.new ≡ out.old ++ spec.text_element (asked_name asked.now) subject.now) }
    ensures front { take (length out.old) out.new ≡ out.old }
{
    match subject {
        Subject::Calendar(_, _, data) => push_text(text_of(&data.texts, asked).unwrap_or(b""), out),
        _ => Ok(()),
    }
}

/// Appends the entity tag of an object in its quotes (RFC 4918, 15.6).
fn push_etag(subject: &Subject<'_>, out: &mut Octets) -> Result<(), NoMemory>
    ensures text { OnOk result (out.new ≡ out.old ++ spec.said_of_octets (λ octets. etag_text (etag_of octets)) subject.now) }
    ensures front { take (length out.old) out.new ≡ out.old }
{
    match subject {
        Subject::Object(_, _, stored) => {
            out.push(b'"')?;
            out.extend_from_slice(&stored.etag.0)?;
            out.push(b'"')
        }
        _ => Ok(()),
    }
}

/// Appends the number of an object's octets (RFC 4918, 15.4).
fn push_length(subject: &Subject<'_>, out: &mut Octets) -> Result<(), NoMemory>
    ensures text { OnOk result (out.new ≡ out.old ++ spec.said_of_octets (λ octets. decimal (length octets)) subject.now) }
    ensures front { take (length out.old) out.new ≡ out.old }
{
    match subject {
        Subject::Object(_, _, stored) => push_number(stored.octets.len(), out),
        _ => Ok(()),
    }
}

/// Appends the kinds that a calendar takes (RFC 4791, 5.2.3).
fn push_kinds_of(subject: &Subject<'_>, out: &mut Octets) -> Result<(), NoMemory>
    ensures text { OnOk result (out.new ≡ out.old ++ spec.kinds_shown subject.now) }
    ensures front { take (length out.old) out.new ≡ out.old }
{
    match subject {
        Subject::Calendar(_, _, data) => push_kinds(u16::from(data.kinds), out),
        _ => Ok(()),
    }
}

/// Appends the grants of a calendar (RFC 3744, 5.5).
fn push_acl_of<V: View>(
    alloc: Global,
    seen: &Seen<'_, V>,
    subject: &Subject<'_>,
    out: &mut Octets,
) -> Result<(), NoMemory>
    requires { HasUsers (V.directory seen.now.view.now) subject.now }
    ensures text { OnOk result (out.new ≡ out.old ++ spec.acl_shown (V.directory seen.now.view.now) subject.now) }
    ensures front { take (length out.old) out.new ≡ out.old }
{
    match subject {
        Subject::Calendar(_, _, data) => push_acl(alloc, seen, &data.acl, out),
        _ => Ok(()),
    }
}

/// Appends the type of calendar objects (RFC 4791, 5.2.4).
#[tactic(auto, unfolding(cal_base::specs::Xml::CanonicalXml::attribute_text))]
fn push_data_type(out: &mut Octets) -> Result<(), NoMemory>
    ensures text { OnOk result (out.new ≡ out.old ++ data_type) }
    ensures front { take (length out.old) out.new ≡ out.old }
{
    out.extend_from_slice(DATA_TYPE)
}

/// Appends a number in decimal digits.
fn push_number(number: usize, out: &mut Octets) -> Result<(), NoMemory>
    ensures text { OnOk result (out.new ≡ out.old ++ decimal number) }
    ensures front { take (length out.old) out.new ≡ out.old }
{
    let mut digits = Buffer::new();
    out.extend_from_slice(digits.format(number).as_bytes())
}

/// Appends a moment in UTC.
fn push_moment(moment: Utc, out: &mut Octets) -> Result<(), NoMemory>
    requires { IsCalendarMoment moment.0 }
    ensures text { OnOk result (out.new ≡ out.old ++ utc_text moment.0) }
    ensures front { take (length out.old) out.new ≡ out.old }
{
    let text = write_utc(moment);
    out.extend_from_slice(text.as_slice())
}

/// Appends an element for each kind of a set.
fn push_kinds(kinds: u16, out: &mut Octets) -> Result<(), NoMemory>
    ensures text { OnOk result (out.new ≡ out.old ++ kinds_elements kinds) }
    ensures front { take (length out.old) out.new ≡ out.old }
{
    push_if_all(kinds, 1, b"<C:comp name=\"VEVENT\"/>", out)?;
    push_if_all(kinds, 2, b"<C:comp name=\"VTODO\"/>", out)?;
    push_if_all(kinds, 4, b"<C:comp name=\"VJOURNAL\"/>", out)?;
    push_if_all(kinds, 8, b"<C:comp name=\"VFREEBUSY\"/>", out)
}
