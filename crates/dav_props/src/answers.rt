//! The answer to one property.
ghost use Rattle.std.specs.Prelude.{◌≡◌, ◌<◌, ◌++◌, ℕ, false, List, length, take, Option, IfOk, OnOk, OnErr};
ghost use Rattle.cal_model.specs.Access.Privileges.{same_name};
ghost use Rattle.cal_model.specs.Properties.PropertyReplies.{property_element};
ghost use Rattle.cal_model.specs.Properties.PropertyTable.{without_value};
ghost use Rattle.cal_model.specs.Serving.SeenResources.{seen_answer, calendar_data};
ghost use Rattle.cal_model.specs.State.ServerState.{Directory};
ghost use Rattle.dav_props.specs.Contents.{IsShownHere};
ghost use Rattle.dav_props.specs.Rows.{asked_name};
ghost use Rattle.dav_props.specs.Subjects.{Unseen, HasUsers};
ghost use Rattle.dav_props.specs.Answers.{answered, is_there_at, has_text_set, is_known as is_known_at};

use crate::contents::push_content;
use crate::rows::{Asked, Row, asked_for, columns_of};
use crate::subjects::{Subject, has_all, held_on, is_on, subject_at};
use crate::texts::text_of;
use cal_base::{NoMemory, Octets};
use cal_model::view::View;
use cal_model::{Path, PropAnswers, PropName, Seen};
use multistatus::{push_close, push_open};
use std::alloc::Global;

/// The answers of this server to properties.
#[derive(Clone, Copy)]
pub struct DavAnswers;

impl PropAnswers for DavAnswers {
    fn answer<V: View>(
        &self,
        alloc: Global,
        seen: &Seen<'_, V>,
        path: &Path,
        name: &PropName,
        out: &mut Octets,
    ) -> Result<u16, NoMemory> {
        let before = out.len();
        match push_answer(alloc, seen, path, name, out) {
            Ok(status) => Ok(status),
            Err(NoMemory) => {
                out.truncate(before);
                Err(NoMemory)
            }
        }
    }
}

/// Appends the element of a property of what is at a path.
fn push_answer<V: View>(
    alloc: Global,
    seen: &Seen<'_, V>,
    path: &Path,
    name: &PropName,
    out: &mut Octets,
) -> Result<u16, NoMemory>
    requires user { seen.now.who < length (V.directory seen.now.view.now).names }
    requires not_data { same_name name.now calendar_data ≡ false }
    ensures status { IfOk result (λ status. (shown : Option (List ℕ → List ℕ)) → status ≡ (seen_answer (V.directory seen.now.view.now) (V.state seen.now.view.now) seen.now.who shown path.now name.now).status) }
    ensures element { OnOk result ((shown : Option (List ℕ → List ℕ)) → out.new ≡ out.old ++ property_element (seen_answer (V.directory seen.now.view.now) (V.state seen.now.view.now) seen.now.who shown path.now name.now)) }
    ensures front { take (length out.old) out.new ≡ out.old }
{
    let asked = asked_for(name);
    match subject_at(seen, path) {
        Some(subject) => push_property(alloc, seen, &asked, &subject, out),
        None => push_absent(&asked, out),
    }
}

/// Appends the element of a property of nothing.
fn push_absent(asked: &Asked<'_>, out: &mut Octets) -> Result<u16, NoMemory>
    ensures status { IfOk result (λ status. status ≡ 404) }
    ensures element { OnOk result (out.new ≡ out.old ++ property_element (without_value (asked_name asked.now) 404)) }
    ensures front { take (length out.old) out.new ≡ out.old }
{
    push_empty(asked, out)?;
    Ok(404)
}

/// Appends the element of a property without its content.
pub(crate) fn push_empty(asked: &Asked<'_>, out: &mut Octets) -> Result<(), NoMemory>
    ensures element { OnOk result ((status : ℕ) → out.new ≡ out.old ++ property_element (without_value (asked_name asked.now) status)) }
    ensures front { take (length out.old) out.new ≡ out.old }
{
    push_open(asked.space, asked.name, out)?;
    out.extend_from_slice(b"/>")
}

/// Appends the element of a property of a resource, and gives its status.
pub(crate) fn push_property<V: View>(
    alloc: Global,
    seen: &Seen<'_, V>,
    asked: &Asked<'_>,
    subject: &Subject<'_>,
    out: &mut Octets,
) -> Result<u16, NoMemory>
    requires user { seen.now.who < length (V.directory seen.now.view.now).names }
    requires users { HasUsers (V.directory seen.now.view.now) subject.now }
    ensures status { IfOk result (λ status. (shown : Option (List ℕ → List ℕ)) (unseen : Unseen) → IsShownHere asked.now.row shown → status ≡ (answered (V.directory seen.now.view.now) seen.now.who shown asked.now subject.now unseen).status) }
    ensures element { OnOk result ((shown : Option (List ℕ → List ℕ)) (unseen : Unseen) → IsShownHere asked.now.row shown → out.new ≡ out.old ++ property_element (answered (V.directory seen.now.view.now) seen.now.who shown asked.now subject.now unseen)) }
    ensures front { take (length out.old) out.new ≡ out.old }
{
    let status = status_of(asked, subject);
    if status == 200 {
        push_whole(alloc, seen, asked, subject, out)?;
        return Ok(200);
    }
    push_empty(asked, out)?;
    Ok(status)
}

/// Appends the element of a property with its content.
pub(crate) fn push_whole<V: View>(
    alloc: Global,
    seen: &Seen<'_, V>,
    asked: &Asked<'_>,
    subject: &Subject<'_>,
    out: &mut Octets,
) -> Result<(), NoMemory>
    requires user { seen.now.who < length (V.directory seen.now.view.now).names }
    requires users { HasUsers (V.directory seen.now.view.now) subject.now }
    ensures element { OnOk result ((shown : Option (List ℕ → List ℕ)) (unseen : Unseen) → IsShownHere asked.now.row shown → (answered (V.directory seen.now.view.now) seen.now.who shown asked.now subject.now unseen).status ≡ 200 → out.new ≡ out.old ++ property_element (answered (V.directory seen.now.view.now) seen.now.who shown asked.now subject.now unseen)) }
    ensures front { take (length out.old) out.new ≡ out.old }
{
    push_open(asked.space, asked.name, out)?;
    let place = out.len();
    out.push(b'>')?;
    push_content(alloc, seen, asked, subject, out)?;
    push_close(place, asked.space, asked.name, out)
}

/// The status of a property of a resource: 404 where it is not on such a resource, 403 where its
/// privilege is not held, 404 where it is not there, and else 200.
pub(crate) fn status_of(asked: &Asked<'_>, subject: &Subject<'_>) -> u16
    ensures { (directory : Directory) (who : ℕ) (shown : Option (List ℕ → List ℕ)) (unseen : Unseen) → HasUsers directory subject.now → IsShownHere asked.now.row shown → result ≡ (answered directory who shown asked.now subject.now unseen).status }
{
    let columns = columns_of(asked.row);
    let on = is_on(columns.place, subject);
    let held = has_all(held_on(subject), columns.needs);
    if !on {
        404
    } else if !held {
        403
    } else if is_there(asked, subject) {
        200
    } else {
        404
    }
}

/// Whether a property that can be on a resource, and may be seen, is there.
fn is_there(asked: &Asked<'_>, subject: &Subject<'_>) -> bool
    ensures { result ≡ is_there_at asked.now subject.now }
{
    match asked.row {
        Row::CalendarData => false,
        Row::DisplayName | Row::Description | Row::Timezone | Row::Text => {
            has_text(asked, subject)
        }
        Row::GroupMemberships => is_known(subject),
        _ => true,
    }
}

/// Whether a principal is that of a group, or of a user that there is.
fn is_known(subject: &Subject<'_>) -> bool
    ensures { result ≡ is_known_at subject.now }
{
    !matches!(subject, Subject::Principal(_, None))
}

/// Whether a text was set on a calendar; a principal has a name.
fn has_text(asked: &Asked<'_>, subject: &Subject<'_>) -> bool
    ensures { result ≡ has_text_set asked.now subject.now }
{
    match subject {
        Subject::Calendar(_, _, data) => text_of(&data.texts, asked).is_some(),
        _ => true,
    }
}
