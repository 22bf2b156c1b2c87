//! What a report says of one object (RFC 4791, 7.8 and 7.9).
ghost use Rattle.std.specs.Prelude.{◌≡◌, ◌<◌, ◌≤◌, ◌++◌, ℕ, List, map, flat_map, IfOk, OnOk, length, take, drop};
ghost use Rattle.cal_model.specs.Access.Privileges.{same_name};
ghost use Rattle.cal_model.specs.Properties.PropertyReplies.{property_element, propstats, resource_response};
ghost use Rattle.cal_model.specs.Properties.PropertyTable.{Answer, answer, without_value};
ghost use Rattle.cal_model.specs.Replies.Hrefs.{href as href_of};
ghost use Rattle.cal_model.specs.Replies.XmlText.{response as response_text};
ghost use Rattle.cal_model.specs.Serving.SeenResources.{calendar_data};
ghost use Rattle.cal_model.specs.Sight.Resources.{Resource, path_of_resource};
ghost use Rattle.multistatus.specs.Answered.{IsAnswered};
ghost use Rattle.dav_reports.specs.AskedProperties.{if_there, names_asked, said_of};
ghost use Rattle.dav_reports.specs.ShownObjects.{IsShown, asker_of};

use cal_base::{List, NoMemory, Octets};
use cal_model::view::View;
use cal_model::{Path, PropAnswers, PropName, Props, Seen};
use dav_write::write_path;
use multistatus::{
    PropStatus, Response, push_empty_property, push_status_response, push_text_property,
};
use std::alloc::Global;

/// Appends the response of the object at a path, given what is asked, the names that are looked at for
/// it, and what is shown of the object as its calendar data.
pub(crate) fn push_object<V: View, A: PropAnswers>(
    alloc: Global,
    answers: &A,
    seen: &Seen<'_, V>,
    path: &Path,
    text: &[u8],
    props: &Props,
    names: &List<PropName>,
    out: &mut Octets,
) -> Result<(), NoMemory>
    requires user { seen.now.who < length (V.directory seen.now.view.now).names }
    requires names { names.now ≡ names_asked props.now }
    ensures response { (shown : List ℕ → List ℕ) (resource : Resource) → IsShown (V.directory seen.now.view.now) (V.state seen.now.view.now) seen.now.who path.now text.now shown resource → path_of_resource resource ≡ path.now → OnOk result (out.new ≡ out.old ++ resource_response (asker_of (V.directory seen.now.view.now) seen.now.who shown) props.now resource) }
{
    let href = write_path(alloc, path)?;
    match props {
        Props::None => push_status_response(href.as_slice(), PropStatus::Found, out),
        _ => push_named(
            alloc,
            answers,
            seen,
            path,
            text,
            href.as_slice(),
            props,
            names.as_slice(),
            out,
        ),
    }
}

/// Appends the response at an href with what is answered to some names.
fn push_named<V: View, A: PropAnswers>(
    alloc: Global,
    answers: &A,
    seen: &Seen<'_, V>,
    path: &Path,
    text: &[u8],
    href: &[u8],
    props: &Props,
    names: &[PropName],
    out: &mut Octets,
) -> Result<(), NoMemory>
    requires user { seen.now.who < length (V.directory seen.now.view.now).names }
    ensures response { (shown : List ℕ → List ℕ) (resource : Resource) → IsShown (V.directory seen.now.view.now) (V.state seen.now.view.now) seen.now.who path.now text.now shown resource → OnOk result (out.new ≡ out.old ++ response_text href.now (propstats (flat_map (said_of props.now (asker_of (V.directory seen.now.view.now) seen.now.who shown) resource) names.now))) }
{
    let mut response = Response::begin(alloc, href, out)?;
    'names: for name in names {
        add_said(
            alloc,
            answers,
            seen,
            path,
            text,
            props,
            name,
            &mut response,
            out,
        )?;
    }
    response.end(out)
}

/// Takes what is answered to one name into a response.
fn add_said<V: View, A: PropAnswers>(
    alloc: Global,
    answers: &A,
    seen: &Seen<'_, V>,
    path: &Path,
    text: &[u8],
    props: &Props,
    name: &PropName,
    response: &mut Response,
    out: &mut Octets,
) -> Result<(), NoMemory>
    requires user { seen.now.who < length (V.directory seen.now.view.now).names }
    ensures answered { (front href : List ℕ) (said : List Answer) (shown : List ℕ → List ℕ) (resource : Resource) → IsShown (V.directory seen.now.view.now) (V.state seen.now.view.now) seen.now.who path.now text.now shown resource → IsAnswered front href said response.old out.old → OnOk result (IsAnswered front href (said ++ said_of props.now (asker_of (V.directory seen.now.view.now) seen.now.who shown) resource name.now) response.new out.new) }
{
    let place = out.len();
    let status = push_answer(alloc, answers, seen, path, text, name, out)?;
    match props {
        Props::Some(_) => response.take_in(place, status, out),
        Props::All => keep_present(place, status, response, out),
        Props::Names => keep_name(place, status, name, response, out),
        Props::None => {
            out.truncate(place);
            Ok(())
        }
    }
}

/// Takes an answer whose element was appended at a place into a response where its property is there.
fn keep_present(
    place: usize,
    status: u16,
    response: &mut Response,
    out: &mut Octets,
) -> Result<(), NoMemory>
    requires { place ≤ length out.old }
    ensures { (front href : List ℕ) (said : List Answer) (a : Answer) → IsAnswered front href said response.old (take place out.old) → drop place out.old ≡ property_element a → status ≡ a.status → OnOk result (IsAnswered front href (said ++ if_there a) response.new out.new) }
{
    if status == 200 {
        return response.take_in(place, status, out);
    }
    out.truncate(place);
    Ok(())
}

/// Takes the name of a property that is there into a response; the element of its answer was appended
/// at a place.
fn keep_name(
    place: usize,
    status: u16,
    name: &PropName,
    response: &mut Response,
    out: &mut Octets,
) -> Result<(), NoMemory>
    requires { place ≤ length out.old }
    ensures { (front href : List ℕ) (said : List Answer) (a : Answer) → IsAnswered front href said response.old (take place out.old) → a.name ≡ name.now → status ≡ a.status → OnOk result (IsAnswered front href (said ++ map (λ (b : Answer). without_value b.name 200) (if_there a)) response.new out.new) }
{
    out.truncate(place);
    if status != 200 {
        return Ok(());
    }
    push_empty_property(name, out)?;
    response.take_in(place, 200, out)
}

/// Appends the element of a property of the object at a path, and gives its status.
fn push_answer<V: View, A: PropAnswers>(
    alloc: Global,
    answers: &A,
    seen: &Seen<'_, V>,
    path: &Path,
    text: &[u8],
    name: &PropName,
    out: &mut Octets,
) -> Result<u16, NoMemory>
    requires user { seen.now.who < length (V.directory seen.now.view.now).names }
    ensures status { IfOk result (λ status. (shown : List ℕ → List ℕ) (resource : Resource) → IsShown (V.directory seen.now.view.now) (V.state seen.now.view.now) seen.now.who path.now text.now shown resource → status ≡ (answer (asker_of (V.directory seen.now.view.now) seen.now.who shown) resource name.now).status) }
    ensures element { OnOk result ((shown : List ℕ → List ℕ) (resource : Resource) → IsShown (V.directory seen.now.view.now) (V.state seen.now.view.now) seen.now.who path.now text.now shown resource → out.new ≡ out.old ++ property_element (answer (asker_of (V.directory seen.now.view.now) seen.now.who shown) resource name.now)) }
    ensures front { take (length out.old) out.new ≡ out.old }
{
    if is_calendar_data(name) {
        push_text_property(name, text, out)?;
        return Ok(200);
    }
    answers.answer(alloc, seen, path, name, out)
}

/// Whether a property is the calendar data (RFC 4791, 9.6).
fn is_calendar_data(name: &PropName) -> bool
    ensures { result ≡ same_name name.now calendar_data }
{
    name.space.as_slice() == b"urn:ietf:params:xml:ns:caldav".as_slice()
        && name.name.as_slice() == b"calendar-data".as_slice()
}
