//! The response of one resource: which of its properties are answered, and how (RFC 4918, 9.1 and
//! 14.24).
ghost use Rattle.std.specs.Prelude.{◌≡◌, ◌≤◌, ◌<◌, ◌∷◌, [], ◌++◌, ℕ, List, OnOk, length, map, filter};
ghost use Rattle.cal_model.specs.declared.property.PropName.{PropName as Name};
ghost use Rattle.cal_model.specs.Properties.PropertyReplies.{answers as answers_of, propstats, resource_response};
ghost use Rattle.cal_model.specs.Properties.PropertyTable.{Answer, answer, without_value, names_where, text_names, texts_seen};
ghost use Rattle.cal_model.specs.Replies.Hrefs.{href as href_of};
ghost use Rattle.cal_model.specs.Replies.XmlText.{response};
ghost use Rattle.cal_model.specs.Sight.Resources.{path_of_resource};
ghost use Rattle.cal_model.specs.State.ServerState.{Directory};
ghost use Rattle.cal_model.specs.Words.Lists.{is_empty};
ghost use Rattle.multistatus.specs.Answered.{IsAnswered};
ghost use Rattle.dav_props.specs.Finding.{IsFound, Tells, asking, lists, names_asked, told};
ghost use Rattle.dav_props.specs.Rows.{asked_name, name_of as name_of_row, property_of};
ghost use Rattle.dav_props.specs.Subjects.{HasUsers, Unseen, resource_of, texts_of};
ghost use Rattle.dav_props.specs.declared.telling.Telling.TheVariants as spec_telling;

use crate::answers::{push_empty, push_property, status_of};
use crate::rows::{Asked, Listing, ROWS, Row, asked_for, asked_row, columns_of, is_text};
use crate::subjects::{Subject, has_all};
use cal_base::{NoMemory, Octets};
use cal_model::privilege::READ;
use cal_model::view::View;
use cal_model::{PropName, PropSet, Props, Seen};
use multistatus::{PropStatus, Response, push_status_response};
use std::alloc::Global;

/// Which of the properties that are gone over stand in the response.
#[derive(Clone, Copy)]
pub(crate) enum Telling {
    /// Each, with its status.
    Every,
    /// Those that are there.
    There,
    /// The names of those that are there.
    Names,
}

/// Appends the response of a resource at an href.
pub(crate) fn push_resource<V: View>(
    alloc: Global,
    seen: &Seen<'_, V>,
    props: &Props,
    named: &[PropName],
    href: &[u8],
    subject: &Subject<'_>,
    out: &mut Octets,
) -> Result<(), NoMemory>
    requires user { seen.now.who < length (V.directory seen.now.view.now).names }
    requires users { HasUsers (V.directory seen.now.view.now) subject.now }
    requires named { named.now ≡ names_asked props.now }
    ensures { OnOk result ((unseen : Unseen) → href.now ≡ href_of (path_of_resource (resource_of subject.now unseen)) → out.new ≡ out.old ++ resource_response (asking (V.directory seen.now.view.now) seen.now.who) props.now (resource_of subject.now unseen)) }
{
    match props {
        Props::None => push_status_response(href, PropStatus::Found, out),
        _ => push_properties(alloc, seen, props, named, href, subject, out),
    }
}

/// Appends the response of a resource at an href, with what is asked of it.
fn push_properties<V: View>(
    alloc: Global,
    seen: &Seen<'_, V>,
    props: &Props,
    named: &[PropName],
    href: &[u8],
    subject: &Subject<'_>,
    out: &mut Octets,
) -> Result<(), NoMemory>
    requires user { seen.now.who < length (V.directory seen.now.view.now).names }
    requires users { HasUsers (V.directory seen.now.view.now) subject.now }
    requires named { named.now ≡ names_asked props.now }
    ensures { OnOk result ((unseen : Unseen) → out.new ≡ out.old ++ response href.now (propstats (answers_of (asking (V.directory seen.now.view.now) seen.now.who) (resource_of subject.now unseen) props.now))) }
{
    let mut response = Response::begin(alloc, href, out)?;
    tell_asked(alloc, seen, props, named, subject, &mut response, out)?;
    response.end(out)
}

/// Answers what is asked of a resource.
fn tell_asked<V: View>(
    alloc: Global,
    seen: &Seen<'_, V>,
    props: &Props,
    named: &[PropName],
    subject: &Subject<'_>,
    response: &mut Response,
    out: &mut Octets,
) -> Result<(), NoMemory>
    requires user { seen.now.who < length (V.directory seen.now.view.now).names }
    requires users { HasUsers (V.directory seen.now.view.now) subject.now }
    requires named { named.now ≡ names_asked props.now }
    ensures { OnOk result ((unseen : Unseen) (front href : List ℕ) → IsAnswered front href [] response.old out.old → IsAnswered front href (answers_of (asking (V.directory seen.now.view.now) seen.now.who) (resource_of subject.now unseen) props.now) response.new out.new) }
{
    match props {
        Props::All => tell_listed(alloc, seen, Telling::There, subject, response, out),
        Props::Names => tell_listed(alloc, seen, Telling::Names, subject, response, out),
        Props::None => Ok(()),
        Props::Some(_) => tell_named(alloc, seen, named, subject, response, out),
    }
}

/// Answers each of some names.
fn tell_named<V: View>(
    alloc: Global,
    seen: &Seen<'_, V>,
    named: &[PropName],
    subject: &Subject<'_>,
    response: &mut Response,
    out: &mut Octets,
) -> Result<(), NoMemory>
    requires user { seen.now.who < length (V.directory seen.now.view.now).names }
    requires users { HasUsers (V.directory seen.now.view.now) subject.now }
    ensures { OnOk result ((unseen : Unseen) → Tells (asking (V.directory seen.now.view.now) seen.now.who) (resource_of subject.now unseen) spec_telling.Every named.now response.old out.old response.new out.new) }
{
    'names: for name in named {
        let asked = asked_for(name);
        tell(alloc, seen, Telling::Every, &asked, subject, response, out)?;
    }
    Ok(())
}

/// Answers what is listed where no property is asked for by its name.
fn tell_listed<V: View>(
    alloc: Global,
    seen: &Seen<'_, V>,
    telling: Telling,
    subject: &Subject<'_>,
    response: &mut Response,
    out: &mut Octets,
) -> Result<(), NoMemory>
    requires user { seen.now.who < length (V.directory seen.now.view.now).names }
    requires users { HasUsers (V.directory seen.now.view.now) subject.now }
    ensures { OnOk result ((unseen : Unseen) → Tells (asking (V.directory seen.now.view.now) seen.now.who) (resource_of subject.now unseen) telling (names_where (lists telling) (resource_of subject.now unseen)) response.old out.old response.new out.new) }
{
    tell_rows(alloc, seen, telling, &ROWS, subject, response, out)?;
    tell_texts(
        alloc,
        seen,
        telling,
        texts_on(subject),
        subject,
        response,
        out,
    )
}

/// Answers those of some rows that are listed.
fn tell_rows<V: View>(
    alloc: Global,
    seen: &Seen<'_, V>,
    telling: Telling,
    rows: &[Row],
    subject: &Subject<'_>,
    response: &mut Response,
    out: &mut Octets,
) -> Result<(), NoMemory>
    requires user { seen.now.who < length (V.directory seen.now.view.now).names }
    requires users { HasUsers (V.directory seen.now.view.now) subject.now }
    ensures { OnOk result ((unseen : Unseen) → Tells (asking (V.directory seen.now.view.now) seen.now.who) (resource_of subject.now unseen) telling (map name_of_row (filter (λ row. lists telling (property_of row (name_of_row row)).listed) rows.now)) response.old out.old response.new out.new) }
{
    'rows: for row in rows {
        tell_row(alloc, seen, telling, *row, subject, response, out)?;
    }
    Ok(())
}

/// Answers the property of a row, where it is listed.
fn tell_row<V: View>(
    alloc: Global,
    seen: &Seen<'_, V>,
    telling: Telling,
    row: Row,
    subject: &Subject<'_>,
    response: &mut Response,
    out: &mut Octets,
) -> Result<(), NoMemory>
    requires user { seen.now.who < length (V.directory seen.now.view.now).names }
    requires users { HasUsers (V.directory seen.now.view.now) subject.now }
    ensures { OnOk result ((unseen : Unseen) → Tells (asking (V.directory seen.now.view.now) seen.now.who) (resource_of subject.now unseen) telling (map name_of_row (filter (λ row. lists telling (property_of row (name_of_row row)).listed) (row ∷ []))) response.old out.old response.new out.new) }
{
    if !is_listed(telling, row) {
        return Ok(());
    }
    let asked = asked_row(row);
    tell(alloc, seen, telling, &asked, subject, response, out)
}

/// Whether a property is listed.
fn is_listed(telling: Telling, row: Row) -> bool
    ensures { (name : Name) → result ≡ lists telling (property_of row name).listed }
{
    let listing = columns_of(row).listing;
    match telling {
        Telling::Every => false,
        Telling::There => matches!(listing, Listing::Both),
        Telling::Names => !matches!(listing, Listing::Neither),
    }
}

/// The settings of a resource that are seen.
fn texts_on<'a>(subject: &Subject<'a>) -> &'a [PropSet]
    ensures { (unseen : Unseen) → texts_seen (resource_of subject.now unseen) ≡ texts_of result.now }
{
    match subject {
        Subject::Calendar(_, held, data) => {
            if has_all(*held, READ) {
                data.texts.as_slice()
            } else {
                &[]
            }
        }
        _ => &[],
    }
}

/// Answers those of some settings that have no row of their own.
fn tell_texts<V: View>(
    alloc: Global,
    seen: &Seen<'_, V>,
    telling: Telling,
    texts: &[PropSet],
    subject: &Subject<'_>,
    response: &mut Response,
    out: &mut Octets,
) -> Result<(), NoMemory>
    requires user { seen.now.who < length (V.directory seen.now.view.now).names }
    requires users { HasUsers (V.directory seen.now.view.now) subject.now }
    ensures { OnOk result ((unseen : Unseen) → Tells (asking (V.directory seen.now.view.now) seen.now.who) (resource_of subject.now unseen) telling (text_names (texts_of texts.now)) response.old out.old response.new out.new) }
{
    'texts: for set in texts {
        tell_text(alloc, seen, telling, set, subject, response, out)?;
    }
    Ok(())
}

/// Answers a setting, where it has no row of its own.
fn tell_text<V: View>(
    alloc: Global,
    seen: &Seen<'_, V>,
    telling: Telling,
    set: &PropSet,
    subject: &Subject<'_>,
    response: &mut Response,
    out: &mut Octets,
) -> Result<(), NoMemory>
    requires user { seen.now.who < length (V.directory seen.now.view.now).names }
    requires users { HasUsers (V.directory seen.now.view.now) subject.now }
    ensures { OnOk result ((unseen : Unseen) → Tells (asking (V.directory seen.now.view.now) seen.now.who) (resource_of subject.now unseen) telling (text_names (texts_of (set.now ∷ []))) response.old out.old response.new out.new) }
{
    if !is_text(&set.name) {
        return Ok(());
    }
    let asked = asked_for(&set.name);
    tell(alloc, seen, telling, &asked, subject, response, out)
}

/// Answers one property, unless it is left out.
fn tell<V: View>(
    alloc: Global,
    seen: &Seen<'_, V>,
    telling: Telling,
    asked: &Asked<'_>,
    subject: &Subject<'_>,
    response: &mut Response,
    out: &mut Octets,
) -> Result<(), NoMemory>
    requires user { seen.now.who < length (V.directory seen.now.view.now).names }
    requires users { HasUsers (V.directory seen.now.view.now) subject.now }
    requires found { IsFound asked.now }
    ensures { OnOk result ((unseen : Unseen) → Tells (asking (V.directory seen.now.view.now) seen.now.who) (resource_of subject.now unseen) telling (asked_name asked.now ∷ []) response.old out.old response.new out.new) }
{
    if is_left_out(telling, asked, subject) {
        return Ok(());
    }
    match telling {
        Telling::Names => tell_name(asked, response, out),
        _ => tell_whole(alloc, seen, asked, subject, response, out),
    }
}

/// Whether a property is left out of the response: it is not there, and not each is answered.
fn is_left_out(telling: Telling, asked: &Asked<'_>, subject: &Subject<'_>) -> bool
    requires { IsFound asked.now }
    ensures { (directory : Directory) (who : ℕ) (unseen : Unseen) → HasUsers directory subject.now → result ≡ is_empty (told telling (answer (asking directory who) (resource_of subject.now unseen) (asked_name asked.now) ∷ [])) }
{
    match telling {
        Telling::Every => false,
        _ => status_of(asked, subject) != 200,
    }
}

/// Answers one property, whatever its status.
fn tell_whole<V: View>(
    alloc: Global,
    seen: &Seen<'_, V>,
    asked: &Asked<'_>,
    subject: &Subject<'_>,
    response: &mut Response,
    out: &mut Octets,
) -> Result<(), NoMemory>
    requires user { seen.now.who < length (V.directory seen.now.view.now).names }
    requires users { HasUsers (V.directory seen.now.view.now) subject.now }
    requires found { IsFound asked.now }
    ensures { OnOk result ((unseen : Unseen) → Tells (asking (V.directory seen.now.view.now) seen.now.who) (resource_of subject.now unseen) spec_telling.Every (asked_name asked.now ∷ []) response.old out.old response.new out.new) }
{
    let place = out.len();
    let status = push_property(alloc, seen, asked, subject, out)?;
    response.take_in(place, status, out)
}

/// Says that a property is there.
fn tell_name(asked: &Asked<'_>, response: &mut Response, out: &mut Octets) -> Result<(), NoMemory>
    ensures { OnOk result ((front href : List ℕ) (before : List Answer) → IsAnswered front href before response.old out.old → IsAnswered front href (before ++ without_value (asked_name asked.now) 200 ∷ []) response.new out.new) }
{
    let place = out.len();
    push_empty(asked, out)?;
    response.take_in(place, 200, out)
}
