//! Elements and refusals as they are written, octet for octet.
ghost use Rattle.std.specs.Prelude.{length, ◌≤◌};

use crate::wanted::is_text;
use cal_base::{Element, Item, NoMemory, Octets, ReservedList};
use cal_model::{Cond, Path, PrivilegeSet, Refusal};
use dav_body::read_body;
use dav_write::{error_body, need_privileges, write_body};
use std::alloc::Global;

/// Bodies that are read, and how their elements are written: an empty body of status 207; and an element
/// in no namespace with a property in a namespace without a prefix at the root, which has attributes of
/// each namespace, with a property with all that is escaped in text, and with an empty one.
const BODIES: &[(&[u8], &[u8])] = &[
    (
        b"<multistatus xmlns='DAV:'/>",
        b"<?xml version=\"1.0\" encoding=\"utf-8\"?>\n<D:multistatus xmlns:D=\"DAV:\" xmlns:C=\"urn:ietf:params:xml:ns:caldav\"/>",
    ),
    (
        b"<prop xmlns:a='http://apple.com/ns/ical/' xmlns:d='DAV:' xmlns:u='u\"'>\
        <a:calendar-color symbolic-color='a\"&lt;b>&amp;&#13;&#10;' d:d='' u:c=\"'\" xml:lang='en'>#FF2968FF</a:calendar-color>\
        <d:displayname>a &amp; b &lt; c &gt; d \"e\"&#13;&#10;]]&gt;\t</d:displayname>\
        <calendar-data xmlns='urn:ietf:params:xml:ns:caldav'/></prop>",
        b"<?xml version=\"1.0\" encoding=\"utf-8\"?>\n\
    <prop xmlns:D=\"DAV:\" xmlns:C=\"urn:ietf:params:xml:ns:caldav\">\
    <x:calendar-color xmlns:x=\"http://apple.com/ns/ical/\" symbolic-color=\"a&quot;&lt;b&gt;&amp;&#13;\n\" D:d=\"\" xmlns:y2=\"u&quot;\" y2:c=\"'\" xml:lang=\"en\">#FF2968FF</x:calendar-color>\
    <D:displayname>a &amp; b &lt; c &gt; d \"e\"&#13;\n]]&gt;\t</D:displayname>\
    <C:calendar-data/></prop>",
    ),
];

/// Whether an element is written so, and is not written otherwise with an empty text at its end.
fn is_element_written(alloc: Global, element: &mut Element, octets: &[u8]) -> bool {
    let first = is_text(write_body(alloc, element), octets);
    let has_more = element.items.push(Item::Text(Octets::new(alloc))).is_ok();
    let second = is_text(write_body(alloc, element), octets);
    first && has_more && second
}

/// Whether the element of a body is written so.
fn is_written(alloc: Global, body: &[u8], octets: &[u8]) -> bool {
    match read_body(alloc, body) {
        Ok(mut element) => is_element_written(alloc, &mut element, octets),
        Err(_) => false,
    }
}

/// Namespaces and escapes are written; an empty element is one tag; empty text is no content.
#[test]
fn elements_are_written(rt: HostRuntime) {
    for (body, octets) in BODIES {
        assert!(rt; is_written(rt.alloc(), body, octets));
    }
}

/// The body of a refusal with a condition of the calendar's namespace.
fn body_with(alloc: Global, condition: &[u8]) -> Result<Octets, NoMemory> {
    let refusal = Refusal {
        status: 403,
        cond: Cond::Cal(Octets::of(alloc, condition)?),
    };
    error_body(alloc, &refusal)
}

const VALID_FILTER: &[u8] =
    b"<?xml version=\"1.0\" encoding=\"utf-8\"?>\n<D:error xmlns:D=\"DAV:\" xmlns:C=\"urn:ietf:params:xml:ns:caldav\"><C:valid-filter/></D:error>";

/// What is written where the right to delete is wanted on the calendar of a user.
fn wanted(alloc: Global, user: &[u8]) -> Result<Octets, NoMemory>
    requires { length user.now ≤ 200 }
{
    let mut out = ReservedList::new(alloc);
    out.reserve(4096)?;
    let user = Octets::of(alloc, user)?;
    let calendar = Octets::of(alloc, b"a&b")?;
    let path = Path::Calendar(user, calendar);
    need_privileges(&path, PrivilegeSet(32), &mut out);
    Ok(out.into_list())
}

const UNBIND: &[u8] = b"<?xml version=\"1.0\" encoding=\"utf-8\"?>\n\
    <D:error xmlns:D=\"DAV:\" xmlns:C=\"urn:ietf:params:xml:ns:caldav\">\
    <D:need-privileges><D:resource><D:href>/calendars/joe%20b/a%26b/</D:href>\
    <D:privilege><D:unbind/></D:privilege></D:resource></D:need-privileges></D:error>";

/// A status alone has no body.
#[test]
fn refusals_have_bodies(rt: HostRuntime) {
    let alone = Refusal {
        status: 404,
        cond: Cond::None,
    };
    assert!(rt;
        is_text(error_body(rt.alloc(), &alone), b""),
        "a status alone"
    );
    let body = body_with(rt.alloc(), b"<C:valid-filter/>");
    assert!(rt; is_text(body, VALID_FILTER), "a condition");
    let body = wanted(rt.alloc(), b"joe b");
    assert!(rt; is_text(body, UNBIND), "the privilege that is needed");
}
