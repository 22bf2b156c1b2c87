//! XML bodies. The examples are those of the recommendations, and the faults are placed by hand.

use crate::wanted::Wanted;
use cal_base::{Element, Item, NoMemory, Octets};
use dav_body::{BodyFault, Why, read_body};
use std::alloc::Global;

/// The element within an element at a place among its items.
fn inner(element: &Element, place: usize) -> Option<&Element> {
    match element.items.get(place) {
        Some(Item::Element(inner)) => Some(inner),
        Some(Item::Text(_)) => None,
        None => None,
    }
}

/// The text within an element at a place among its items.
fn text(element: &Element, place: usize) -> &[u8] {
    match element.items.get(place) {
        Some(Item::Text(text)) => text.as_slice(),
        Some(Item::Element(_)) => b"no text",
        None => b"no item",
    }
}

/// The element at the end of a way of places from the root.
fn behind<'a>(root: &'a Element, way: &[usize]) -> Option<&'a Element> {
    let mut element = root;
    for place in way {
        match inner(element, *place) {
            Some(next) => element = next,
            None => return None,
        }
    }
    Some(element)
}

/// Whether an element is shown so, as `{namespace}name {namespace}attribute=value>` and the text at its
/// first place, and has so many items.
fn is_shown_so(element: &Element, shown: &[u8], items: usize) -> bool {
    let mut wanted = Wanted::new(shown);
    wanted.put(b"{");
    wanted.put(element.space.as_slice());
    wanted.put(b"}");
    wanted.put(element.name.as_slice());
    for attr in element.attrs.as_slice() {
        wanted.put(b" {");
        wanted.put(attr.space.as_slice());
        wanted.put(b"}");
        wanted.put(attr.name.as_slice());
        wanted.put(b"=");
        wanted.put(attr.value.as_slice());
    }
    wanted.put(b">");
    wanted.put(text(element, 0));
    wanted.is_whole() && element.items.len() == items
}

/// A way from the root, how the element at its end is shown, and how many items it has.
type Look = (&'static [usize], &'static [u8], usize);

/// Whether the elements below a root are shown so.
fn are_shown_so(root: &Element, looks: &[Look]) -> bool {
    let mut same = true;
    for (way, shown, items) in looks {
        let so = match behind(root, way) {
            Some(element) => is_shown_so(element, shown, *items),
            None => false,
        };
        same = same && so;
    }
    same
}

/// Whether a body is read as elements that are shown so.
fn is_read_so(alloc: Global, body: &[u8], looks: &[Look]) -> bool {
    match read_body(alloc, body) {
        Ok(root) => are_shown_so(&root, looks),
        Err(_) => false,
    }
}

/// What bodies show, the bodies, and their elements.
const BODIES: &[(&str, &[u8], &[Look])] = &[
    // RFC 4918, 9.1.3: a request for named properties, in two namespaces.
    (
        "names have their namespaces",
        b"<?xml version=\"1.0\" encoding=\"utf-8\" ?>\n<D:propfind xmlns:D=\"DAV:\">\n<D:prop xmlns:R=\"http://ns.example.com/boxschema/\">\n<R:bigbox/>\n<R:author/>\n</D:prop>\n</D:propfind>",
        &[
            (&[], b"{DAV:}propfind>\n", 3),
            (&[1], b"{DAV:}prop>\n", 5),
            (
                &[1, 3],
                b"{http://ns.example.com/boxschema/}author>no item",
                0,
            ),
        ],
    ),
    // Namespaces in XML 1.0, 6.2: a default namespace is for elements, and can be undone.
    (
        "a default namespace can be undone",
        b"<Beers xmlns='urn:beers'><table xmlns='' class='x'><th/></table><b xmlns:e='urn:e' e:c='y'/></Beers>",
        &[
            (&[], b"{urn:beers}Beers>no text", 2),
            (&[0], b"{}table {}class=x>no text", 1),
            (&[0, 0], b"{}th>no item", 0),
            (&[1], b"{urn:beers}b {urn:e}c=y>no item", 0),
        ],
    ),
    // Namespaces in XML 1.0, 6.3: the default namespace is not that of an attribute.
    (
        "the default is none of an attribute",
        b"<x xmlns:n1=\"http://www.w3.org\" xmlns=\"http://www.w3.org\"><good a=\"1\" n1:a=\"2\"/></x>",
        &[(
            &[0],
            b"{http://www.w3.org}good {}a=1 {http://www.w3.org}a=2>no item",
            0,
        )],
    ),
    // XML 1.0, 2.11, 2.7, 4.1 and 4.6: ends of lines, sections and references are one text.
    (
        "text beside text is one",
        b"\xEF\xBB\xBF<a b='&lt;&#xE4;\r\n'>1\r\n2\r3&#13;<![CDATA[<&>\r]]>&amp;<!-- c --><?p i?>&quot;</a>\n",
        &[(&[], b"{}a {}b=<\xC3\xA4\r\n>1\n2\n3\r<&>\n&\"", 1)],
    ),
];

#[test]
fn bodies_are_read(rt: HostRuntime) {
    for (name, body, looks) in BODIES {
        assert!(rt; is_read_so(rt.alloc(), body, looks), "{name}");
    }
}

/// Bodies, and the place and the reason of the first fault of each.
const FAULTS: &[(&[u8], u64, Why)] = &[
    (b"", 0, Why::Cut),
    (b" ", 1, Why::Cut),
    (b"<a>", 3, Why::Cut),
    (b"<a", 2, Why::Cut),
    (b"<a></a", 6, Why::Cut),
    (b"<a>&am", 6, Why::Cut),
    (b"<a><!-- x -", 11, Why::Cut),
    (
        b"<?xml version='1.0' encoding='latin1'?><a/>",
        0,
        Why::Encoding,
    ),
    (
        b"\xEF\xBB\xBF<?xml encoding='UTF-16'?><a/>",
        3,
        Why::Encoding,
    ),
    (b"<!DOCTYPE a><a/>", 0, Why::Dtd),
    (b"<a>&nbsp;</a>", 3, Why::Entity),
    (b"<a>&#xFFFE;</a>", 3, Why::Entity),
    (b"<a>&#0;</a>", 3, Why::Entity),
    (b"<a b='x&y;'/>", 7, Why::Entity),
    (b"<p:a/>", 0, Why::Prefix),
    (b"<a p:b='1'/>", 0, Why::Prefix),
    (b"<a><b xmlns:p='u'/><p:c/></a>", 19, Why::Prefix),
    (b"<a b='1' b='2'/>", 0, Why::Syntax),
    (
        b"<a xmlns:p='u' xmlns:q='u' p:b='1' q:b='2'/>",
        0,
        Why::Syntax,
    ),
    (b"<a xmlns:p=''/>", 0, Why::Syntax),
    (b"<a xmlns:xml='u'/>", 0, Why::Syntax),
    (b"<a xmlns:xmlns='u'/>", 0, Why::Syntax),
    (b"<a></b>", 3, Why::Syntax),
    (b"<a/><b/>", 4, Why::Syntax),
    (b"<a/>x", 4, Why::Syntax),
    (b"x<a/>", 0, Why::Syntax),
    (b"<a>]]></a>", 3, Why::Syntax),
    (b"<a><!-- x -- y --></a>", 3, Why::Syntax),
    (b"<a><?XML x?></a>", 3, Why::Syntax),
    (b"<a b=1/>", 0, Why::Syntax),
    (b"<a b='<'/>", 0, Why::Syntax),
    (b"<a>\x01</a>", 3, Why::Syntax),
    (b"<a>\xFF</a>", 3, Why::Syntax),
    (b"<a b='1'c='2'/>", 0, Why::Syntax),
];

/// The first fault of a body.
fn first_fault(alloc: Global, body: &[u8]) -> Option<BodyFault> {
    match read_body(alloc, body) {
        Ok(_) => None,
        Err(fault) => Some(fault),
    }
}

#[test]
fn a_fault_has_its_place_and_reason(rt: HostRuntime) {
    for (body, place, why) in FAULTS {
        let fault = BodyFault::At {
            place: *place,
            why: *why,
        };
        assert!(rt; first_fault(rt.alloc(), body) == Some(fault));
    }
}

/// Pieces of a body, each so many times.
type Pieces = &'static [(&'static [u8], usize)];

fn joined(alloc: Global, pieces: Pieces) -> Result<Octets, NoMemory> {
    let mut body = Octets::new(alloc);
    for (piece, count) in pieces {
        for _ in 0..*count {
            body.extend_from_slice(piece)?;
        }
    }
    Ok(body)
}

/// Whether a body of such pieces has this as its first fault, or none.
fn has_fault(alloc: Global, pieces: Pieces, fault: Option<BodyFault>) -> bool {
    match joined(alloc, pieces) {
        Ok(body) => first_fault(alloc, body.as_slice()) == fault,
        Err(NoMemory) => false,
    }
}

/// An element is at most 32 deep, and at most 64 octets of namespaces are copied for each octet of the body.
const LARGE: &[(&str, Pieces, Option<BodyFault>)] = &[
    ("32 deep", &[(b"<a>", 32), (b"</a>", 32)], None),
    (
        "33 deep",
        &[(b"<a>", 33), (b"</a>", 33)],
        Some(BodyFault::At {
            place: 96,
            why: Why::TooDeep,
        }),
    ),
    (
        "a namespace of 200 octets",
        &[
            (b"<a xmlns='", 1),
            (b"u", 200),
            (b"'>", 1),
            (b"<b/>", 1000),
            (b"</a>", 1),
        ],
        None,
    ),
    (
        "a namespace of 1,000 octets finds no memory",
        &[
            (b"<a xmlns='", 1),
            (b"u", 1000),
            (b"'>", 1),
            (b"<b/>", 1000),
            (b"</a>", 1),
        ],
        Some(BodyFault::NoMemory),
    ),
];

#[test]
fn large_bodies_have_their_limits(rt: HostRuntime) {
    for (name, pieces, fault) in LARGE {
        assert!(rt; has_fault(rt.alloc(), *pieces, *fault), "{name}");
    }
}
