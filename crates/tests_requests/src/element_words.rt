//! What a body asks for, in words.

use crate::element_details::is_that_content;
use crate::wanted::Wanted;
use cal_base::{Element, NoMemory, Octets};
use cal_model::{Cond, Content, Method, Props, Recur, Refusal, ReportRequest};
use dav_body::{BodyFault, read_body};
use dav_elements::{read_acl, read_find, read_make, read_patch, read_report};
use privileges::read_users;
use std::alloc::Global;

/// Alice and bob, whose password is `abc`, and two groups: the digest is by the program sha256sum.
const USERS: &[u8] =
    b"user alice ba7816bf8f01cfea414140de5dae2223b00361a396177a9cb410ff61f20015ad\nuser bob ba7816bf8f01cfea414140de5dae2223b00361a396177a9cb410ff61f20015ad\ngroup own alice\ngroup team alice bob\n";

fn grants_in(alloc: Global, root: &Element) -> Result<Content, NoMemory> {
    match read_users(alloc, USERS) {
        Ok(users) => read_acl(alloc, &users, root),
        Err(_) => Err(NoMemory),
    }
}

/// What a method takes from the root of a body.
fn content_in(alloc: Global, method: Method, root: &Element) -> Result<Content, NoMemory> {
    match method {
        Method::Proppatch => read_patch(alloc, root),
        Method::Mkcalendar => read_make(alloc, root),
        Method::Report => read_report(alloc, root),
        Method::Acl => grants_in(alloc, root),
        _ => read_find(alloc, false, root),
    }
}

/// Whether these words tell what is asked for, and if that is looked at, to the last value.
fn is_told_of_content(content: &Content, words: &[u8], to_the_last_value: bool) -> bool {
    let mut wanted = Wanted::new(words);
    put_content(&mut wanted, content);
    wanted.is_whole() && (!to_the_last_value || is_that_content(content))
}

/// The same of what a method takes from the root of a body.
fn is_told_of_root(
    alloc: Global,
    method: Method,
    root: &Element,
    words: &[u8],
    to_the_last_value: bool,
) -> bool {
    match content_in(alloc, method, root) {
        Ok(content) => is_told_of_content(&content, words, to_the_last_value),
        Err(NoMemory) => false,
    }
}

/// The same of a body, which may be not well formed.
fn is_told_of_body(
    alloc: Global,
    method: Method,
    body: &[u8],
    words: &[u8],
    to_the_last_value: bool,
) -> bool {
    match read_body(alloc, body) {
        Ok(root) => is_told_of_root(alloc, method, &root, words, to_the_last_value),
        Err(BodyFault::NoMemory) => false,
        Err(BodyFault::At { .. }) => words == b"not read".as_slice(),
    }
}

/// The same of a body without the declarations of its prefixes.
pub fn is_told(
    alloc: Global,
    method: Method,
    bare: &[u8],
    words: &[u8],
    to_the_last_value: bool,
) -> bool {
    match declared(alloc, bare) {
        Ok(body) => is_told_of_body(alloc, method, body.as_slice(), words, to_the_last_value),
        Err(NoMemory) => false,
    }
}

/// A body whose root declares the two prefixes, behind its name.
fn declared(alloc: Global, bare: &[u8]) -> Result<Octets, NoMemory> {
    let mut out = Octets::new(alloc);
    let mut is_declared = false;
    for octet in bare {
        if !is_declared && (*octet == b'>' || *octet == b'/') {
            out.extend_from_slice(b" xmlns:D=\"DAV:\" xmlns:C=\"urn:ietf:params:xml:ns:caldav\"")?;
            is_declared = true;
        }
        out.push(*octet)?;
    }
    Ok(out)
}

fn put_content(wanted: &mut Wanted<'_>, content: &Content) {
    match content {
        Content::Find(props, _) => put_props(wanted, props),
        Content::Patch(settings) | Content::Make(settings) => {
            put_count(wanted, settings.len());
            wanted.put(b" set");
        }
        Content::Acl(grants) => {
            put_count(wanted, grants.len());
            wanted.put(b" granted");
        }
        Content::Report(report) => put_report(wanted, report),
        Content::Bad(refusal) => put_refusal(wanted, refusal),
        _ => wanted.put(b"another"),
    }
}

fn put_refusal(wanted: &mut Wanted<'_>, refusal: &Refusal) {
    match &refusal.cond {
        Cond::None => wanted.put(b"bad request"),
        Cond::Dav(condition) | Cond::Cal(condition) => wanted.put(condition.as_slice()),
    }
}

fn put_props(wanted: &mut Wanted<'_>, props: &Props) {
    match props {
        Props::All => wanted.put(b"all"),
        Props::Names => wanted.put(b"names"),
        Props::None => wanted.put(b"no properties"),
        Props::Some(names) => put_count(wanted, names.len()),
    }
}

fn put_report(wanted: &mut Wanted<'_>, report: &ReportRequest) {
    match report {
        ReportRequest::Query { props, select, .. } => {
            wanted.put(b"query ");
            put_props(wanted, props);
            put_recur(wanted, select.recur);
        }
        ReportRequest::Multiget {
            props,
            select,
            hrefs,
        } => {
            wanted.put(b"multiget ");
            put_props(wanted, props);
            put_recur(wanted, select.recur);
            wanted.put(b" of ");
            put_count(wanted, hrefs.len());
        }
        ReportRequest::FreeBusy { .. } => wanted.put(b"free-busy"),
    }
}

fn put_recur(wanted: &mut Wanted<'_>, recur: Recur) {
    match recur {
        Recur::Whole => {}
        Recur::Expand(_) => wanted.put(b" expanded"),
        Recur::Limit(_) => wanted.put(b" limited"),
    }
}

/// A count of at most nine, and a plus beyond.
fn put_count(wanted: &mut Wanted<'_>, count: usize) {
    let digit = if count < 10 { b'0' + count as u8 } else { b'+' };
    wanted.put(&[digit]);
}
