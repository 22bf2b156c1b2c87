//! What bodies in XML ask for.

use cal_base::{Element, NoMemory};
use cal_model::{Content, Props, ReportRequest};
use dav_body::{BodyFault, read_body};
use dav_elements::{read_acl, read_find, read_patch, read_report};
use privileges::{Users, read_users};
use std::alloc::Global;
use std::io;

/// What a body is read as.
#[derive(Clone, Copy)]
enum Kind {
    Find,
    Patch,
    Report,
    Acl,
}

fn kind_of(word: &str) -> Kind {
    match word {
        "patch" => Kind::Patch,
        "report" => Kind::Report,
        "acl" => Kind::Acl,
        _ => Kind::Find,
    }
}

/// One user, `a`, with the empty password.
fn one_user(alloc: Global) -> Result<Users, NoMemory> {
    match read_users(
        alloc,
        b"user a e3b0c44298fc1c149afbf4c8996fb92427ae41e4649b934ca495991b7852b855\n",
    ) {
        Ok(users) => Ok(users),
        Err(_) => Err(NoMemory),
    }
}

fn content_of(alloc: Global, kind: Kind, root: &Element) -> Result<Content, NoMemory> {
    match kind {
        Kind::Find => read_find(alloc, false, root),
        Kind::Patch => read_patch(alloc, root),
        Kind::Report => read_report(alloc, root),
        Kind::Acl => {
            let users = one_user(alloc)?;
            read_acl(alloc, &users, root)
        }
    }
}

/// What is asked for, and how much of it there is.
fn told(content: &Content) -> (&'static str, usize) {
    match content {
        Content::Find(Props::Some(names), _) => ("properties", names.len()),
        Content::Find(_, _) => ("kinds of properties", 1),
        Content::Patch(settings) => ("settings", settings.len()),
        Content::Acl(grants) => ("grants", grants.len()),
        Content::Report(report) => told_report(report),
        Content::Bad(_) => ("refusals", 1),
        _ => ("other contents", 1),
    }
}

fn told_report(report: &ReportRequest) -> (&'static str, usize) {
    match report {
        ReportRequest::Query { filter, .. } => ("filters", filter.top.comps.len()),
        ReportRequest::Multiget { hrefs, .. } => ("hrefs", hrefs.len()),
        ReportRequest::FreeBusy { .. } => ("ranges", 1),
    }
}

/// Prints what a body asks for, read as the word says.
pub fn measure(rt: &HostRuntime, body: &[u8], word: &str) -> io::Result<()> {
    match read_body(rt.alloc(), body) {
        Ok(root) => print_content(rt, kind_of(word), &root),
        Err(BodyFault::At { place, .. }) => println!(rt; "fault at octet {place}"),
        Err(BodyFault::NoMemory) => println!(rt; "out of memory"),
    }
}

/// Prints what a body asks for, and how much of it there is, or that it is refused.
fn print_content(rt: &HostRuntime, kind: Kind, root: &Element) -> io::Result<()> {
    match content_of(rt.alloc(), kind, root) {
        Ok(content) => {
            let (what, count) = told(&content);
            drop(content);
            println!(rt; "{count} {what}")
        }
        Err(NoMemory) => println!(rt; "out of memory"),
    }
}
