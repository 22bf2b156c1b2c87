//! Paths in the spellings of RFC 3986 and of clients, and as they are written.

use cal_base::{NoMemory, Octets};
use cal_model::Path;
use dav_write::{append_path, read_path, write_path};
use std::alloc::Global;

/// Targets and the written form of the path that each names.
const NAMED: &[(&[u8], &[u8])] = &[
    (b"/", b"/"),
    (b"", b"/"),
    (b"?x", b"/"),
    (b"http://h", b"/"),
    (b"http://h:8080/calendars/u/", b"/calendars/u/"),
    (b"/principals/alice", b"/principals/alice/"),
    (b"/principal%73/alice/", b"/principals/alice/"),
    (b"/principals/%2F/", b"/principals/%2F/"),
    (b"/calendars/u", b"/calendars/u/"),
    (b"/calendars/u/c?x/y", b"/calendars/u/c/"),
    (b"/calendars/u/c/", b"/calendars/u/c/"),
    (b"/calendars/u/c/o", b"/calendars/u/c/o"),
    (b"/calendars/u/c/o?", b"/calendars/u/c/o"),
    (b"/calendars/u/c/%zz", b"/calendars/u/c/%25zz"),
    (b"/calendars/u/c/%4", b"/calendars/u/c/%254"),
    // RFC 3986, 2.3 and 6.2.2: octets that need no escape, and digits of either case.
    (b"/calendars/%7euser/", b"/calendars/~user/"),
    (b"/calendars/u/c/%41%2e%2D%5f", b"/calendars/u/c/A.-_"),
    (b"/calendars/u/c/a%c3%a9", b"/calendars/u/c/a%C3%A9"),
    // Names as clients make them.
    (
        b"/calendars/joe%40example.com/",
        b"/calendars/joe@example.com/",
    ),
    (
        b"/calendars/joe@example.com/My%20calendar/",
        b"/calendars/joe@example.com/My%20calendar/",
    ),
    (
        b"/calendars/u/c/040000008200E00074C5B7101A82E008%2B1.ics",
        b"/calendars/u/c/040000008200E00074C5B7101A82E008%2B1.ics",
    ),
    (b"/calendars/u/c/a+b#c.ics", b"/calendars/u/c/a%2Bb%23c.ics"),
    (b"/calendars/u/c/...", b"/calendars/u/c/..."),
    (b"/calendars/u/c/%7F", b"/calendars/u/c/%7F"),
];

/// Targets that name no path.
const UNNAMED: &[&[u8]] = &[
    b"*",
    b"//",
    b"calendars/u/",
    b"http:///",
    b"HTTP://h/",
    b"https://h/",
    b"/principals/",
    b"/calendars//c/o",
    b"/Calendars/u/",
    b"/principals/u/c",
    b"/calendars/u/c/a%2Fb",
    b"/calendars/u/.",
    b"/calendars/u/c/..",
    b"/calendars/u/c/%2e%2E",
    b"/calendars/u/c/o/",
    b"/calendars/u/c/o/p",
    b"/calendars/u/c/%C3",
    b"/calendars/u/c/a%0Ab",
];

/// Whether a path is written so, by itself and behind an `a`.
fn is_written_so(alloc: Global, path: &Path, octets: &[u8]) -> Result<bool, NoMemory> {
    let written = write_path(alloc, path)?;
    let mut out = Octets::of(alloc, b"a")?;
    append_path(path, &mut out)?;
    let appended = out.as_slice().strip_prefix(b"a".as_slice());
    Ok(written.as_slice() == octets && appended == Some(octets))
}

/// Whether a target names the path that is written so, or none where that is empty.
fn is_named(alloc: Global, target: &[u8], octets: &[u8]) -> bool {
    match read_path(alloc, target) {
        Ok(Some(path)) => is_written_so(alloc, &path, octets) == Ok(true),
        Ok(None) => octets.is_empty(),
        Err(NoMemory) => false,
    }
}

#[test]
fn targets_name_paths_or_none(rt: HostRuntime) {
    for (target, octets) in NAMED {
        assert!(rt; is_named(rt.alloc(), target, octets), "a path is named");
    }
    for target in UNNAMED {
        assert!(rt; is_named(rt.alloc(), target, b""), "no path is named");
    }
}

/// The path of an object whose name has so many octets.
fn target(alloc: Global, octets: u8) -> Result<Octets, NoMemory> {
    let mut target = Octets::of(alloc, b"/calendars/u/c/")?;
    for _ in 0..octets {
        target.push(b'o')?;
    }
    Ok(target)
}

/// Whether the target of a name of so many octets names its path, or none.
fn is_named_or_none(alloc: Global, octets: u8, is_path: bool) -> bool {
    match target(alloc, octets) {
        Ok(target) => {
            let target = target.as_slice();
            is_named(alloc, target, if is_path { target } else { b"" })
        }
        Err(NoMemory) => false,
    }
}

#[test]
fn names_have_up_to_200_octets(rt: HostRuntime) {
    assert!(rt; is_named_or_none(rt.alloc(), 200, true));
    assert!(rt; is_named_or_none(rt.alloc(), 201, false));
}
