//! The path that a target names.
ghost use Rattle.std.specs.Prelude.{◌≡◌, ℕ, ◌∷◌, [], ◌==◌, List, length, ◌≤◌, IfOk, MatchOption, Bool, true, false, not, ◌&&◌, nat_le, IsTrue, ◌↔◌, option_map};
ghost use Rattle.std.specs.List.{position_or_len, list_all};
ghost use Rattle.std.specs.Str.{is_utf8};
ghost use Rattle.percent_encoding.specs.Percent.{percent_decode as decoded_text};
ghost use Rattle.cal_base.specs.Lines.ContentLines.{pieces};
ghost use Rattle.std.specs.Prelude.{bytes_eq, codes, Some, None, if◌then◌else◌};
ghost use Rattle.cal_model.specs.declared.path.Path.TheVariants.{Root};
ghost use Rattle.cal_model.specs.Words.Cuts.{cut_at};
ghost use Rattle.cal_model.specs.Paths.TargetPaths.{is_resource_name, without_query, without_host, path_of_segments, target_path};
ghost use Rattle.dav_write.specs.Segments.{AreSegments, named_path};

use cal_base::{NoMemory, Octets};
use cal_model::{Path, cut, is_resource_name, octets_before};
use percent_encoding::percent_decode;
use std::alloc::Global;

/// What stands between the slashes of a text.
enum Segments<'a> {
    One(&'a [u8]),
    Two(&'a [u8], &'a [u8]),
    Three(&'a [u8], &'a [u8], &'a [u8]),
    Four(&'a [u8], &'a [u8], &'a [u8], &'a [u8]),
    More,
}

/// The path that a target of a request, or an href in a body, names; none where it has not the shape
/// of one (RFC 3986, 2.1, 3.3 and 3.4; RFC 9112, 3.2.1 and 3.2.2).
///
/// A query goes, and `http://` with a host in front. Each segment is percent-decoded by itself, so
/// `%2F` parts no segments. The last slash of a collection may be absent; an object has none.
pub fn read_path(alloc: Global, target: &[u8]) -> Result<Option<Path>, NoMemory>
    ensures { IfOk result (λ path. path ≡ target_path target.now) }
{
    let text = without_host(without_query(target));
    let Some((first, behind)) = text.split_first() else {
        return Ok(Some(Path::Root));
    };
    if *first == b'/' {
        path_of_segments(alloc, behind)
    } else {
        Ok(None)
    }
}

/// A target without its query.
fn without_query(target: &[u8]) -> &[u8]
    ensures { result.now ≡ without_query target.now }
{
    match cut(target, b'?') {
        Some((text, _query)) => text,
        None => target,
    }
}

/// A text without `http://` and a host in front of the path.
fn without_host(text: &[u8]) -> &[u8]
    ensures { result.now ≡ without_host text.now }
{
    if !text.starts_with(b"http://") {
        return text;
    }
    let host = octets_before(&text[7..], b'/');
    if host == 0 { text } else { &text[7 + host..] }
}

/// The path of the text behind the first slash.
fn path_of_segments(alloc: Global, text: &[u8]) -> Result<Option<Path>, NoMemory>
    ensures { IfOk result (λ path. path ≡ path_of_segments (pieces 47 text.now)) }
{
    match segments_of(text) {
        Segments::One(kind) => Ok(root_if(kind.is_empty())),
        Segments::Two(kind, user) => {
            if user.is_empty() {
                Ok(None)
            } else {
                path_of_two(alloc, kind, user)
            }
        }
        Segments::Three(kind, user, calendar) => {
            if calendar.is_empty() {
                path_of_two(alloc, kind, user)
            } else {
                path_of_three(alloc, kind, user, calendar)
            }
        }
        Segments::Four(kind, user, calendar, object) => {
            if object.is_empty() {
                path_of_three(alloc, kind, user, calendar)
            } else {
                path_of_four(alloc, kind, user, calendar, object)
            }
        }
        Segments::More => Ok(None),
    }
}

fn root_if(applies: bool) -> Option<Path>
    ensures { result ≡ (if applies then Some Root else None) }
{
    if applies { Some(Path::Root) } else { None }
}

/// The segments of a text, as far as a path has them.
fn segments_of(text: &[u8]) -> Segments<'_>
    ensures { AreSegments (pieces 47 text.now) result }
{
    let Some((first, rest)) = cut(text, b'/') else {
        return Segments::One(text);
    };
    let Some((second, rest)) = cut(rest, b'/') else {
        return Segments::Two(first, rest);
    };
    let Some((third, rest)) = cut(rest, b'/') else {
        return Segments::Three(first, second, rest);
    };
    match cut(rest, b'/') {
        Some(_) => Segments::More,
        None => Segments::Four(first, second, third, rest),
    }
}

/// The path of two segments.
fn path_of_two(alloc: Global, kind: &[u8], user: &[u8]) -> Result<Option<Path>, NoMemory>
    ensures { IfOk result (λ path. (ends : Bool) → path ≡ named_path ends (decoded_text kind.now ∷ decoded_text user.now ∷ [])) }
{
    let kind = decoded(alloc, kind)?;
    let user = decoded(alloc, user)?;
    Ok(named_two(kind.as_slice(), user))
}

fn named_two(kind: &[u8], user: Octets) -> Option<Path>
    ensures { (ends : Bool) → result ≡ named_path ends (kind.now ∷ user ∷ []) }
{
    if user.is_empty() {
        None
    } else if kind == b"principals".as_slice() {
        Some(Path::Principal(user))
    } else if kind == b"calendars".as_slice() {
        Some(Path::Home(user))
    } else {
        None
    }
}

/// The path of three segments.
fn path_of_three(
    alloc: Global,
    kind: &[u8],
    user: &[u8],
    calendar: &[u8],
) -> Result<Option<Path>, NoMemory>
    ensures { IfOk result (λ path. (ends : Bool) → path ≡ named_path ends (decoded_text kind.now ∷ decoded_text user.now ∷ decoded_text calendar.now ∷ [])) }
{
    let kind = decoded(alloc, kind)?;
    let user = decoded(alloc, user)?;
    let calendar = decoded(alloc, calendar)?;
    Ok(named_three(kind.as_slice(), user, calendar))
}

fn named_three(kind: &[u8], user: Octets, calendar: Octets) -> Option<Path>
    ensures { (ends : Bool) → result ≡ named_path ends (kind.now ∷ user ∷ calendar ∷ []) }
{
    if !user.is_empty() && is_calendars(kind) && is_resource_name(calendar.as_slice()) {
        Some(Path::Calendar(user, calendar))
    } else {
        None
    }
}

/// The path of four segments, of which the last is not empty.
fn path_of_four(
    alloc: Global,
    kind: &[u8],
    user: &[u8],
    calendar: &[u8],
    object: &[u8],
) -> Result<Option<Path>, NoMemory>
    ensures { IfOk result (λ path. path ≡ named_path false (decoded_text kind.now ∷ decoded_text user.now ∷ decoded_text calendar.now ∷ decoded_text object.now ∷ [])) }
{
    let kind = decoded(alloc, kind)?;
    let user = decoded(alloc, user)?;
    let calendar = decoded(alloc, calendar)?;
    let object = decoded(alloc, object)?;
    Ok(named_four(kind.as_slice(), user, calendar, object))
}

fn named_four(kind: &[u8], user: Octets, calendar: Octets, object: Octets) -> Option<Path>
    ensures { result ≡ named_path false (kind.now ∷ user ∷ calendar ∷ object ∷ []) }
{
    let named = !user.is_empty()
        && is_calendars(kind)
        && is_resource_name(calendar.as_slice())
        && is_resource_name(object.as_slice());
    if named {
        Some(Path::Object(user, calendar, object))
    } else {
        None
    }
}

fn is_calendars(kind: &[u8]) -> bool
    ensures { result ≡ bytes_eq kind.now (codes "calendars") }
{
    kind == b"calendars".as_slice()
}

/// The octets of a segment, each escape replaced.
fn decoded(alloc: Global, segment: &[u8]) -> Result<Octets, NoMemory>
    ensures { IfOk result (λ octets. octets ≡ decoded_text segment.now) }
{
    let mut octets = Vec::new(alloc);
    percent_decode(segment).append_to(&mut octets)?;
    Ok(Octets::from_vec(octets))
}
