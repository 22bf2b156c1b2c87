//! The request of a record, read from what a payload has behind the calendar's name.
ghost use Rattle.std.specs.Prelude.{◌≡◌, ℕ, ◌<◌, ◌≤◌, ◌^◌, length, IsNone, IfSome, IfOk};
ghost use Rattle.cal_model.specs.History.Journal.{plain};
ghost use Rattle.cal_model.specs.State.ServerState.{directory_of, user_name};
ghost use Rattle.cal_keeper.specs.Steps.Decoding.{AsksForOwn, HasNoOwn};

use crate::grant_reading::all_grants_at;
use crate::parts::{long_at, name_at};
use crate::principals::counts_of;
use crate::set_reading::settings_at;
use cal_base::{NoMemory, Octets};
use cal_model::{Content, Method, Path, Request};
use privileges::Users;
use std::alloc::Global;

/// The request of a kind of change that is all of the octets.
pub(crate) fn request_at(
    alloc: Global,
    users: &Users,
    kind: u8,
    home: u32,
    calendar: &[u8],
    octets: &[u8],
) -> Result<Option<Request>, NoMemory>
    requires known { home < length users.now.people }
    requires short { length octets.now < 2 ^ 32 }
    ensures found { IfOk result (λ found. IfSome found (AsksForOwn users.now kind home calendar.now octets.now)) }
    ensures none { IfOk result (λ found. IsNone found → HasNoOwn users.now kind home calendar.now octets.now) }
{
    match kind {
        1 => put_at(alloc, users, home, calendar, octets),
        2 => object_deletion_at(alloc, users, home, calendar, octets),
        3 => calendar_deletion_at(alloc, users, home, calendar, octets),
        4 => make_at(alloc, users, home, calendar, octets),
        5 => patch_at(alloc, users, home, calendar, octets),
        6 => acl_at(alloc, users, home, calendar, octets),
        _ => Ok(None),
    }
}

/// A PUT.
fn put_at(
    alloc: Global,
    users: &Users,
    home: u32,
    calendar: &[u8],
    octets: &[u8],
) -> Result<Option<Request>, NoMemory>
    requires known { home < length users.now.people }
    requires short { length octets.now < 2 ^ 32 }
    ensures found { IfOk result (λ found. IfSome found (AsksForOwn users.now 1 home calendar.now octets.now)) }
    ensures none { IfOk result (λ found. IsNone found → HasNoOwn users.now 1 home calendar.now octets.now) }
{
    let Some((object, rest)) = name_at(octets) else {
        return Ok(None);
    };
    let Some((text, rest)) = long_at(rest) else {
        return Ok(None);
    };
    if !rest.is_empty() {
        return Ok(None);
    }
    let path = object_path(alloc, users, home, calendar, object)?;
    let content = Content::Put {
        media_ok: true,
        octets: Octets::of(alloc, text)?,
    };
    let size = text.len() as u32;
    Ok(Some(plain(Method::Put, path, size, content)))
}

/// A DELETE of an object.
fn object_deletion_at(
    alloc: Global,
    users: &Users,
    home: u32,
    calendar: &[u8],
    octets: &[u8],
) -> Result<Option<Request>, NoMemory>
    requires known { home < length users.now.people }
    ensures found { IfOk result (λ found. IfSome found (AsksForOwn users.now 2 home calendar.now octets.now)) }
    ensures none { IfOk result (λ found. IsNone found → HasNoOwn users.now 2 home calendar.now octets.now) }
{
    let Some((object, rest)) = name_at(octets) else {
        return Ok(None);
    };
    if !rest.is_empty() {
        return Ok(None);
    }
    let path = object_path(alloc, users, home, calendar, object)?;
    Ok(Some(plain(Method::Delete, path, 0, Content::None)))
}

/// A DELETE of a calendar.
fn calendar_deletion_at(
    alloc: Global,
    users: &Users,
    home: u32,
    calendar: &[u8],
    octets: &[u8],
) -> Result<Option<Request>, NoMemory>
    requires known { home < length users.now.people }
    ensures found { IfOk result (λ found. IfSome found (AsksForOwn users.now 3 home calendar.now octets.now)) }
    ensures none { IfOk result (λ found. IsNone found → HasNoOwn users.now 3 home calendar.now octets.now) }
{
    if !octets.is_empty() {
        return Ok(None);
    }
    let path = calendar_path(alloc, users, home, calendar)?;
    Ok(Some(plain(Method::Delete, path, 0, Content::None)))
}

/// A MKCALENDAR.
fn make_at(
    alloc: Global,
    users: &Users,
    home: u32,
    calendar: &[u8],
    octets: &[u8],
) -> Result<Option<Request>, NoMemory>
    requires known { home < length users.now.people }
    requires short { length octets.now < 2 ^ 32 }
    ensures found { IfOk result (λ found. IfSome found (AsksForOwn users.now 4 home calendar.now octets.now)) }
    ensures none { IfOk result (λ found. IsNone found → HasNoOwn users.now 4 home calendar.now octets.now) }
{
    let Some((size, sets)) = settings_at(alloc, octets)? else {
        return Ok(None);
    };
    let path = calendar_path(alloc, users, home, calendar)?;
    Ok(Some(plain(Method::Mkcalendar, path, size, Content::Make(sets))))
}

/// A PROPPATCH.
fn patch_at(
    alloc: Global,
    users: &Users,
    home: u32,
    calendar: &[u8],
    octets: &[u8],
) -> Result<Option<Request>, NoMemory>
    requires known { home < length users.now.people }
    requires short { length octets.now < 2 ^ 32 }
    ensures found { IfOk result (λ found. IfSome found (AsksForOwn users.now 5 home calendar.now octets.now)) }
    ensures none { IfOk result (λ found. IsNone found → HasNoOwn users.now 5 home calendar.now octets.now) }
{
    let Some((size, sets)) = settings_at(alloc, octets)? else {
        return Ok(None);
    };
    let path = calendar_path(alloc, users, home, calendar)?;
    Ok(Some(plain(Method::Proppatch, path, size, Content::Patch(sets))))
}

/// An ACL.
fn acl_at(
    alloc: Global,
    users: &Users,
    home: u32,
    calendar: &[u8],
    octets: &[u8],
) -> Result<Option<Request>, NoMemory>
    requires known { home < length users.now.people }
    requires short { length octets.now < 2 ^ 32 }
    ensures found { IfOk result (λ found. IfSome found (AsksForOwn users.now 6 home calendar.now octets.now)) }
    ensures none { IfOk result (λ found. IsNone found → HasNoOwn users.now 6 home calendar.now octets.now) }
{
    let Some((size, grants)) = all_grants_at(alloc, octets, counts_of(users))? else {
        return Ok(None);
    };
    let path = calendar_path(alloc, users, home, calendar)?;
    Ok(Some(plain(Method::Acl, path, size, Content::Acl(grants))))
}

/// The path of an object in the home of a user's number.
fn object_path(
    alloc: Global,
    users: &Users,
    home: u32,
    calendar: &[u8],
    object: &[u8],
) -> Result<Path, NoMemory>
    requires { home < length users.now.people }
    ensures { IfOk result (λ path. path ≡ Path.Object (user_name (directory_of users.now) home) calendar.now object.now) }
{
    let user = Octets::of(alloc, users.name(home))?;
    let calendar = Octets::of(alloc, calendar)?;
    let object = Octets::of(alloc, object)?;
    Ok(Path::Object(user, calendar, object))
}

/// The path of a calendar in it.
fn calendar_path(alloc: Global, users: &Users, home: u32, calendar: &[u8]) -> Result<Path, NoMemory>
    requires { home < length users.now.people }
    ensures { IfOk result (λ path. path ≡ Path.Calendar (user_name (directory_of users.now) home) calendar.now) }
{
    let user = Octets::of(alloc, users.name(home))?;
    let calendar = Octets::of(alloc, calendar)?;
    Ok(Path::Calendar(user, calendar))
}

/// A request without conditions.
fn plain(method: Method, path: Path, size: u32, content: Content) -> Request
    ensures { result ≡ plain method path size content }
{
    Request {
        method,
        path,
        if_match: None,
        if_none: None,
        size,
        content,
    }
}
