//! Reading a users file.
ghost use Rattle.std.specs.Prelude.{◌≡◌, ℕ, ◌+◌, ◌<◌, ◌≤◌, ◌^◌, length, Ok, Err, IfOk, IfNone, IfSome, OnOk, OnErr, IsErrOf, IsNone, Option, Some};
ghost use Rattle.cal_base.specs.Lines.ContentLines.{pieces};
ghost use Rattle.cal_base.specs.Texts.Octets.{line_feed, space};
ghost use Rattle.cal_model.specs.Users.UsersFile.{users_of, user_of_line, number_of, user_limit};
ghost use Rattle.privileges.specs.KnownUsers.{name_limit};
ghost use Rattle.privileges.specs.LineReading.{read_line, read_on, with_user, with_named, is_taken};
ghost use Rattle.privileges.specs.Marks.{no_marks, with_mark, with_marks};

use crate::lines::{cut, group_of_line, is_silent, user_of_line};
use crate::users::Users;
use cal_base::NoMemory;
use std::alloc::Global;

/// The most users of a file.
const MOST_USERS: u32 = 32;

/// The most groups of a file.
const MOST_GROUPS: u32 = 16;

/// Why a users file was not read.
#[derive(Debug, Clone, Copy, PartialEq, Eq)]
pub enum UsersFault {
    /// The first line that is outside the grammar, lacks its end, repeats a name, names a user or a
    /// group too many, or a member who is no user of an earlier line: the place of its first octet in
    /// the file.
    Line { place: u64 },
    /// There was no memory.
    NoMemory,
}

impl From<NoMemory> for UsersFault {
    ghost use Rattle.std.specs.Prelude.{◌≡◌};
    ghost use Rattle.privileges.specs.declared.reading.UsersFault.TheVariants.{NoMemory as WithoutMemory};

    ghost from_gives = { λ _ fault. fault ≡ WithoutMemory };

    fn from(_error: NoMemory) -> UsersFault {
        UsersFault::NoMemory
    }
}

/// The users and the groups of a file, in the order of its lines.
///
/// A line ends in a line feed alone. It is empty, a comment that begins with `#`, `user NAME HASH`,
/// or `group NAME MEMBERS`, with single spaces: a name of 1 to 32 of `a-z 0-9 - _ .`, a letter first,
/// the SHA-256 of the password in 64 lower-case hexadecimal digits, and one or more names of users of
/// earlier lines, each once. No name stands twice among users and groups, and there are at most 32
/// users and 16 groups. The lines are gone over once, and each name is looked up once or twice.
pub fn read_users(alloc: Global, octets: &[u8]) -> Result<Users, UsersFault>
    ensures users { IfOk result (λ users. users_of octets.now ≡ Ok users) }
    ensures fault { (place : ℕ) → IsErrOf result (UsersFault.Line place) → users_of octets.now ≡ Err place }
{
    let mut users = Users::new(alloc);
    match read_lines(alloc, &mut users, octets) {
        Ok(()) => Ok(users),
        Err(fault) => Err(fault),
    }
}

/// Adds the users of all lines to those that are known.
fn read_lines(alloc: Global, users: &mut Users, octets: &[u8]) -> Result<(), UsersFault>
    ensures users { OnOk result (read_on users.old 0 (pieces line_feed octets.now) ≡ Ok users.new) }
    ensures fault { (place : ℕ) → IsErrOf result (UsersFault.Line place) → read_on users.old 0 (pieces line_feed octets.now) ≡ Err place }
{
    let mut rest = octets;
    'lines: while let Some((line, behind)) = cut(rest, b'\n') {
        let place = (octets.len() - rest.len()) as u64;
        read_line(alloc, users, place, line)?;
        rest = behind;
    }
    if rest.is_empty() {
        Ok(())
    } else {
        let place = (octets.len() - rest.len()) as u64;
        Err(UsersFault::Line { place })
    }
}

/// Adds the user of a line at a place, if it names one.
fn read_line(alloc: Global, users: &mut Users, place: u64, line: &[u8]) -> Result<(), UsersFault>
    ensures users { OnOk result (read_line users.old place line.now ≡ Ok users.new) }
    ensures fault { (at : ℕ) → IsErrOf result (UsersFault.Line at) → read_line users.old place line.now ≡ Err at }
{
    match user_of_line(line) {
        Some((name, digest)) => add_user(alloc, users, place, name, digest),
        None => read_other_line(alloc, users, place, line),
    }
}

/// Adds the group of a line at a place that names no user, if it names one.
fn read_other_line(
    alloc: Global,
    users: &mut Users,
    place: u64,
    line: &[u8],
) -> Result<(), UsersFault>
    requires { user_of_line line.now ≡ None }
    ensures users { OnOk result (read_line users.old place line.now ≡ Ok users.new) }
    ensures fault { (at : ℕ) → IsErrOf result (UsersFault.Line at) → read_line users.old place line.now ≡ Err at }
{
    match group_of_line(line) {
        Some((name, members)) => add_group(alloc, users, place, name, members),
        None if is_silent(line) => Ok(()),
        None => Err(UsersFault::Line { place }),
    }
}

/// Whether a user or a group has a name.
fn is_taken(users: &Users, name: &[u8]) -> bool
    ensures { result ≡ is_taken users.now name.now }
{
    users.find(name).is_some() || users.find_group(name).is_some()
}

/// The marks of the users whom a text names, each once; none where it names somebody else, or
/// somebody twice.
fn members_of(users: &Users, text: &[u8]) -> Option<[bool; 32]>
    requires { length users.now.people ≤ user_limit }
    ensures { result ≡ with_marks users.now (pieces space text.now) no_marks }
{
    let mut members = [false; 32];
    let mut rest = text;
    'names: while let Some((name, behind)) = cut(rest, b' ') {
        members = with_member(users, name, members)?;
        rest = behind;
    }
    with_member(users, rest, members)
}

/// With the mark of the user of a name; none where nobody has it, or the user is marked already.
fn with_member(users: &Users, name: &[u8], members: [bool; 32]) -> Option<[bool; 32]>
    requires { length users.now.people ≤ user_limit }
    ensures { result ≡ with_mark members (number_of users.now name.now) }
{
    let who = users.find(name)? as usize;
    if members[who] {
        return None;
    }
    let mut more = members;
    more[who] = true;
    Some(more)
}

/// Adds a group whose line stands at a place, if there is room, nobody has the name, and its members
/// are users, each once.
fn add_group(
    alloc: Global,
    users: &mut Users,
    place: u64,
    name: &[u8],
    members: &[u8],
) -> Result<(), UsersFault>
    requires named { 0 < length name.now }
    requires short { length name.now ≤ name_limit }
    ensures users { OnOk result (with_named users.old place (record { name = name.now; members = pieces space members.now }) ≡ Ok users.new) }
    ensures fault { (at : ℕ) → IsErrOf result (UsersFault.Line at) → with_named users.old place (record { name = name.now; members = pieces space members.now }) ≡ Err at }
{
    // A look at how many they are, which tells a proof that they are few and told apart.
    let _count = users.len();
    if users.groups() >= MOST_GROUPS || is_taken(users, name) {
        return Err(UsersFault::Line { place });
    }
    match members_of(users, members) {
        Some(members) => {
            users.add_group(alloc, name, members)?;
            Ok(())
        }
        None => Err(UsersFault::Line { place }),
    }
}

/// Adds a user whose line stands at a place, if there is room and nobody has the name.
fn add_user(
    alloc: Global,
    users: &mut Users,
    place: u64,
    name: &[u8],
    digest: &[u8],
) -> Result<(), UsersFault>
    requires named { 0 < length name.now }
    requires short { length name.now ≤ name_limit }
    requires whole { length digest.now ≡ 64 }
    ensures users { OnOk result (with_user users.old place (record { name = name.now; digest = digest.now }) ≡ Ok users.new) }
    ensures fault { (at : ℕ) → IsErrOf result (UsersFault.Line at) → with_user users.old place (record { name = name.now; digest = digest.now }) ≡ Err at }
{
    if users.len() >= MOST_USERS || is_taken(users, name) {
        return Err(UsersFault::Line { place });
    }
    let mut octets = [0; 64];
    octets.copy_from_slice(digest);
    users.add(alloc, name, octets)?;
    Ok(())
}
