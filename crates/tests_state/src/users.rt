//! What no clause says: that the definitions of users, of groups and of what they hold mean what was
//! meant, and that a file is read where there is memory.
ghost use Rattle.std.specs.Prelude.{◌<◌, ◌≡◌, true, IfOk, length};
ghost use Rattle.cal_model.specs.State.ServerState.{directory_of};
ghost use Rattle.cal_model.specs.State.SoundStates.{HaveGroups, IsToGroup};

use crate::users_view::UsersView;
use cal_base::{List, NoMemory, Octets};
use cal_model::view::View;
use cal_model::{Acl, Grant, PrivilegeSet, Who};
use privileges::{Users, UsersFault, held, read_users};
use std::alloc::Global;
use std::test::Fail;

/// The SHA-256 of `abc`, by the program sha256sum: an `H` of the files below stands for it.
const ABC: &[u8; 64] = b"ba7816bf8f01cfea414140de5dae2223b00361a396177a9cb410ff61f20015ad";

/// The SHA-256 of nothing: a `K` stands for it.
const NOTHING: &[u8; 64] = b"e3b0c44298fc1c149afbf4c8996fb92427ae41e4649b934ca495991b7852b855";

/// The octets of a template, each `H` and `K` replaced by its digest.
fn filled(alloc: Global, template: &[u8]) -> Result<Octets, NoMemory> {
    let mut octets = Octets::new(alloc);
    for octet in template {
        match *octet {
            b'H' => octets.extend_from_slice(ABC.as_slice())?,
            b'K' => octets.extend_from_slice(NOTHING.as_slice())?,
            other => octets.push(other)?,
        }
    }
    Ok(octets)
}

/// How many users and how many groups a file names, or the place of its first fault.
fn reading(alloc: Global, octets: &[u8]) -> Result<(u32, u32), UsersFault> {
    let users = read_users(alloc, octets)?;
    Ok((users.len(), users.groups()))
}

/// A line of a user takes 76 octets with the name alice, and 74 with bob.
#[test]
fn files_are_read(rt: HostRuntime) -> Result<(), Fail> {
    let rows: [(&[u8], u32, u32); 13] = [
        (b"", 0, 0),
        (b"\n", 0, 0),
        (b"#\n# user alice\n\n", 0, 0),
        (b"user alice H\n", 1, 0),
        (b"# x\nuser bob H\n\nuser alice K\n", 2, 0),
        (b"user alice H\nuser bob H\n#\r\n", 2, 0),
        (b"user a H\nuser a1-_. H\n", 2, 0),
        (b"user abcdefghijklmnopqrstuvwxyzabcdef H\n", 1, 0),
        (b"user user H\n", 1, 0),
        (b"user alice H\ngroup team alice\n", 1, 1),
        (
            b"user a H\nuser b H\ngroup team b a\nuser c H\n#\ngroup a1-_. c a\n",
            3,
            2,
        ),
        (b"user group H\ngroup user group\n", 1, 1),
        (
            b"user a H\ngroup abcdefghijklmnopqrstuvwxyzabcdef a\n",
            1,
            1,
        ),
    ];
    for (template, users, groups) in rows {
        let octets = filled(rt.alloc(), template)?;
        assert!(rt; reading(rt.alloc(), octets.as_slice()) == Ok((users, groups)));
    }
    Ok(())
}

#[test]
fn faults_are_told_at_their_line(rt: HostRuntime) -> Result<(), Fail> {
    let rows: [(&[u8], u64); 39] = [
        (b"x", 0),
        (b" \n", 0),
        (b"\r\n", 0),
        (b"user alice H", 0),
        (b"user alice H\n#", 76),
        (b"user alice H\r\n", 0),
        (b"user alice  H\n", 0),
        (b"user alice H \n", 0),
        (b"user alice H K\n", 0),
        (b"user alice\n", 0),
        (b"User alice H\n", 0),
        (b"user 1a H\n", 0),
        (b"user .a H\n", 0),
        (b"user Alice H\n", 0),
        (b"user  H\n", 0),
        (b"user abcdefghijklmnopqrstuvwxyzabcdefg H\n", 0),
        (b"user alice Ha\n", 0),
        (b"\nuser alice H\nuser Bob H\nuser alice H\n", 77),
        (b"user alice H\nuser bob H\nuser alice K\nx\n", 150),
        (b"user alice H\nx\nuser alice H\n", 76),
        (b"user alice H\ngroup team\n", 76),
        (b"user alice H\ngroup team \n", 76),
        (b"user alice H\ngroup team  alice\n", 76),
        (b"user alice H\ngroup team alice \n", 76),
        (b"user alice H\ngroup team alice", 76),
        (b"user alice H\ngroup team alice alice\n", 76),
        (b"user alice H\ngroup team bob\n", 76),
        (b"user alice H\ngroup team bob\nuser bob H\n", 76),
        (b"group team alice\nuser alice H\n", 0),
        (b"user alice H\ngroup Team alice\n", 76),
        (b"user alice H\nGroup team alice\n", 76),
        (
            b"user alice H\ngroup abcdefghijklmnopqrstuvwxyzabcdefg alice\n",
            76,
        ),
        (b"user alice H\ngroup alice alice\n", 76),
        (b"user alice H\ngroup a alice\ngroup a alice\n", 90),
        (b"user alice H\ngroup a alice\ngroup b a\n", 90),
        (b"user alice H\ngroup bob alice\nuser bob H\n", 92),
        (
            b"user alice H\nuser bob H\nuser carol H\ngroup team dave\n",
            226,
        ),
        (b"user alice H\ngroup team dave\nuser alice H\nx\n", 76),
        (b"x\nuser alice H\ngroup team dave\n", 0),
    ];
    for (template, place) in rows {
        let octets = filled(rt.alloc(), template)?;
        assert!(rt; reading(rt.alloc(), octets.as_slice()) == Err(UsersFault::Line { place }));
    }
    Ok(())
}

/// A digest is 64 digits, none of them a capital.
#[test]
fn digests_are_in_small_digits(rt: HostRuntime) -> Result<(), Fail> {
    let capital = b"user alice BA7816bf8f01cfea414140de5dae2223b00361a396177a9cb410ff61f20015ad\n";
    let short = b"user alice a7816bf8f01cfea414140de5dae2223b00361a396177a9cb410ff61f20015ad\n";
    let other = b"user alice ga7816bf8f01cfea414140de5dae2223b00361a396177a9cb410ff61f20015ad\n";
    for file in [capital.as_slice(), short.as_slice(), other.as_slice()] {
        assert!(rt; reading(rt.alloc(), file) == Err(UsersFault::Line { place: 0 }));
    }
    Ok(())
}

/// Appends lines that begin alike, with a number of two digits behind it, and end alike.
fn push_lines(octets: &mut Octets, many: u8, front: &[u8], end: &[u8]) -> Result<(), NoMemory> {
    for number in 0..many {
        octets.extend_from_slice(front)?;
        octets.push(b'0' + number / 10 % 10)?;
        octets.push(b'0' + number % 10)?;
        octets.push(b' ')?;
        octets.extend_from_slice(end)?;
        octets.push(b'\n')?;
    }
    Ok(())
}

/// A file of users u00, u01 and so on, whose lines take 74 octets each, of groups g00, g01 and so on,
/// whose lines take 14, and then a line.
fn many_users(alloc: Global, users: u8, groups: u8, last: &[u8]) -> Result<Octets, NoMemory> {
    let mut octets = Octets::new(alloc);
    push_lines(&mut octets, users, b"user u", ABC.as_slice())?;
    push_lines(&mut octets, groups, b"group g", b"u00")?;
    octets.extend_from_slice(last)?;
    Ok(octets)
}

/// 32 users and 16 groups are fine; the line of one more is refused at its place, whatever stands
/// behind it.
#[test]
fn users_are_at_most_32_and_groups_16(rt: HostRuntime) -> Result<(), Fail> {
    let rows: [(u8, u8, &[u8], Result<(u32, u32), UsersFault>); 9] = [
        (32, 0, b"", Ok((32, 0))),
        (32, 0, b"# more\n", Ok((32, 0))),
        (32, 0, b"x\n", Err(UsersFault::Line { place: 2368 })),
        (33, 0, b"", Err(UsersFault::Line { place: 2368 })),
        (40, 0, b"x", Err(UsersFault::Line { place: 2368 })),
        (32, 16, b"", Ok((32, 16))),
        (1, 16, b"x\n", Err(UsersFault::Line { place: 298 })),
        (1, 17, b"", Err(UsersFault::Line { place: 298 })),
        (32, 20, b"x", Err(UsersFault::Line { place: 2592 })),
    ];
    for (users, groups, last, wanted) in rows {
        let octets = many_users(rt.alloc(), users, groups, last)?;
        assert!(rt; reading(rt.alloc(), octets.as_slice()) == wanted);
    }
    Ok(())
}

/// Whether a user has this number and this name.
fn is_numbered(users: &Users, number: u32, name: &[u8]) -> bool
    requires { number < length users.now.people }
{
    users.name(number) == name && users.find(name) == Some(number)
}

/// Whether the users are bob, alice and al, whose passwords are `abc`, nothing and `abc`.
fn are_those_three(users: &Users) -> bool {
    if users.len() != 3 {
        return false;
    }
    let named = is_numbered(users, 0, b"bob")
        && is_numbered(users, 1, b"alice")
        && is_numbered(users, 2, b"al");
    let admitted = users.admits(0, ABC) && users.admits(1, NOTHING) && users.admits(2, ABC);
    named && admitted && !users.admits(0, NOTHING) && !users.admits(1, ABC)
}

/// Whether none of the users has a name that is like theirs.
fn has_no_others(users: &Users) -> bool {
    users.find(b"Alice").is_none() && users.find(b"ali").is_none() && users.find(b"").is_none()
}

/// Users by number and by name, and their passwords.
#[test]
fn users_are_found(rt: HostRuntime) -> Result<(), Fail> {
    let octets = filled(rt.alloc(), b"# x\nuser bob H\n\nuser alice K\nuser al H\n")?;
    let users = read_users(rt.alloc(), octets.as_slice())?;
    assert!(rt; are_those_three(&users) && has_no_others(&users));
    Ok(())
}

/// Whether the groups of four users are `team`, of the users 3, 0 and 1, and `one`, of the user 2.
fn are_those_groups(users: &Users) -> bool {
    if users.len() != 4 || users.groups() != 2 {
        return false;
    }
    let named = users.group_name(0) == b"team".as_slice()
        && users.group_name(1) == b"one".as_slice();
    let found = users.find_group(b"team") == Some(0) && users.find_group(b"one") == Some(1);
    let team = users.is_member(0, 0) && users.is_member(0, 1) && users.is_member(0, 3);
    let one = users.is_member(1, 2) && !users.is_member(1, 1) && !users.is_member(0, 2);
    named && found && team && one
}

/// Groups by number and by name, and who is in them. No group is a user, and no user a group.
#[test]
fn groups_are_found(rt: HostRuntime) -> Result<(), Fail> {
    let template = b"user a H\nuser b H\nuser c H\nuser d H\ngroup team d a b\ngroup one c\n";
    let octets = filled(rt.alloc(), template)?;
    let users = read_users(rt.alloc(), octets.as_slice())?;
    assert!(rt; are_those_groups(&users));
    assert!(rt; users.find_group(b"a").is_none() && users.find(b"team").is_none());
    assert!(rt; users.find_group(b"").is_none() && users.find_group(b"teams").is_none());
    Ok(())
}

/// Whether a grant is to no group, or to one that there is.
fn is_known(view: &UsersView<'_>, who: Who) -> bool
    ensures { result ≡ true → IsToGroup (directory_of view.now) who }
{
    match who {
        Who::Group(number) => number < view.group_count(),
        _ => true,
    }
}

/// Some grants, of which those are left out that are to groups that there are not.
fn granted(alloc: Global, view: &UsersView<'_>, grants: &[(Who, u16)]) -> Result<Acl, NoMemory>
    ensures { IfOk result (λ acl. HaveGroups (directory_of view.now) acl.grants) }
{
    let mut list = List::new(alloc);
    'grants: for (who, bits) in grants {
        if is_known(view, *who) {
            list.push(Grant {
                who: *who,
                held: PrivilegeSet(*bits),
            })?;
        }
    }
    Ok(Acl { grants: list })
}

/// What is held on a calendar of the user 0 under some grants, by users 0, 1 and 2. The users 1 and 2
/// are in group 0, and the users 0 and 2 in group 1.
#[test]
fn privileges_are_united(rt: HostRuntime) -> Result<(), Fail> {
    let rows: [(&[(Who, u16)], [u16; 3]); 10] = [
        (&[], [511, 0, 0]),
        (&[(Who::Principal(1), 1)], [511, 1, 0]),
        (
            &[
                (Who::Everyone, 1),
                (Who::Principal(1), 68),
                (Who::Owner, 2),
                (Who::Principal(1), 65),
            ],
            [511, 69, 1],
        ),
        (&[(Who::Owner, 60), (Who::Principal(0), 2)], [511, 0, 0]),
        (&[(Who::Everyone, 3), (Who::Principal(2), 48)], [511, 3, 51]),
        (&[(Who::Principal(7), 3)], [511, 0, 0]),
        (&[(Who::Group(0), 1)], [511, 1, 1]),
        (&[(Who::Group(1), 2)], [511, 0, 2]),
        (&[(Who::Group(0), 64), (Who::Group(1), 3)], [511, 64, 67]),
        (&[(Who::Group(1), 60), (Who::Principal(1), 2)], [511, 2, 60]),
    ];
    let template = b"user a H\nuser b H\nuser c H\ngroup g c b\ngroup h a c\n";
    let octets = filled(rt.alloc(), template)?;
    let users = read_users(rt.alloc(), octets.as_slice())?;
    let view = UsersView::new(&users);
    assert!(rt; view.user_count() == 3);
    for (grants, wanted) in rows {
        let acl = granted(rt.alloc(), &view, grants)?;
        let found = [
            held(&acl, 0, 0, &view).0,
            held(&acl, 0, 1, &view).0,
            held(&acl, 0, 2, &view).0,
        ];
        assert!(rt; found == wanted);
    }
    Ok(())
}
