//! The users of the server.
ghost use Rattle.std.specs.Prelude.{◌≡◌, ◌≤◌, ◌<◌, [], None, Some, length, OnOk, OnErr, IfSome, All, slice_get, option_map, bytes_eq};
ghost use Rattle.cal_model.specs.State.ServerState.{directory_of, user_name, user_number, group_name, is_member};
ghost use Rattle.cal_model.specs.State.UserNames.{AreToldApart};
ghost use Rattle.cal_model.specs.Users.UsersFile as spec;
ghost use Rattle.privileges.specs.KnownUsers.{name_limit, IsShortGroup, and_user, and_group};
ghost use Rattle.privileges.specs.Marks.{marked_group};

use crate::digests::is_same;
use cal_base::{List, NameMap, NoMemory, Octets};
use std::alloc::Global;
use std::marker::Model;

/// The name of a user, and the SHA-256 of the password in lower-case hexadecimal digits.
#[derive(Drop)]
struct KnownUser {
    name: Octets,
    digest: [u8; 64],
}

/// The name of a group, and which users are in it, by their numbers.
#[derive(Drop)]
struct KnownGroup {
    name: Octets,
    members: [bool; 32],
}

/// The users of the server and their groups, which contracts see in the order of their numbers. Both
/// count from 0.
#[derive(Drop)]
pub struct Users {
    users: List<KnownUser>,
    /// The number of each user, by name.
    numbers: NameMap<u32>,
    groups: List<KnownGroup>,
    /// The number of each group, by name.
    group_numbers: NameMap<u32>,
}

impl Model for Users {
    ghost use Rattle.cal_model.specs.Users.UsersFile as file;
    ghost use Rattle.privileges.specs.ShownUsers.{shown};
    ghost use Rattle.privileges.specs.KnownUsers.{AreKnown};

    ghost Value = { file.Users };

    ghost view = { λ u. shown u.users u.groups };

    ghost invariant = { λ u. AreKnown (shown u.users u.groups) u.numbers u.group_numbers };
}

impl Users {
    /// No users and no groups. Takes no memory yet.
    pub(crate) fn new(alloc: Global) -> Users
        ensures { result ≡ record { people = []; groups = [] } }
    {
        Users {
            users: List::new(alloc),
            numbers: NameMap::new(alloc),
            groups: List::new(alloc),
            group_numbers: NameMap::new(alloc),
        }
    }

    /// How many users there are. (That they are few, and that names tell users and groups apart and
    /// are short, holds of all users of a file.)
    pub fn len(&self) -> u32
        ensures len { result ≡ length self.now.people }
        ensures few { length self.now.people ≤ spec.user_limit }
        ensures told { AreToldApart (directory_of self.now) }
        ensures short { All (λ name. length name ≤ 200) (directory_of self.now).names }
        ensures short_groups { All IsShortGroup (directory_of self.now).groups }
    {
        self.users.len() as u32
    }

    /// The name of the user of a number. Takes no memory.
    pub fn name(&self, who: u32) -> &[u8]
        requires { who < length self.now.people }
        ensures { result.now ≡ user_name (directory_of self.now) who }
    {
        self.users[who as usize].name.as_slice()
    }

    /// The number of the user of a name, in a time that grows with the logarithm of the number of
    /// users. Takes no memory.
    pub fn find(&self, name: &[u8]) -> Option<u32>
        ensures number { result ≡ spec.number_of self.now name.now }
        ensures in_directory { result ≡ user_number (directory_of self.now) name.now }
        ensures within { IfSome result (λ who. who < length self.now.people) }
    {
        self.numbers.get(name).copied()
    }

    /// How many groups there are. (That they are few holds of all groups of a file.)
    pub fn groups(&self) -> u32
        ensures count { result ≡ length self.now.groups }
        ensures few { length self.now.groups ≤ spec.group_limit }
    {
        self.groups.len() as u32
    }

    /// The name of the group of a number. Takes no memory.
    pub fn group_name(&self, group: u32) -> &[u8]
        requires { group < length self.now.groups }
        ensures { result.now ≡ group_name (directory_of self.now) group }
    {
        self.groups[group as usize].name.as_slice()
    }

    /// Whether a user is in a group (RFC 3744, 2). Takes no memory.
    pub fn is_member(&self, group: u32, who: u32) -> bool
        requires group { group < length self.now.groups }
        requires known { who < length self.now.people }
        ensures { result ≡ is_member (directory_of self.now) group who }
    {
        let members = &self.groups[group as usize].members;
        members[who as usize]
    }

    /// The number of the group of a name: none exactly where no group has it. The time grows with the
    /// logarithm of the number of groups. Takes no memory.
    pub fn find_group(&self, name: &[u8]) -> Option<u32>
        ensures number { result ≡ spec.group_number_of self.now name.now }
        ensures within { IfSome result (λ group. group < length self.now.groups) }
    {
        self.group_numbers.get(name).copied()
    }

    /// Adds a group of a new name behind the others, whose members are marked by their numbers.
    /// Without memory nothing changes.
    pub(crate) fn add_group(
        &mut self,
        alloc: Global,
        name: &[u8],
        members: [bool; 32],
    ) -> Result<(), NoMemory>
        requires room { length self.old.groups < spec.group_limit }
        requires named { 0 < length name.now }
        requires short { length name.now ≤ name_limit }
        requires apart { spec.number_of self.old name.now ≡ None }
        requires new { spec.group_number_of self.old name.now ≡ None }
        ensures ok { OnOk result (self.new ≡ and_group self.old (marked_group name.now members)) }
        ensures err { OnErr result (self.new ≡ self.old) }
    {
        let number = self.groups.len() as u32;
        let shown = Octets::of(alloc, name)?;
        let key = Octets::of(alloc, name)?;
        self.groups.push(KnownGroup {
            name: shown,
            members,
        })?;
        match self.group_numbers.insert(key, number) {
            Ok(()) => Ok(()),
            Err(NoMemory) => {
                self.groups.truncate(number as usize);
                Err(NoMemory)
            }
        }
    }

    /// Whether a digest is that of a user's password: the SHA-256 of the password in lower-case
    /// hexadecimal digits. All its octets are compared, wherever the first difference is. Takes no
    /// memory.
    pub fn admits(&self, who: u32, digest: &[u8; 64]) -> bool
        requires { who < length self.now.people }
        ensures { option_map (λ (user : spec.User). bytes_eq digest.now user.digest) (slice_get self.now.people who) ≡ Some result }
    {
        is_same(digest, &self.users[who as usize].digest)
    }

    /// Adds a user of a new name behind the others. Without memory nothing changes.
    pub(crate) fn add(
        &mut self,
        alloc: Global,
        name: &[u8],
        digest: [u8; 64],
    ) -> Result<(), NoMemory>
        requires room { length self.old.people < spec.user_limit }
        requires named { 0 < length name.now }
        requires short { length name.now ≤ name_limit }
        requires apart { spec.number_of self.old name.now ≡ None }
        requires no_group { spec.group_number_of self.old name.now ≡ None }
        ensures ok { OnOk result (self.new ≡ and_user self.old (record { name = name.now; digest = digest })) }
        ensures err { OnErr result (self.new ≡ self.old) }
    {
        let number = self.users.len() as u32;
        let shown = Octets::of(alloc, name)?;
        let key = Octets::of(alloc, name)?;
        self.users.push(KnownUser {
            name: shown,
            digest,
        })?;
        match self.numbers.insert(key, number) {
            Ok(()) => Ok(()),
            Err(NoMemory) => {
                self.users.truncate(number as usize);
                Err(NoMemory)
            }
        }
    }
}
