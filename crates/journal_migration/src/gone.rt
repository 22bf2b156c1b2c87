//! Who of the old users is not among the new ones.
ghost use Rattle.std.specs.Prelude.{◌≡◌, IsNone, IfSome};
ghost use Rattle.journal_migration.specs.Migrations.{IsGone, IsUserGone, IsGroupGone};
ghost use Rattle.journal_migration.specs.Renumbering.{AreAllIn, AreUsersIn, AreGroupsIn};

use privileges::Users;

/// A user or a group, by its number.
#[derive(Clone, Copy, PartialEq, Eq, Debug)]
pub enum Principal {
    User(u32),
    Group(u32),
}

/// The first of the old users whose name no new user has, or else the first such group.
pub(crate) fn first_gone(old_users: &Users, new_users: &Users) -> Option<Principal>
    ensures gone { IfSome result (IsGone old_users.now new_users.now) }
    ensures all { IsNone result → AreAllIn old_users.now new_users.now }
{
    if let Some(user) = first_user_gone(old_users, new_users) {
        return Some(Principal::User(user));
    }
    match first_group_gone(old_users, new_users) {
        Some(group) => Some(Principal::Group(group)),
        None => None,
    }
}

/// The number of the first of the old users whose name no new user has.
fn first_user_gone(old_users: &Users, new_users: &Users) -> Option<u32>
    ensures gone { IfSome result (IsUserGone old_users.now new_users.now) }
    ensures all { IsNone result → AreUsersIn old_users.now new_users.now }
{
    for user in 0..old_users.len() {
        if new_users.find(old_users.name(user)).is_none() {
            return Some(user);
        }
    }
    None
}

/// The number of the first of the old groups whose name no new group has.
fn first_group_gone(old_users: &Users, new_users: &Users) -> Option<u32>
    ensures gone { IfSome result (IsGroupGone old_users.now new_users.now) }
    ensures all { IsNone result → AreGroupsIn old_users.now new_users.now }
{
    for group in 0..old_users.groups() {
        if new_users.find_group(old_users.group_name(group)).is_none() {
            return Some(group);
        }
    }
    None
}
