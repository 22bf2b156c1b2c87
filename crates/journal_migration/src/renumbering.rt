//! Numbers of users and groups, mapped by their names.
ghost use Rattle.std.specs.Prelude.{◌≡◌, ◌<◌, All, length, map, IfOk};
ghost use Rattle.cal_model.specs.Bodies.AclLaws.{IsAmong, IsGrantAmong};
ghost use Rattle.cal_model.specs.Requests.ContentBounds.{GrantsAmong};
ghost use Rattle.journal_migration.specs.Renumbering.{moved_user, moved_group, moved_who, moved_grant, moved_content, moved_event};

use cal_base::{List, NoMemory};
use cal_model::{Content, Event, Grant, Request, Who};
use privileges::Users;
use std::alloc::Global;

/// The number of an old user among the new users; 0 where none of them has the name.
fn moved_user(old_users: &Users, new_users: &Users, user: u32) -> u32
    requires { user < length old_users.now.people }
    ensures { result ≡ moved_user old_users.now new_users.now user }
{
    new_users.find(old_users.name(user)).unwrap_or(0)
}

/// The same of a group.
fn moved_group(old_users: &Users, new_users: &Users, group: u32) -> u32
    requires { group < length old_users.now.groups }
    ensures { result ≡ moved_group old_users.now new_users.now group }
{
    new_users
        .find_group(old_users.group_name(group))
        .unwrap_or(0)
}

/// Whom a grant is for, with the number that is new.
fn moved_who(old_users: &Users, new_users: &Users, who: Who) -> Who
    requires { IsAmong old_users.now who }
    ensures { result ≡ moved_who old_users.now new_users.now who }
{
    match who {
        Who::Everyone => Who::Everyone,
        Who::Owner => Who::Owner,
        Who::Principal(user) => Who::Principal(moved_user(old_users, new_users, user)),
        Who::Group(group) => Who::Group(moved_group(old_users, new_users, group)),
    }
}

/// Grants with the new numbers.
fn moved_grants(
    alloc: Global,
    old_users: &Users,
    new_users: &Users,
    grants: &[Grant],
) -> Result<List<Grant>, NoMemory>
    requires { All (IsGrantAmong old_users.now) grants.now }
    ensures { IfOk result (λ moved. moved ≡ map (moved_grant old_users.now new_users.now) grants.now) }
{
    let mut moved = List::new(alloc);
    for grant in grants {
        let who = moved_who(old_users, new_users, grant.who);
        moved.push(Grant {
            who,
            held: grant.held,
        })?;
    }
    Ok(moved)
}

/// The content of a request with the new numbers, which only grants have.
fn moved_content(
    alloc: Global,
    old_users: &Users,
    new_users: &Users,
    content: Content,
) -> Result<Content, NoMemory>
    requires { GrantsAmong old_users.now content }
    ensures { IfOk result (λ moved. moved ≡ moved_content old_users.now new_users.now content) }
{
    match content {
        Content::Acl(grants) => {
            match moved_grants(alloc, old_users, new_users, grants.as_slice()) {
                Ok(moved) => Ok(Content::Acl(moved)),
                Err(NoMemory) => Err(NoMemory),
            }
        }
        other => Ok(other),
    }
}

/// An event with the new numbers. Its path has names, and stays.
pub(crate) fn moved_event(
    alloc: Global,
    old_users: &Users,
    new_users: &Users,
    event: Event,
) -> Result<Event, NoMemory>
    requires known { event.who < length old_users.now.people }
    requires grants { GrantsAmong old_users.now event.request.content }
    ensures { IfOk result (λ moved. moved ≡ moved_event old_users.now new_users.now event) }
{
    let Event {
        session,
        who,
        moment,
        request,
    } = event;
    let Request {
        method,
        path,
        if_match,
        if_none,
        size,
        content,
    } = request;
    let who = moved_user(old_users, new_users, who);
    match moved_content(alloc, old_users, new_users, content) {
        Ok(content) => Ok(Event {
            session,
            who,
            moment,
            request: Request {
                method,
                path,
                if_match,
                if_none,
                size,
                content,
            },
        }),
        Err(NoMemory) => Err(NoMemory),
    }
}
