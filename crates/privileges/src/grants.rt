//! What a user holds on a calendar (RFC 3744, 5.5; RFC 4791, 6.1.1).
ghost use Rattle.std.specs.Prelude.{◌≡◌, ◌^◌, ◌<◌, length};
ghost use Rattle.cal_model.specs.Access.Privileges as spec;
ghost use Rattle.cal_model.specs.State.ServerState.{groups_of};
ghost use Rattle.cal_model.specs.State.SoundStates.{HaveGroups, IsToGroup};

use cal_model::privilege::ALL;
use cal_model::view::View;
use cal_model::{Acl, Grant, PrivilegeSet, Who};

/// The privileges that a user holds on a calendar of an owner: all, where they are the same user,
/// and else the union of the grants to that user, to each group that has the user as a member, and to
/// everyone. Takes no memory.
pub fn held<V: View>(acl: &Acl, owner: u32, who: u32, view: &V) -> PrivilegeSet
    requires known { who < length (V.directory view.now).names }
    requires groups { HaveGroups (V.directory view.now) acl.now.grants }
    ensures { result.0 ≡ spec.privileges_held (groups_of (V.directory view.now) who) acl.now.grants owner who }
{
    if owner == who {
        PrivilegeSet(ALL)
    } else {
        PrivilegeSet(granted(acl.grants.as_slice(), who, view))
    }
}

/// The union of the grants to a user.
fn granted<V: View>(grants: &[Grant], who: u32, view: &V) -> u16
    requires known { who < length (V.directory view.now).names }
    requires groups { HaveGroups (V.directory view.now) grants.now }
    ensures { result ≡ spec.granted (groups_of (V.directory view.now) who) grants.now who }
{
    let mut set = 0;
    for grant in grants {
        if is_to(grant.who, who, view) {
            set |= grant.held.0;
        }
    }
    set
}

/// Whether a grant is to a user, or to a group of the user.
fn is_to<V: View>(whom: Who, who: u32, view: &V) -> bool
    requires known { who < length (V.directory view.now).names }
    requires groups { IsToGroup (V.directory view.now) whom }
    ensures { result ≡ spec.fits_user (groups_of (V.directory view.now) who) who whom }
{
    match whom {
        Who::Everyone => true,
        Who::Owner => false,
        Who::Principal(number) => number == who,
        Who::Group(group) => view.is_member(group, who),
    }
}
