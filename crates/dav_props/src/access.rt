//! The grants of a calendar as elements (RFC 3744, 5.5).
ghost use Rattle.std.specs.Prelude.{◌≡◌, ◌++◌, ◌<◌, OnOk, length, take, flat_map};
ghost use Rattle.cal_model.specs.Properties.PropertyValues.{acl_elements, grant_element, grantee, bit_elements};
ghost use Rattle.cal_model.specs.Replies.XmlText.{element};
ghost use Rattle.cal_model.specs.State.SoundStates.{AreToUsers, IsToUser};
ghost use Rattle.std.specs.Prelude.{codes};
ghost use Rattle.dav_props.specs.Contents.{ace_front};

use crate::privileges_held::push_privileges;
use cal_base::{NoMemory, Octets};
use cal_model::view::View;
use cal_model::{Acl, Grant, Seen, Who};
use multistatus::{push_close, push_open, push_principal};
use std::alloc::Global;

/// The ace of the owner, who holds all and from whom nothing is taken.
const OWNER_ACE: &[u8] =
    b"<D:ace><D:principal><D:property><D:owner/></D:property></D:principal><D:grant><D:privilege><D:all/></D:privilege></D:grant><D:protected/></D:ace>";

/// Appends the owner's ace, and one for each grant in order.
pub(crate) fn push_acl<V: View>(
    alloc: Global,
    seen: &Seen<'_, V>,
    acl: &Acl,
    out: &mut Octets,
) -> Result<(), NoMemory>
    requires { AreToUsers (V.directory seen.now.view.now) acl.now.grants }
    ensures text { OnOk result (out.new ≡ out.old ++ acl_elements (V.directory seen.now.view.now) acl.now.grants) }
    ensures front { take (length out.old) out.new ≡ out.old }
{
    out.extend_from_slice(OWNER_ACE)?;
    push_grants(alloc, seen, acl.grants.as_slice(), out)
}

fn push_grants<V: View>(
    alloc: Global,
    seen: &Seen<'_, V>,
    grants: &[Grant],
    out: &mut Octets,
) -> Result<(), NoMemory>
    requires { AreToUsers (V.directory seen.now.view.now) grants.now }
    ensures text { OnOk result (out.new ≡ out.old ++ flat_map (grant_element (V.directory seen.now.view.now)) grants.now) }
    ensures front { take (length out.old) out.new ≡ out.old }
{
    'grants: for grant in grants {
        push_grant(alloc, seen, grant, out)?;
    }
    Ok(())
}

/// Appends the ace of a grant.
fn push_grant<V: View>(
    alloc: Global,
    seen: &Seen<'_, V>,
    grant: &Grant,
    out: &mut Octets,
) -> Result<(), NoMemory>
    requires { IsToUser (V.directory seen.now.view.now) grant.now.who }
    ensures text { OnOk result (out.new ≡ out.old ++ grant_element (V.directory seen.now.view.now) grant.now) }
    ensures front { take (length out.old) out.new ≡ out.old }
{
    push_ace_front(alloc, seen, grant.who, out)?;
    push_granted(grant.held.0, out)?;
    out.extend_from_slice(b"</D:ace>")
}

/// Appends what an ace has before what it grants.
fn push_ace_front<V: View>(
    alloc: Global,
    seen: &Seen<'_, V>,
    who: Who,
    out: &mut Octets,
) -> Result<(), NoMemory>
    requires { IsToUser (V.directory seen.now.view.now) who }
    ensures text { OnOk result (out.new ≡ out.old ++ ace_front (grantee (V.directory seen.now.view.now) who)) }
    ensures front { take (length out.old) out.new ≡ out.old }
{
    out.extend_from_slice(b"<D:ace><D:principal>")?;
    push_grantee(alloc, seen, who, out)?;
    out.extend_from_slice(b"</D:principal>")
}

/// Appends the element of whom a grant is to.
fn push_grantee<V: View>(
    alloc: Global,
    seen: &Seen<'_, V>,
    who: Who,
    out: &mut Octets,
) -> Result<(), NoMemory>
    requires { IsToUser (V.directory seen.now.view.now) who }
    ensures text { OnOk result (out.new ≡ out.old ++ grantee (V.directory seen.now.view.now) who) }
    ensures front { take (length out.old) out.new ≡ out.old }
{
    match who {
        Who::Everyone => out.extend_from_slice(b"<D:all/>"),
        Who::Owner => out.extend_from_slice(b"<D:property><D:owner/></D:property>"),
        Who::Principal(user) => push_principal(alloc, seen.view.user_name(user), out),
        Who::Group(group) => push_principal(alloc, seen.view.group_name(group), out),
    }
}

/// Appends the element of what is granted.
fn push_granted(set: u16, out: &mut Octets) -> Result<(), NoMemory>
    ensures text { OnOk result (out.new ≡ out.old ++ element (codes "D:grant") (bit_elements set)) }
    ensures front { take (length out.old) out.new ≡ out.old }
{
    push_open(b"DAV:", b"grant", out)?;
    let place = out.len();
    out.push(b'>')?;
    push_privileges(set, out)?;
    push_close(place, b"DAV:", b"grant", out)
}
