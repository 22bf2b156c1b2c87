//! The members of a group, and the groups of a user (RFC 3744, 4.3 and 4.4).
ghost use Rattle.std.specs.Prelude.{◌≡◌, ◌++◌, ◌<◌, [], OnOk, length, take, if◌then◌else◌};
ghost use Rattle.cal_model.specs.declared.path.Path.TheVariants.{Principal};
ghost use Rattle.cal_model.specs.Properties.PropertyValues.{members_of, memberships_of};
ghost use Rattle.cal_model.specs.Replies.ReplyElements.{href_element};

use cal_base::{NoMemory, Octets};
use cal_model::view::View;
use multistatus::push_principal;
use std::alloc::Global;

/// Appends the hrefs of the members of a group, by their numbers.
pub(crate) fn push_members_of<V: View>(
    alloc: Global,
    view: &V,
    group: u32,
    out: &mut Octets,
) -> Result<(), NoMemory>
    requires { group < length (V.directory view.now).groups }
    ensures text { OnOk result (out.new ≡ out.old ++ members_of (V.directory view.now) group) }
    ensures front { take (length out.old) out.new ≡ out.old }
{
    'users: for user in 0..view.user_count() {
        push_where(
            alloc,
            view.is_member(group, user),
            view.user_name(user),
            out,
        )?;
    }
    Ok(())
}

/// Appends the hrefs of the groups that a user is in, by their numbers.
pub(crate) fn push_groups_of<V: View>(
    alloc: Global,
    view: &V,
    user: u32,
    out: &mut Octets,
) -> Result<(), NoMemory>
    requires { user < length (V.directory view.now).names }
    ensures text { OnOk result (out.new ≡ out.old ++ memberships_of (V.directory view.now) user) }
    ensures front { take (length out.old) out.new ≡ out.old }
{
    'groups: for group in 0..view.group_count() {
        push_where(
            alloc,
            view.is_member(group, user),
            view.group_name(group),
            out,
        )?;
    }
    Ok(())
}

/// Appends the href of the principal of a name, if it is wanted.
fn push_where(alloc: Global, wanted: bool, name: &[u8], out: &mut Octets) -> Result<(), NoMemory>
    ensures text { OnOk result (out.new ≡ out.old ++ (if wanted then href_element (Principal name.now) else [])) }
    ensures front { take (length out.old) out.new ≡ out.old }
{
    if wanted {
        push_principal(alloc, name, out)
    } else {
        Ok(())
    }
}
