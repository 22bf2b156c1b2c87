//! The names of properties that a report looks at for each object (RFC 4918, 9.1).
ghost use Rattle.std.specs.Prelude.{◌≡◌, ◌∷◌, [], ◌++◌, List, map, IfOk, OnOk};
ghost use Rattle.std.specs.Borrow.{Bor};
ghost use Rattle.cal_model.specs.declared.property.PropName.{PropName as PropNameSpec};
ghost use Rattle.cal_model.specs.Properties.PropertyTable.{is_in_both, is_in_names};
ghost use Rattle.dav_reports.specs.AskedProperties.{named_in, names_asked, names_listed};
ghost use Rattle.std.specs.Prelude.{ℕ};

use cal_base::{List, NoMemory, Octets};
use cal_model::{PropName, Props};
use multistatus::once;
use std::alloc::Global;

const DAV: &[u8] = b"DAV:";

const CALDAV: &[u8] = b"urn:ietf:params:xml:ns:caldav";

/// Puts a name behind others.
fn put_name(
    alloc: Global,
    space: &[u8],
    name: &[u8],
    out: &mut List<PropName>,
) -> Result<(), NoMemory>
    ensures { OnOk result (out.new ≡ out.old ++ named_in space.now name.now ∷ []) }
{
    let space = Octets::of(alloc, space)?;
    let name = Octets::of(alloc, name)?;
    out.push(PropName { space, name })
}

/// Puts some names of a namespace behind others.
fn put_names(
    alloc: Global,
    space: &[u8],
    names: &[&[u8]],
    out: &mut List<PropName>,
) -> Result<(), NoMemory>
    ensures { OnOk result (out.new ≡ out.old ++ map (λ (name : Bor (List ℕ)). named_in space.now name.now) names.now) }
{
    'names: for name in names {
        put_name(alloc, space, name, out)?;
    }
    Ok(())
}

/// Those that `allprop` lists.
fn names_in_both(alloc: Global) -> Result<List<PropName>, NoMemory>
    ensures { IfOk result (λ names. names ≡ names_listed is_in_both) }
{
    let mut names = List::new(alloc);
    let listed = [
        b"resourcetype".as_slice(),
        b"displayname".as_slice(),
        b"getetag".as_slice(),
        b"getcontenttype".as_slice(),
        b"getcontentlength".as_slice(),
    ];
    put_names(alloc, DAV, listed.as_slice(), &mut names)?;
    Ok(names)
}

/// Those that `propname` lists.
fn names_in_names(alloc: Global) -> Result<List<PropName>, NoMemory>
    ensures { IfOk result (λ names. names ≡ names_listed is_in_names) }
{
    let mut names = List::new(alloc);
    let first = [
        b"resourcetype".as_slice(),
        b"current-user-principal".as_slice(),
        b"owner".as_slice(),
        b"current-user-privilege-set".as_slice(),
        b"displayname".as_slice(),
        b"principal-URL".as_slice(),
    ];
    let behind_home = [
        b"group-member-set".as_slice(),
        b"group-membership".as_slice(),
        b"getetag".as_slice(),
        b"getcontenttype".as_slice(),
        b"getcontentlength".as_slice(),
    ];
    let of_calendar = [
        b"calendar-description".as_slice(),
        b"calendar-timezone".as_slice(),
        b"supported-calendar-component-set".as_slice(),
        b"supported-calendar-data".as_slice(),
        b"max-resource-size".as_slice(),
        b"min-date-time".as_slice(),
        b"max-date-time".as_slice(),
        b"max-instances".as_slice(),
    ];
    put_names(alloc, DAV, first.as_slice(), &mut names)?;
    put_name(alloc, CALDAV, b"calendar-home-set", &mut names)?;
    put_names(alloc, DAV, behind_home.as_slice(), &mut names)?;
    put_names(alloc, CALDAV, of_calendar.as_slice(), &mut names)?;
    put_name(alloc, DAV, b"supported-report-set", &mut names)?;
    put_name(alloc, DAV, b"acl", &mut names)?;
    Ok(names)
}

/// The names that are looked at for each object: those asked for, each once, or those that the table
/// lists.
pub(crate) fn names_to_ask(alloc: Global, props: &Props) -> Result<List<PropName>, NoMemory>
    ensures { IfOk result (λ names. names ≡ names_asked props.now) }
{
    match props {
        Props::All => names_in_both(alloc),
        Props::Names => names_in_names(alloc),
        Props::None => Ok(List::new(alloc)),
        Props::Some(names) => once(alloc, names.as_slice()),
    }
}
