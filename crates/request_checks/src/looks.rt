//! How a calendar is looked at.
ghost use Rattle.std.specs.Prelude.{◌≡◌};
ghost use Rattle.cal_model.specs.Access.Privileges as privilege;
ghost use Rattle.request_checks.specs.Sightings as sightings;

use cal_model::privilege::READ;

/// How a calendar is looked at.
#[derive(Clone, Copy)]
pub enum Look {
    /// By a request that only reads: its objects are seen where DAV:read is held.
    Own,
    /// By a request that changes something: its objects are seen where anything is held.
    Whole,
}

/// Whether some privileges are all in a set.
pub(crate) fn has_all(set: u16, wanted: u16) -> bool
    ensures { result ≡ privilege.has_all set wanted }
{
    set & wanted == wanted
}

/// Whether the objects of a calendar are seen on which these privileges are held.
pub(crate) fn shows_objects(look: Look, held: u16) -> bool
    ensures { result ≡ sightings.shows_objects look held }
{
    match look {
        Look::Own => has_all(held, READ),
        Look::Whole => held != 0,
    }
}
