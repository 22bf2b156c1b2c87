//! Changes that were accepted, as a journal keeps them.

use crate::privilege::Grant;
use crate::property::PropSet;
use crate::stored::Stored;
use cal_base::{Arc, List, Octets};

/// A change. The first number is that of the user whose home it is in, and the last the length of the
/// request's body in octets.
#[derive(Drop)]
pub enum Change {
    /// An object is put at its place.
    Put(Arc<Stored>),
    /// An object is deleted.
    DeleteObject(Arc<Stored>),
    /// A calendar of that name is deleted with its objects.
    DeleteCalendar(u32, Arc<Octets>),
    /// A calendar of that name is made, with settings.
    Make(u32, Arc<Octets>, List<PropSet>, u32),
    /// Properties of a calendar are set and removed, in order.
    Patch(u32, Arc<Octets>, List<PropSet>, u32),
    /// The grants of a calendar are replaced.
    Acl(u32, Arc<Octets>, List<Grant>, u32),
}
