//! Calendar objects as they are kept.
ghost use Rattle.std.specs.Prelude.{◌≡◌, Ok};
ghost use Rattle.cal_model.specs.Objects.ObjectReading.{read_object};
ghost use Rattle.cal_model.specs.State.StoredData.{IsStored};

use crate::object::Object;
use crate::path::ObjectPath;
use crate::reply::Etag;
use cal_base::Octets;

/// A calendar object at its place: its octets as they were put, what they say, which is read once,
/// and their entity tag.
#[derive(Drop)]
pub struct Stored {
    pub path: ObjectPath,
    pub octets: Octets,
    /// What the octets are read as.
    pub object: Object,
    /// The tag of the octets.
    pub etag: Etag,
    ghost stored: { IsStored octets object etag },
}

impl Stored {
    /// An object at its place. Takes no memory.
    pub fn of(path: ObjectPath, octets: Octets, object: Object) -> Stored
        requires reading { read_object octets ≡ Ok object }
        ensures path { result.path ≡ path }
        ensures octets { result.octets ≡ octets }
        ensures object { result.object ≡ object }
    {
        let etag = Etag::of(octets.as_slice());
        Stored {
            path,
            octets,
            object,
            etag,
        }
    }
}
