//! The objects of a calendar by their names, and the index of their UIDs; and objects that looks share.
ghost use Rattle.std.specs.Prelude.{◌≡◌, OnOk, OnErr, option_map};
ghost use Rattle.cal_base.specs.Lists.NameMap.{value_at, with_value, without};
ghost use Rattle.collections.specs.Objects.{IsIndexed, IsAlone};
ghost use Rattle.object_walk.specs.declared.entry.ObjectEntry.{ObjectEntry as Entry};

use cal_base::{Arc, NameMap, NoMemory, Octets};
use cal_model::Stored;
use name_pages::NamePages;
use object_walk::ObjectEntry;
use std::alloc::Global;

/// Puts an object under its name and its UID, in the place of the one that was there. Without memory
/// the objects stay as they were.
///
/// The index is written first: where the object has to be new there too, its entry is taken back if
/// there is no memory for the name.
pub(crate) fn put_object(
    alloc: Global,
    by_name: &mut NameMap<ObjectEntry>,
    by_uid: &mut NameMap<Arc<Stored>>,
    stored: &Arc<Stored>,
    origin: u64,
) -> Result<(), NoMemory>
    requires indexed { IsIndexed by_name.old by_uid.old }
    requires alone { IsAlone by_name.old stored.now }
    ensures ok { OnOk result (by_name.new ≡ with_value by_name.old stored.now.path.object (record { stored = stored.now; origin = origin })) }
    ensures err { OnErr result (by_name.new ≡ by_name.old) }
    ensures indexed { IsIndexed by_name.new by_uid.new }
{
    let name = Octets::of(alloc, stored.path.object.as_slice())?;
    let uid = Octets::of(alloc, stored.object.uid.as_slice())?;
    let entry = ObjectEntry {
        stored: Arc::try_clone(stored)?,
        origin,
    };
    by_uid.insert(uid, Arc::try_clone(stored)?)?;
    match by_name.insert(name, entry) {
        Ok(()) => Ok(()),
        Err(NoMemory) => {
            let _indexed = by_uid.remove(stored.object.uid.as_slice());
            Err(NoMemory)
        }
    }
}

/// Takes out the object of a name, if it is there, from the index too. Takes no memory.
pub(crate) fn take_object(
    by_name: &mut NameMap<ObjectEntry>,
    by_uid: &mut NameMap<Arc<Stored>>,
    name: &[u8],
) -> Option<Arc<Stored>>
    requires indexed { IsIndexed by_name.old by_uid.old }
    ensures object { result ≡ option_map (λ (entry : Entry). entry.stored) (value_at by_name.old name.now) }
    ensures rest { by_name.new ≡ without by_name.old name.now }
    ensures indexed { IsIndexed by_name.new by_uid.new }
{
    match by_name.remove(name) {
        Some(entry) => {
            let ObjectEntry {
                stored,
                origin: _origin,
            } = entry;
            let _gone = by_uid.remove(stored.object.uid.as_slice());
            Some(stored)
        }
        None => None,
    }
}

/// Puts an object under its name into objects that looks share, in the place of the one that was there.
/// The looks keep what they have; without memory all stays as it was.
pub(crate) fn put_in_shown(
    alloc: Global,
    objects: &mut NamePages<ObjectEntry>,
    stored: &Arc<Stored>,
    origin: u64,
) -> Result<(), NoMemory>
    ensures ok { OnOk result (objects.new ≡ with_value objects.old stored.now.path.object (record { stored = stored.now; origin = origin })) }
    ensures err { OnErr result (objects.new ≡ objects.old) }
{
    let name = Octets::of(alloc, stored.path.object.as_slice())?;
    let entry = ObjectEntry {
        stored: Arc::try_clone(stored)?,
        origin,
    };
    objects.insert(alloc, name, entry)
}

/// Takes the object of a name out of objects that looks share, if it is there. The looks keep it;
/// without memory all stays as it was.
pub(crate) fn take_from_shown(
    alloc: Global,
    objects: &mut NamePages<ObjectEntry>,
    name: &[u8],
) -> Result<(), NoMemory>
    ensures ok { OnOk result (objects.new ≡ without objects.old name.now) }
    ensures err { OnErr result (objects.new ≡ objects.old) }
{
    objects.remove(alloc, name)
}
