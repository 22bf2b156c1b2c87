//! Objects whose instances were counted.
ghost use Rattle.std.specs.Prelude.{◌≡◌, ◌<◌, ◌^◌, length, IfOk};
ghost use Rattle.cal_model.specs.Objects.ObjectFacts.{IsRead};
ghost use Rattle.preconditions.specs.CountedObjects.{IsCounted};

use crate::content::has_too_many;
use cal_base::NoMemory;
use cal_model::Object;
use std::alloc::Global;

/// An object that was read, and whether it has more instances than are served, or a rule by seconds or
/// minutes.
#[derive(Drop)]
pub(crate) struct CountedObject {
    pub object: Object,
    pub has_too_many: bool,
    ghost counted: { IsCounted object has_too_many },
}

/// Counts the instances of an object.
pub(crate) fn counted(alloc: Global, object: Object) -> Result<CountedObject, NoMemory>
    requires read { IsRead object }
    requires few { length object.components < 2 ^ 32 }
    ensures { IfOk result (λ counted. counted.object ≡ object) }
{
    match has_too_many(alloc, &object) {
        Ok(has_too_many) => Ok(CountedObject {
            object,
            has_too_many,
        }),
        Err(NoMemory) => Err(NoMemory),
    }
}
