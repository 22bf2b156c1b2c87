//! Copies of values, of lists of them, and of maps to them.
ghost use Rattle.std.specs.Prelude.{◌≡◌, IfOk};

use crate::arc::Arc;
use crate::list::{List, Octets};
use crate::name_map::NameMap;
use crate::no_memory::NoMemory;
use std::alloc::Global;

/// What gives an equal value of its own, for little where the two can share what they have.
pub trait Copies: Drop {
    /// An equal value.
    fn copied(&self, alloc: Global) -> Result<Self, NoMemory>
        ensures { IfOk result (λ copy. copy ≡ self.now) };
}

impl<T: Drop> Copies for Arc<T> {
    fn copied(&self, _alloc: Global) -> Result<Arc<T>, NoMemory> {
        Arc::try_clone(self)
    }
}

impl<V: Copies> Copies for List<V> {
    fn copied(&self, alloc: Global) -> Result<List<V>, NoMemory> {
        copy_each(alloc, self.as_slice())
    }
}

impl<V: Copies> Copies for NameMap<V> {
    fn copied(&self, alloc: Global) -> Result<NameMap<V>, NoMemory> {
        copy_names(alloc, self)
    }
}

/// A copy of each of some values, in their order.
pub fn copy_each<V: Copies>(alloc: Global, values: &[V]) -> Result<List<V>, NoMemory>
    ensures { IfOk result (λ copies. copies ≡ values.now) }
{
    let mut copies = List::new(alloc);
    copies.reserve(values.len())?;
    'values: for value in values {
        copies.push(value.copied(alloc)?)?;
    }
    Ok(copies)
}

/// A copy of a map: each name with a copy of its value.
fn copy_names<V: Copies>(alloc: Global, map: &NameMap<V>) -> Result<NameMap<V>, NoMemory>
    ensures { IfOk result (λ copy. copy ≡ map.now) }
{
    // A look at how many names there are, which tells a proof that they stand in order.
    let _count = map.len();
    let mut copy = NameMap::new(alloc);
    'pairs: for pair in map.iter() {
        let name = Octets::of(alloc, pair.0.as_slice())?;
        let value = pair.1.copied(alloc)?;
        copy.insert(name, value)?;
    }
    Ok(copy)
}
