//! A page of a map.
ghost use Rattle.std.specs.Prelude.{◌≡◌, OnOk, OnErr};
ghost use Rattle.cal_base.specs.Lists.NameMap.{IsInOrder, with_value, without};

use cal_base::{Arc, Copies, NameMap, NoMemory, Octets, Shared};
use std::alloc::Global;

/// So many pairs a page has at most.
pub(crate) const PAGE_PAIRS: usize = 128;

/// A stretch of the pairs of a map: those whose names are at its bound or above it, and below the bound of
/// the next page. It is shared until it is changed.
#[derive(Drop)]
pub struct Page<V> {
    pub(crate) bound: Arc<Octets>,
    pub(crate) names: Shared<NameMap<V>>,
}

impl<V> Page<V> {
    /// Its pairs.
    pub fn names(&self) -> &NameMap<V>
        ensures { result.now ≡ self.now.names }
    {
        &self.names
    }
}

impl<V: Drop> Copies for Page<V> {
    /// The same page, shared. Takes no memory.
    fn copied(&self, _alloc: Global) -> Result<Page<V>, NoMemory> {
        let bound = Arc::try_clone(&self.bound)?;
        let names = self.names.look()?;
        Ok(Page { bound, names })
    }
}

/// Puts a value at a name into a page. Without memory it stays as it was.
pub(crate) fn put_in_page<V: Copies>(
    alloc: Global,
    page: &mut Page<V>,
    name: Octets,
    value: V,
) -> Result<(), NoMemory>
    ensures bound { page.new.bound ≡ page.old.bound }
    ensures ok { OnOk result (page.new.names ≡ with_value page.old.names name value) }
    ensures in_order { OnOk result (IsInOrder page.new.names) }
    ensures err { OnErr result (page.new ≡ page.old) }
{
    match page.names.make_own(alloc) {
        Ok(own) => {
            let done = own.insert(name, value);
            // A look at how many names there are, which tells a proof that they stand in order.
            let _count = own.len();
            done
        }
        Err(NoMemory) => Err(NoMemory),
    }
}

/// Takes the value at a name out of a page, if it is there. Without memory it stays as it was.
pub(crate) fn take_from_page<V: Copies>(
    alloc: Global,
    page: &mut Page<V>,
    name: &[u8],
) -> Result<(), NoMemory>
    ensures bound { page.new.bound ≡ page.old.bound }
    ensures ok { OnOk result (page.new.names ≡ without page.old.names name.now) }
    ensures in_order { OnOk result (IsInOrder page.new.names) }
    ensures err { OnErr result (page.new ≡ page.old) }
{
    match page.names.make_own(alloc) {
        Ok(own) => {
            let _gone = own.remove(name);
            // As where a value is put.
            let _count = own.len();
            Ok(())
        }
        Err(NoMemory) => Err(NoMemory),
    }
}
