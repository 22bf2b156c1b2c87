//! A list with several owners that contracts see as the list of its items.
ghost use Rattle.std.specs.Prelude.{◌≡◌, [], length, IfOk};

use crate::arc::Arc;
use crate::list::List;
use crate::no_memory::NoMemory;
use std::alloc::Global;
use std::marker::Model;

/// A list that does not change, with several owners, also in other threads. Two of them with equal
/// items are equal, whether they share their memory or not.
#[derive(Drop)]
pub struct SharedList<T> {
    /// Nothing for an empty list that takes no memory.
    shared: Option<Arc<List<T>>>,
}

impl<T> Model for SharedList<T> {
    ghost use Rattle.std.specs.Prelude.{List, [], unwrap_or};
    ghost use Rattle.std.specs.Coded.{coded_list};

    ghost Value = { List T };

    ghost coded = { coded_list T.code };

    ghost view = { λ l. unwrap_or l.shared [] };
}

impl<T> SharedList<T> {
    /// An empty list. It takes no memory.
    pub fn new() -> SharedList<T>
        ensures { result ≡ [] }
    {
        SharedList { shared: None }
    }

    /// The items of a list, with one owner. Room that the list has for more items is given back.
    pub fn of(alloc: Global, items: List<T>) -> Result<SharedList<T>, NoMemory>
    where
        T: Drop,
        ensures { IfOk result (λ l. l ≡ items) }
    {
        let mut items = items.into_vec();
        items.shrink_to_fit();
        let shared = Some(Arc::new(alloc, List::from_vec(items))?);
        Ok(SharedList { shared })
    }

    /// One more owner of the same items.
    pub fn try_clone(this: &SharedList<T>) -> Result<SharedList<T>, NoMemory>
        ensures { IfOk result (λ l. l ≡ this.now) }
    {
        let shared = match &this.shared {
            Some(shared) => Some(Arc::try_clone(shared)?),
            None => None,
        };
        Ok(SharedList { shared })
    }

    /// How many items there are.
    pub fn len(&self) -> usize
        ensures { result ≡ length self.now }
    {
        self.as_slice().len()
    }

    /// The items.
    pub fn as_slice(&self) -> &[T]
        ensures { result.now ≡ self.now }
    {
        match &self.shared {
            Some(items) => items.as_slice(),
            None => &[],
        }
    }
}
