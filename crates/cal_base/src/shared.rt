//! A value that is shared until it is changed, which contracts see as the value itself.
ghost use Rattle.std.specs.Prelude.{◌≡◌, IfOk, IfSome};
ghost use Rattle.std.specs.Borrow.{sem};

use crate::copies::Copies;
use crate::no_memory::NoMemory;
use std::alloc::Global;
use std::marker::Model;
use std::ops::Deref;
use std::sync::Arc;

/// A value with several owners, also in other threads, each of which may change its own. An owner that
/// changes the value alone changes it in place; one that others share it with changes a copy, and they
/// keep the old value. Two of them with equal values are equal, whether they share it or not.
#[derive(Drop)]
pub struct Shared<T> {
    shared: Arc<T, Global>,
}

impl<T> Model for Shared<T> {
    ghost use Rattle.std.specs.Arc.{arc_value};

    ghost Value = { T };

    ghost coded = { T.code };

    ghost view = { λ s. arc_value s.shared };
}

impl<T> Shared<T> {
    ghost use Rattle.cal_base.specs.Lists.SharedLends.{lends_itself, lends_itself_or_fails};

    /// The value, with one owner.
    pub fn new(alloc: Global, value: T) -> Result<Shared<T>, NoMemory>
    where
        T: Drop,
        ensures { IfOk result (λ s. s ≡ value) }
    {
        match Arc::new(alloc, value) {
            Ok(shared) => Ok(Shared { shared }),
            Err(_) => Err(NoMemory),
        }
    }

    /// One more owner, in constant time: a look at what the value is now, whatever becomes of it at
    /// other owners. Takes no memory; it fails only where there are 2^63 owners.
    pub fn look(&self) -> Result<Shared<T>, NoMemory>
        ensures { IfOk result (λ look. look ≡ self.now) }
    {
        match Arc::try_clone(&self.shared) {
            Ok(shared) => Ok(Shared { shared }),
            Err(_) => Err(NoMemory),
        }
    }

    /// The value to write to, where there is no other owner. Takes no memory.
    pub fn own(&mut self) -> Option<&mut T>
        ensures* writes_back { sem 𝓛 (lends_itself T.row self.entry result) }
        ensures value { IfSome result (λ x. x.now ≡ self.old) }
    {
        Arc::get_mut(&mut self.shared)
    }

    /// The value to write to. Where there are other owners they keep the old one, and this one has a
    /// copy from now on; without memory for that all stays as it was.
    pub fn make_own(&mut self, alloc: Global) -> Result<&mut T, NoMemory>
    where
        T: Copies,
        ensures* writes_back { sem 𝓛 (lends_itself_or_fails T.row self.entry result) }
        ensures value { IfOk result (λ x. x.now ≡ self.old) }
    {
        if Arc::strong_count(&self.shared) != 1 {
            let value = self.copied(alloc)?;
            *self = Shared::new(alloc, value)?;
        }
        match self.own() {
            Some(value) => Ok(value),
            None => Err(NoMemory),
        }
    }
}

impl<T> Deref for Shared<T> {
    type Target = T;

    ghost deref_gives = { λ s x. x ≡ s };

    fn deref(&self) -> &T
        ensures { result.now ≡ self.now }
    {
        &self.shared
    }
}
