//! A shared value that contracts see as the value itself.
ghost use Rattle.std.specs.Prelude.{◌≡◌, IfOk};

use crate::no_memory::NoMemory;
use std::alloc::Global;
use std::marker::Model;
use std::ops::Deref;

/// A value with several owners, also in other threads. Two of them with equal values are equal.
#[derive(Drop)]
pub struct Arc<T> {
    shared: std::sync::Arc<T, Global>,
}

impl<T> Model for Arc<T> {
    ghost use Rattle.std.specs.Arc.{arc_value};

    ghost Value = { T };

    ghost coded = { T.code };

    ghost view = { λ a. arc_value a.shared };
}

impl<T> Arc<T> {
    /// The value, with one owner.
    pub fn new(alloc: Global, value: T) -> Result<Arc<T>, NoMemory>
    where
        T: Drop,
        ensures { IfOk result (λ a. a ≡ value) }
    {
        match std::sync::Arc::new(alloc, value) {
            Ok(shared) => Ok(Arc { shared }),
            Err(_) => Err(NoMemory),
        }
    }

    /// One more owner of the same value.
    pub fn try_clone(this: &Arc<T>) -> Result<Arc<T>, NoMemory>
        ensures { IfOk result (λ a. a ≡ this.now) }
    {
        match std::sync::Arc::try_clone(&this.shared) {
            Ok(shared) => Ok(Arc { shared }),
            Err(_) => Err(NoMemory),
        }
    }
}

impl<T> Deref for Arc<T> {
    type Target = T;

    ghost deref_gives = { λ a x. x ≡ a };

    fn deref(&self) -> &T
        ensures { result.now ≡ self.now }
    {
        &self.shared
    }
}
