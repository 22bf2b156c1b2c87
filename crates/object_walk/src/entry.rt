//! An object as a store keeps it under its name.
use cal_base::{Arc, Copies, NoMemory};
use cal_model::Stored;
use std::alloc::Global;

/// An object, and its origin: the number of the journal's entry that made it, counted from 0.
#[derive(Drop)]
pub struct ObjectEntry {
    pub stored: Arc<Stored>,
    pub origin: u64,
}

impl Copies for ObjectEntry {
    /// The same object, shared. Takes no memory.
    fn copied(&self, _alloc: Global) -> Result<ObjectEntry, NoMemory> {
        Ok(ObjectEntry {
            stored: Arc::try_clone(&self.stored)?,
            origin: self.origin,
        })
    }
}
