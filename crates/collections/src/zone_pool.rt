//! The tables of zones that the objects of a store share.
ghost use Rattle.std.specs.Prelude.{◌≡◌, ◌<◌, IfSome};
ghost use Rattle.std.specs.Bool.{OnTrue};

use cal_base::{List, SharedList};
use cal_model::{Object, Onset, ZoneTable};
use std::alloc::Global;

/// How many tables are kept.
const MOST: usize = 64;

/// A table of fewer onsets is smaller than what its object takes beside it, and is not shared.
const FEW: usize = 16;

/// Whether two lists of onsets are the same. Lists of two zones mostly differ at once, in their
/// lengths or in their first onsets.
fn are_same(these: &[Onset], those: &[Onset]) -> bool
    ensures { OnTrue result (these.now ≡ those.now) }
{
    these.len() == those.len() && these == those
}

/// The list that is the same as one, if there is one.
fn same_in<'a>(kept: &'a [SharedList<Onset>], onsets: &[Onset]) -> Option<&'a SharedList<Onset>>
    ensures { IfSome result (λ list. list.now ≡ onsets.now) }
{
    kept.iter().find(|list| are_same(list.as_slice(), onsets))
}

/// Lists of onsets for objects to share: those of the zones that were put last. Most objects of a
/// calendar are in the same few zones, and the list of a zone that has daylight saving is larger than
/// all else that an object takes.
#[derive(Drop)]
pub(crate) struct ZonePool {
    kept: Vec<SharedList<Onset>>,
    /// The place of the list that goes next, once there are as many as are kept.
    next: usize,
    ghost place: { next < 64 },
}

impl ZonePool {
    /// No lists. Takes no memory yet.
    pub fn new(alloc: Global) -> ZonePool {
        ZonePool {
            kept: Vec::new(alloc),
            next: 0,
        }
    }

    /// One more owner of the list that is the same as one, if there is one.
    fn same(&self, onsets: &[Onset]) -> Option<SharedList<Onset>>
        ensures { IfSome result (λ list. list ≡ onsets.now) }
    {
        match same_in(&self.kept, onsets) {
            Some(list) => SharedList::try_clone(list).ok(),
            None => None,
        }
    }

    /// Puts the list that is kept in place of a table's own. The table has equal onsets then.
    fn share_table(&self, table: &mut ZoneTable)
        ensures { table.new ≡ table.old }
    {
        if let Some(onsets) = self.same(table.onsets.as_slice()) {
            table.onsets = onsets;
        }
    }

    /// The same with each of several tables.
    fn share_tables(&self, tables: &mut [ZoneTable])
        ensures { tables.new ≡ tables.old }
    {
        for place in 0..tables.len() {
            self.share_table(&mut tables[place]);
        }
    }

    /// An object whose zones have the lists that are kept in place of their own.
    pub fn shared(&self, object: Object) -> Object
        ensures { result ≡ object }
    {
        let mut zones = object.zones.into_vec();
        self.share_tables(&mut zones);
        Object {
            kind: object.kind,
            uid: object.uid,
            tree: object.tree,
            zones: List::from_vec(zones),
            components: object.components,
        }
    }

    /// Keeps a list. Where as many are there as are kept, the oldest goes; without memory it isn't
    /// kept.
    fn put(&mut self, onsets: SharedList<Onset>) {
        if self.kept.len() < MOST {
            let _ = self.kept.push(onsets);
            return;
        }
        self.kept[self.next] = onsets;
        self.next = (self.next + 1) % MOST;
    }

    /// Keeps the list of a table, if it is a long one and the same is not there.
    fn keep_table(&mut self, table: &ZoneTable) {
        let onsets = table.onsets.as_slice();
        if onsets.len() < FEW || same_in(&self.kept, onsets).is_some() {
            return;
        }
        if let Ok(list) = SharedList::try_clone(&table.onsets) {
            self.put(list);
        }
    }

    /// Keeps the lists of an object's zones.
    pub fn keep(&mut self, object: &Object) {
        for table in object.zones.iter() {
            self.keep_table(table);
        }
    }
}
