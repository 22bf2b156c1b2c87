//! An ordered map from octet strings to values, which contracts see as the list of its pairs.
ghost use Rattle.std.specs.Prelude.{◌≡◌, [], length, OnOk, OnErr, Option, ℕ, List, filter, slice_get, map, ◌^◌, ◌<◌};
ghost use Rattle.std.specs.Option.{option_copied, option_copied_mut, option_map};
ghost use Rattle.std.specs.Borrow.{Bor, sem};
ghost use Rattle.std.specs.Global.{Vec};
ghost use Rattle.std.specs.Map.Iter.{ShowsInOrder, deref_pair};
ghost use Rattle.std.specs.Ordering.{is_lt};
ghost use Rattle.cal_base.specs.Lists.NameMap.{IsInOrder, value_at, with_value, without, next_above, name_order};

use crate::list::Octets;
use crate::no_memory::NoMemory;
use std::alloc::Global;
use std::cmp::Ordering;
use std::collections::BTreeMap;
use std::collections::btree_map::Iter;
use std::marker::Model;
use std::ops::Bound;

/// A map from octet strings to values. Contracts see the pairs of a name and a value in rising
/// order of the names, where the first octet that differs decides.
#[derive(Drop)]
pub struct NameMap<V> {
    entries: BTreeMap<Vec<u8>, V>,
}

impl<V> Model for NameMap<V> {
    ghost use Rattle.std.specs.Prelude.{List, ℕ, map as mapped};
    ghost use Rattle.std.specs.Coded.{coded_list, coded×, coded_ℕ};

    ghost Value = { List (List ℕ × V) };

    ghost coded = { coded_list (coded× (coded_list coded_ℕ) V.code) };

    ghost view = { λ m. mapped (λ e. (e.0.items, e.1)) m.entries.entries };
}

impl<V> NameMap<V> {
    ghost use Rattle.cal_base.specs.Lists.NameMapLends.{lends_value};

    /// An empty map. It takes no memory yet.
    pub fn new(alloc: Global) -> NameMap<V>
        ensures { result ≡ [] }
    {
        NameMap {
            entries: BTreeMap::new(alloc),
        }
    }

    /// How many names there are. (That they stand in order holds of every map.)
    pub fn len(&self) -> usize
        ensures len { result ≡ length self.now }
        ensures in_order { IsInOrder self.now }
    {
        self.entries.len()
    }

    /// The value at a name, if it is there. Takes no memory.
    pub fn get(&self, name: &[u8]) -> Option<&V>
        ensures { option_copied result ≡ value_at self.now name.now }
    {
        self.entries.get(name)
    }

    /// Goes over the pairs in rising order of the names. Takes no memory.
    pub fn iter(&self) -> Iter<'_, Vec<u8>, V>
        ensures rest { map (λ pair. (pair.0.items, pair.1)) result ≡ self.now }
        ensures runs { ShowsInOrder (deref_pair {K = Vec ℕ} {X = V}) }
        ensures fits { length self.now < 2 ^ 63 }
    {
        self.entries.iter()
    }

    /// The value at a name to write to, if it is there. Takes no memory.
    pub fn get_mut(&mut self, name: &[u8]) -> Option<&mut V>
        ensures* writes_back { sem 𝓛 (lends_value V.row self.entry name.now result) }
        ensures value { option_copied_mut result ≡ value_at self.old name.now }
    {
        self.entries.get_mut(name)
    }

    /// Puts a value at a name, in the place of the one that was there, for which it takes no memory.
    /// Without memory for a new name the map stays as it was, and name and value are dropped.
    pub fn insert(&mut self, name: Octets, value: V) -> Result<(), NoMemory>
    where
        V: Drop,
        ensures ok { OnOk result (self.new ≡ with_value self.old name value) }
        ensures err { OnErr result (self.new ≡ self.old) }
        ensures err_only_at_new_name { OnErr result (value_at self.old name ≡ None) }
    {
        let Ok(_old) = self.entries.insert(name.into_vec(), value) else {
            return Err(NoMemory);
        };
        Ok(())
    }

    /// Takes out the value at a name. Takes no memory.
    pub fn remove(&mut self, name: &[u8]) -> Option<V>
        ensures value { result ≡ value_at self.old name.now }
        ensures rest { self.new ≡ without self.old name.now }
    {
        self.entries.remove(name)
    }

    /// The pair with the least name above a name; the empty name comes before all others. Takes no
    /// memory. From a name of the map the time grows with the logarithm of its size, from any other
    /// with the number of names below it.
    pub fn next_above(&self, name: &[u8]) -> Option<(&[u8], &V)>
        ensures { option_map (λ (p : Bor (List ℕ) × Bor V). (p.0.now, p.1.now)) result ≡ next_above self.now name.now }
    {
        match next_entry(&self.entries, name) {
            Some((key, value)) => Some((key.as_slice(), value)),
            None => None,
        }
    }
}

/// The entry with the least key above a name: behind the name's own entry, where it has one.
fn next_entry<'a, V>(entries: &'a BTreeMap<Vec<u8>, V>, name: &[u8]) -> Option<(&'a Vec<u8>, &'a V)>
    ensures { option_map (λ (p : Bor (Vec ℕ) × Bor V). (p.0.now, p.1.now)) result ≡ slice_get (filter (λ pair. is_lt (name_order name.now pair.0.items)) entries.now.entries) 0 }
{
    match entries.get_key_value(name) {
        Some((key, _)) => first_behind(entries, key),
        None => first_above(entries, name),
    }
}

/// The first pair behind a key.
fn first_behind<'a, V>(
    entries: &'a BTreeMap<Vec<u8>, V>,
    key: &'a Vec<u8>,
) -> Option<(&'a Vec<u8>, &'a V)>
    ensures { option_map (λ (p : Bor (Vec ℕ) × Bor V). (p.0.now, p.1.now)) result ≡ slice_get (filter (λ pair. is_lt (name_order key.now.items pair.0.items)) entries.now.entries) 0 }
{
    entries
        .range((Bound::Excluded(key), Bound::Unbounded))
        .next()
}

/// The first pair whose key is above a name, looked for from the start.
fn first_above<'a, V>(
    entries: &'a BTreeMap<Vec<u8>, V>,
    name: &[u8],
) -> Option<(&'a Vec<u8>, &'a V)>
    ensures { option_map (λ (p : Bor (Vec ℕ) × Bor V). (p.0.now, p.1.now)) result ≡ slice_get (filter (λ pair. is_lt (name_order name.now pair.0.items)) entries.now.entries) 0 }
{
    'pairs: for pair in entries.iter() {
        if is_below(name, pair.0.as_slice()) {
            return Some(pair);
        }
    }
    None
}

/// Whether a name comes before another.
fn is_below(name: &[u8], other: &[u8]) -> bool
    ensures { result ≡ is_lt (name_order name.now other.now) }
{
    Ord::cmp(&name, &other) == Ordering::Less
}
