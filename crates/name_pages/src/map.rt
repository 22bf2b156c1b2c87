//! The map in pages.
ghost use Rattle.std.specs.Prelude.{◌≡◌, ℕ, List, [], OnOk, OnErr, IfOk};
ghost use Rattle.std.specs.Option.{option_copied, option_map};
ghost use Rattle.std.specs.Borrow.{Bor};
ghost use Rattle.cal_base.specs.Lists.NameMap.{IsInOrder, value_at, with_value, without, next_above};
ghost use Rattle.name_pages.specs.Pages.{pairs_of, ArePages};

use crate::page::Page;
use crate::pages::{first_above, place_of, put, take};
use cal_base::{Arc, Copies, List, NameMap, NoMemory, Octets, Shared};
use std::alloc::Global;
use std::marker::Model;

/// A map from octet strings to values. Contracts see the pairs of a name and a value in rising order of
/// the names, where the first octet that differs decides.
///
/// The pairs stand in pages, which are shared with the looks at the map until one of them is changed. A
/// name is found in the logarithm of the pages; a change behind a look copies the list of the pages and
/// one page.
#[derive(Drop)]
pub struct NamePages<V> {
    pages: Shared<List<Page<V>>>,
}

impl<V> Model for NamePages<V> {
    ghost use Rattle.std.specs.Prelude.{List, ℕ};
    ghost use Rattle.std.specs.Coded.{coded_list, coded×, coded_ℕ};

    ghost Value = { List (List ℕ × V) };

    ghost coded = { coded_list (coded× (coded_list coded_ℕ) V.code) };

    ghost use Rattle.name_pages.specs.Pages.{pairs_of, ArePages};

    ghost view = { λ m. pairs_of m.pages };

    ghost invariant = { λ m. ArePages m.pages };
}

impl<V> NamePages<V> {
    /// An empty map.
    pub fn new(alloc: Global) -> Result<NamePages<V>, NoMemory>
    where
        V: Drop,
        ensures { IfOk result (λ map. map ≡ []) }
    {
        let bound = Arc::new(alloc, Octets::new(alloc))?;
        let names = Shared::new(alloc, NameMap::new(alloc))?;
        let mut pages = List::new(alloc);
        pages.push(Page { bound, names })?;
        let pages = Shared::new(alloc, pages)?;
        Ok(NamePages { pages })
    }

    /// One more map with these pairs, in constant time: it shares all pages, and shows what the map is now,
    /// whatever becomes of that. Takes no memory; it fails only where there are 2^63 of them.
    pub fn look(&self) -> Result<NamePages<V>, NoMemory>
        ensures { IfOk result (λ look. look ≡ self.now) }
    {
        let pages = self.pages.look()?;
        Ok(NamePages { pages })
    }

    /// The pages, whose pairs are those of the map, one page after the other. (That the names of a map
    /// stand in order holds of every map, and of its pages that each has at most 128 pairs, and each but
    /// the first has some.)
    pub fn pages(&self) -> &[Page<V>]
        ensures pairs { pairs_of result.now ≡ self.now }
        ensures in_order { IsInOrder self.now }
        ensures pages { ArePages result.now }
    {
        self.pages.as_slice()
    }

    /// The value at a name, if it is there. Takes no memory.
    pub fn get(&self, name: &[u8]) -> Option<&V>
        ensures { option_copied result ≡ value_at self.now name.now }
    {
        let pages = self.pages.as_slice();
        pages[place_of(pages, name)].names.get(name)
    }

    /// The pair with the least name above a name; the empty name comes before all others. Takes no
    /// memory. From a name of the map the time grows with the logarithm of its size, and from any other
    /// by what a page takes.
    pub fn next_above(&self, name: &[u8]) -> Option<(&[u8], &V)>
        ensures { option_map (λ (p : Bor (List ℕ) × Bor V). (p.0.now, p.1.now)) result ≡ next_above self.now name.now }
    {
        let pages = self.pages.as_slice();
        first_above(&pages[place_of(pages, name)..], name)
    }
}

impl<V: Copies> NamePages<V> {
    /// A map of the pairs of another, with copies of its values.
    pub fn of(alloc: Global, map: &NameMap<V>) -> Result<NamePages<V>, NoMemory>
        ensures { IfOk result (λ pages. pages ≡ map.now) }
    {
        // A look at how many names there are, which tells a proof that they stand in order.
        let _count = map.len();
        let mut pages = NamePages::new(alloc)?;
        'pairs: for pair in map.iter() {
            let name = Octets::of(alloc, pair.0.as_slice())?;
            let value = pair.1.copied(alloc)?;
            pages.insert(alloc, name, value)?;
        }
        Ok(pages)
    }

    /// Puts a value at a name, in the place of the one that was there. Looks keep what they show. Without
    /// memory the map stays as it was, and name and value are dropped.
    pub fn insert(&mut self, alloc: Global, name: Octets, value: V) -> Result<(), NoMemory>
        ensures ok { OnOk result (self.new ≡ with_value self.old name value) }
        ensures err { OnErr result (self.new ≡ self.old) }
    {
        put_in_shared(alloc, &mut self.pages, name, value)
    }

    /// Takes out the value at a name, if it is there. Looks keep what they show. Without memory the map
    /// stays as it was.
    pub fn remove(&mut self, alloc: Global, name: &[u8]) -> Result<(), NoMemory>
        ensures ok { OnOk result (self.new ≡ without self.old name.now) }
        ensures err { OnErr result (self.new ≡ self.old) }
    {
        take_from_shared(alloc, &mut self.pages, name)
    }
}

/// Puts a value at a name into pages that looks share.
fn put_in_shared<V: Copies>(
    alloc: Global,
    pages: &mut Shared<List<Page<V>>>,
    name: Octets,
    value: V,
) -> Result<(), NoMemory>
    requires pages { ArePages pages.old }
    ensures pages { ArePages pages.new }
    ensures ok { OnOk result (pairs_of pages.new ≡ with_value (pairs_of pages.old) name value) }
    ensures err { OnErr result (pairs_of pages.new ≡ pairs_of pages.old) }
{
    match pages.make_own(alloc) {
        Ok(own) => put(alloc, own, name, value),
        Err(NoMemory) => Err(NoMemory),
    }
}

/// Takes the value at a name out of pages that looks share.
fn take_from_shared<V: Copies>(
    alloc: Global,
    pages: &mut Shared<List<Page<V>>>,
    name: &[u8],
) -> Result<(), NoMemory>
    requires pages { ArePages pages.old }
    ensures pages { ArePages pages.new }
    ensures ok { OnOk result (pairs_of pages.new ≡ without (pairs_of pages.old) name.now) }
    ensures err { OnErr result (pairs_of pages.new ≡ pairs_of pages.old) }
{
    match pages.make_own(alloc) {
        Ok(own) => take(alloc, own, name),
        Err(NoMemory) => Err(NoMemory),
    }
}
