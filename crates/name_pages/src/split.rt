//! A full page is split in two.
ghost use Rattle.std.specs.Prelude.{◌≡◌, ◌+◌, ◌<◌, ◌≤◌, [], ◌∷◌, ◌++◌, length, map, Some, slice_get, OnOk, IfOk};
ghost use Rattle.std.specs.Map.{keys_of};
ghost use Rattle.cal_base.specs.Lists.NameMap.{IsInOrder};

use crate::page::{PAGE_PAIRS, Page};
use cal_base::{Arc, Copies, NameMap, NoMemory, Octets, Shared};
use std::alloc::Global;
use std::collections::btree_map::Iter;

/// The two halves of a full page.
#[derive(Drop)]
pub(crate) struct Halves<V> {
    pub lower: Page<V>,
    pub upper: Page<V>,
}

/// The halves of a page that has 128 pairs: the one of the lower 64 has its bound, that of the upper 64 the
/// least of their names.
pub(crate) fn halves_of<V: Copies>(alloc: Global, page: &Page<V>) -> Result<Halves<V>, NoMemory>
    requires full { length page.now.names ≡ 128 }
    ensures bound { IfOk result (λ halves. halves.lower.bound ≡ page.now.bound) }
    ensures least { IfOk result (λ halves. slice_get (keys_of halves.upper.names) 0 ≡ Some halves.upper.bound) }
    ensures pairs { IfOk result (λ halves. halves.lower.names ++ halves.upper.names ≡ page.now.names) }
    ensures half { IfOk result (λ halves. length halves.lower.names ≡ 64) }
{
    let names = page.names();
    let _count = names.len();
    let mut pairs = names.iter();
    let lower = copy_next(alloc, &mut pairs, PAGE_PAIRS / 2)?;
    let upper = copy_next(alloc, &mut pairs, PAGE_PAIRS)?;
    let bound = least_name(alloc, &upper)?;
    Ok(Halves {
        lower: Page {
            bound: Arc::try_clone(&page.bound)?,
            names: Shared::new(alloc, lower)?,
        },
        upper: Page {
            bound,
            names: Shared::new(alloc, upper)?,
        },
    })
}

/// Takes the next pairs, at most so many: each name with a copy of its value.
fn copy_next<V: Copies>(
    alloc: Global,
    pairs: &mut Iter<'_, Vec<u8>, V>,
    count: usize,
) -> Result<NameMap<V>, NoMemory>
    requires in_order { IsInOrder (map (λ pair. (pair.0.items, pair.1)) pairs.old) }
    ensures pairs { IfOk result (λ copy. copy ++ map (λ pair. (pair.0.items, pair.1)) pairs.new ≡ map (λ pair. (pair.0.items, pair.1)) pairs.old) }
    ensures within { IfOk result (λ copy. length copy ≤ count) }
    ensures all { IfOk result (λ copy. length copy < count → pairs.new ≡ []) }
{
    let mut copy = NameMap::new(alloc);
    'pairs: for _ in 0..count {
        match pairs.next() {
            Some(pair) => {
                let name = Octets::of(alloc, pair.0.as_slice())?;
                let value = pair.1.copied(alloc)?;
                copy.insert(name, value)?;
            }
            None => return Ok(copy),
        }
    }
    Ok(copy)
}

/// The least of some names.
fn least_name<V>(alloc: Global, names: &NameMap<V>) -> Result<Arc<Octets>, NoMemory>
    requires some { 0 < length names.now }
    ensures { IfOk result (λ name. slice_get (keys_of names.now) 0 ≡ Some name) }
{
    match names.iter().next() {
        Some((name, _)) => Arc::new(alloc, Octets::of(alloc, name.as_slice())?),
        None => unreachable!(),
    }
}
