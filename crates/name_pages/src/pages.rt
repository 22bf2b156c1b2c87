//! The pages of a map: which page has a name, and how it changes.
ghost use Rattle.std.specs.Prelude.{◌≡◌, ℕ, List, cond, ◌+◌, ◌^◌, ◌<◌, ◌∷◌, ◌++◌, length, take, drop, OnOk, OnErr, IfOk};
ghost use Rattle.std.specs.Option.{option_map};
ghost use Rattle.std.specs.Borrow.{Bor};
ghost use Rattle.std.specs.Ordering.{is_lt};
ghost use Rattle.cal_base.specs.Lists.NameMap.{name_order, next_above, with_value, without};
ghost use Rattle.name_pages.specs.Pages.{pairs_of, ArePages};
ghost use Rattle.name_pages.specs.Places.{IsPlace, IsRoomyPlace, AreLeftAt};

use crate::page::{PAGE_PAIRS, Page, put_in_page, take_from_page};
use crate::split::{Halves, halves_of};
use cal_base::{Copies, List, NoMemory, Octets};
use std::alloc::Global;
use std::cmp::Ordering;
use std::mem;

/// Whether a name comes before a bound.
fn is_below(name: &[u8], bound: &[u8]) -> bool
    ensures { result ≡ is_lt (name_order name.now bound.now) }
{
    Ord::cmp(&name, &bound) == Ordering::Less
}

/// The place of the page that may have a name: the last one whose bound is not above it.
pub(crate) fn place_of<V>(pages: &[Page<V>], name: &[u8]) -> usize
    requires pages { ArePages pages.now }
    ensures there { result < length pages.now }
    ensures place { IsPlace name.now result pages.now }
{
    pages.partition_point(|page| !is_below(name, page.bound.as_slice())) - 1
}

/// The pair with the least name above a name, in the first page that has one.
pub(crate) fn first_above<'a, V>(pages: &'a [Page<V>], name: &[u8]) -> Option<(&'a [u8], &'a V)>
    ensures { option_map (λ (p : Bor (List ℕ) × Bor V). (p.0.now, p.1.now)) result ≡ next_above (pairs_of pages.now) name.now }
{
    'pages: for page in pages {
        if let Some(pair) = page.names.next_above(name) {
            return Some(pair);
        }
    }
    None
}

/// Puts a value at a name. Without memory the pairs stay as they were.
pub(crate) fn put<V: Copies>(
    alloc: Global,
    pages: &mut List<Page<V>>,
    name: Octets,
    value: V,
) -> Result<(), NoMemory>
    requires pages { ArePages pages.old }
    ensures pages { ArePages pages.new }
    ensures ok { OnOk result (pairs_of pages.new ≡ with_value (pairs_of pages.old) name value) }
    ensures err { OnErr result (pairs_of pages.new ≡ pairs_of pages.old) }
{
    let mut items = mem::replace(pages, List::new(alloc)).into_vec();
    let done = put_in_pages(alloc, &mut items, name, value);
    *pages = List::from_vec(items);
    done
}

/// Takes the value at a name out, if it is there. Without memory the pairs stay as they were.
pub(crate) fn take<V: Copies>(
    alloc: Global,
    pages: &mut List<Page<V>>,
    name: &[u8],
) -> Result<(), NoMemory>
    requires pages { ArePages pages.old }
    ensures pages { ArePages pages.new }
    ensures ok { OnOk result (pairs_of pages.new ≡ without (pairs_of pages.old) name.now) }
    ensures err { OnErr result (pairs_of pages.new ≡ pairs_of pages.old) }
{
    let mut items = mem::replace(pages, List::new(alloc)).into_vec();
    let done = take_from_pages(alloc, &mut items, name);
    *pages = List::from_vec(items);
    done
}

/// Puts a value at a name into its page.
fn put_in_pages<V: Copies>(
    alloc: Global,
    pages: &mut Vec<Page<V>>,
    name: Octets,
    value: V,
) -> Result<(), NoMemory>
    requires pages { ArePages pages.old.items }
    ensures pages { ArePages pages.new.items }
    ensures ok { OnOk result (pairs_of pages.new.items ≡ with_value (pairs_of pages.old.items) name value) }
    ensures err { OnErr result (pairs_of pages.new.items ≡ pairs_of pages.old.items) }
{
    match roomy_place(alloc, pages, name.as_slice()) {
        Ok(at) => put_at(alloc, pages, at, name, value),
        Err(NoMemory) => Err(NoMemory),
    }
}

/// Puts a value at a name into the page at its place, which has room.
fn put_at<V: Copies>(
    alloc: Global,
    pages: &mut Vec<Page<V>>,
    at: usize,
    name: Octets,
    value: V,
) -> Result<(), NoMemory>
    requires pages { ArePages pages.old.items }
    requires there { at < length pages.old.items }
    requires place { IsRoomyPlace name at pages.old.items }
    ensures pages { ArePages pages.new.items }
    ensures ok { OnOk result (pairs_of pages.new.items ≡ with_value (pairs_of pages.old.items) name value) }
    ensures err { OnErr result (pairs_of pages.new.items ≡ pairs_of pages.old.items) }
{
    put_in_page(alloc, &mut pages[at], name, value)
}

/// The place of the page that may have a name. Where that page is full it is split first; the pairs stay as
/// they were.
fn roomy_place<V: Copies>(
    alloc: Global,
    pages: &mut Vec<Page<V>>,
    name: &[u8],
) -> Result<usize, NoMemory>
    requires pages { ArePages pages.old.items }
    ensures pages { ArePages pages.new.items }
    ensures pairs { pairs_of pages.new.items ≡ pairs_of pages.old.items }
    ensures there { IfOk result (λ at. at < length pages.new.items) }
    ensures place { IfOk result (λ at. IsRoomyPlace name.now at pages.new.items) }
{
    let at = place_of(pages.as_slice(), name);
    if pages[at].names.len() < PAGE_PAIRS {
        return Ok(at);
    }
    let halves = halves_of(alloc, &pages[at])?;
    let place = half_place(name, halves.upper.bound.as_slice(), at);
    put_halves(pages, at, halves)?;
    Ok(place)
}

/// The place of the half that may have a name: the lower one stands at `at`, and the upper one, which has
/// the bound, behind it.
fn half_place(name: &[u8], bound: &[u8], at: usize) -> usize
    requires { at + 1 < 2 ^ 64 }
    ensures { result ≡ cond (is_lt (name_order name.now bound.now)) at (at + 1) }
{
    if is_below(name, bound) { at } else { at + 1 }
}

/// Puts the halves of a page in its place. Without memory the pages stay as they were.
fn put_halves<V: Drop>(
    pages: &mut Vec<Page<V>>,
    at: usize,
    halves: Halves<V>,
) -> Result<(), NoMemory>
    requires there { at < length pages.old.items }
    ensures ok { OnOk result (pages.new.items ≡ take at pages.old.items ++ halves.lower ∷ halves.upper ∷ drop (at + 1) pages.old.items) }
    ensures err { OnErr result (pages.new.items ≡ pages.old.items) }
{
    let Halves { lower, upper } = halves;
    if pages.insert(at + 1, upper).is_err() {
        return Err(NoMemory);
    }
    pages[at] = lower;
    Ok(())
}

/// Takes the value at a name out of its page. A page that lost all its pairs is dropped, so that there are
/// at most as many pages as pairs, and one.
fn take_from_pages<V: Copies>(
    alloc: Global,
    pages: &mut Vec<Page<V>>,
    name: &[u8],
) -> Result<(), NoMemory>
    requires pages { ArePages pages.old.items }
    ensures pages { ArePages pages.new.items }
    ensures ok { OnOk result (pairs_of pages.new.items ≡ without (pairs_of pages.old.items) name.now) }
    ensures err { OnErr result (pairs_of pages.new.items ≡ pairs_of pages.old.items) }
{
    let at = place_of(pages.as_slice(), name);
    take_at(alloc, pages, at, name)?;
    drop_empty(pages, at);
    Ok(())
}

/// Takes the value at a name out of the page at its place.
fn take_at<V: Copies>(
    alloc: Global,
    pages: &mut Vec<Page<V>>,
    at: usize,
    name: &[u8],
) -> Result<(), NoMemory>
    requires pages { ArePages pages.old.items }
    requires there { at < length pages.old.items }
    requires place { IsPlace name.now at pages.old.items }
    ensures len { length pages.new.items ≡ length pages.old.items }
    ensures left { AreLeftAt at pages.new.items }
    ensures pages { OnErr result (ArePages pages.new.items) }
    ensures ok { OnOk result (pairs_of pages.new.items ≡ without (pairs_of pages.old.items) name.now) }
    ensures err { OnErr result (pairs_of pages.new.items ≡ pairs_of pages.old.items) }
{
    take_from_page(alloc, &mut pages[at], name)
}

/// Drops the page at a place if it has no pairs and isn't the first.
fn drop_empty<V: Drop>(pages: &mut Vec<Page<V>>, at: usize)
    requires left { AreLeftAt at pages.old.items }
    requires there { at < length pages.old.items }
    ensures pages { ArePages pages.new.items }
    ensures pairs { pairs_of pages.new.items ≡ pairs_of pages.old.items }
{
    if 0 < at && pages[at].names.len() == 0 {
        let _empty = pages.remove(at);
    }
}
