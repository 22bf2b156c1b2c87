//! What is left of the objects of a calendar.
ghost use Rattle.std.specs.Prelude.{◌≡◌, ◌<◌, ◌++◌, [], length, IfSome};
ghost use Rattle.std.specs.Option.{option_map_or, IfNone};
ghost use Rattle.std.specs.Iterator.{at_most};
ghost use Rattle.std.specs.Map.{values_of};
ghost use Rattle.std.specs.Map.Iter.{TakesFirst};
ghost use Rattle.name_pages.specs.Pages.{pairs_of};
ghost use Rattle.object_walk.specs.WalkedObjects.{lent};

use crate::entry::ObjectEntry;
use cal_base::{Arc, NameMap};
use cal_model::Stored;
use name_pages::{NamePages, Page};
use std::collections::btree_map::Iter;
use std::marker::Model;

/// The objects of a calendar that are left, with their origins, in the order of their names; none where
/// the calendar isn't there. Contracts see the list of them. A step takes no memory, and looks nothing up.
#[derive(Drop)]
pub struct ObjectWalk<'a> {
    /// What is left of the map or the page that the walk is at.
    left: Option<Iter<'a, Vec<u8>, ObjectEntry>>,
    /// The pages behind it.
    behind: &'a [Page<ObjectEntry>],
}

impl<'a> Model for ObjectWalk<'a> {
    ghost use Rattle.std.specs.Prelude.{List, [], ◌++◌};
    ghost use Rattle.std.specs.Option.{option_map_or};
    ghost use Rattle.std.specs.Map.{values_of};
    ghost use Rattle.std.specs.Coded.{coded_list};
    ghost use Rattle.name_pages.specs.Pages.{pairs_of};
    ghost use Rattle.object_walk.specs.declared.entry.ObjectEntry.{ObjectEntry};
    ghost use Rattle.object_walk.specs.contracts.entry.ObjectEntry as entry;

    ghost Value = { List ObjectEntry };

    ghost coded = { coded_list entry.the_row.coded };

    ghost view = { λ w. option_map_or values_of w.left [] ++ values_of (pairs_of w.behind.now) };
}

impl<'a> ObjectWalk<'a> {
    /// A walk over all objects of a map. Takes no memory.
    pub fn of(objects: &'a NameMap<ObjectEntry>) -> ObjectWalk<'a>
        ensures { result ≡ values_of objects.now }
    {
        ObjectWalk {
            left: Some(objects.iter()),
            behind: &[],
        }
    }

    /// A walk over all objects of a map in pages. Takes no memory.
    pub fn of_pages(objects: &'a NamePages<ObjectEntry>) -> ObjectWalk<'a>
        ensures { result ≡ values_of objects.now }
    {
        ObjectWalk {
            left: None,
            behind: objects.pages(),
        }
    }

    /// A walk over no objects.
    pub fn empty() -> ObjectWalk<'a>
        ensures { result ≡ [] }
    {
        ObjectWalk {
            left: None,
            behind: &[],
        }
    }
}

impl<'a> Iterator for ObjectWalk<'a> {
    type Item = (&'a Arc<Stored>, u64);

    ghost next_gives = { TakesFirst lent };

    ghost remaining = { λ w. at_most (length w) };

    /// The first object that is left, which is then no longer.
    fn next(&mut self) -> Option<(&'a Arc<Stored>, u64)> {
        match next_of(&mut self.left) {
            Some(object) => Some(object),
            None => match first_page(self.behind) {
                Some((pairs, behind)) => {
                    self.left = Some(pairs);
                    self.behind = behind;
                    next_of(&mut self.left)
                }
                None => None,
            },
        }
    }
}

/// The next object of a map or a page.
fn next_of<'a>(left: &mut Option<Iter<'a, Vec<u8>, ObjectEntry>>) -> Option<(&'a Arc<Stored>, u64)>
    ensures { TakesFirst lent (option_map_or values_of left.old []) result (option_map_or values_of left.new []) }
{
    match left {
        Some(pairs) => match pairs.next() {
            Some((_, entry)) => Some((&entry.stored, entry.origin)),
            None => None,
        },
        None => None,
    }
}

/// The pairs of the first page that has some, and the pages behind it.
fn first_page<'a>(
    pages: &'a [Page<ObjectEntry>],
) -> Option<(Iter<'a, Vec<u8>, ObjectEntry>, &'a [Page<ObjectEntry>])>
    ensures some { IfSome result (λ r. values_of (pairs_of pages.now) ≡ values_of r.0 ++ values_of (pairs_of r.1.now)) }
    ensures none { IfNone result (pairs_of pages.now ≡ []) }
    ensures first { IfSome result (λ r. 0 < length r.0) }
{
    let mut behind = pages;
    'pages: while let Some((page, rest)) = behind.split_first() {
        behind = rest;
        if page.names().len() > 0 {
            return Some((page.names().iter(), rest));
        }
    }
    None
}
