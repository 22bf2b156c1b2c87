//! Walks over the rows of one component, and over the components that are one child of the outermost
//! one: where nothing was made ready for them, over all rows and components.

ghost use Rattle.std.specs.Prelude.{◌≡◌, ◌+◌, ◌<◌, ◌^◌, Some, IfOk};
ghost use Rattle.std.specs.List.{slice_get};
ghost use Rattle.cal_model.specs.Filters.ComponentRanges as spec;
ghost use Rattle.filter_eval.specs.Links.{AreLinks};
ghost use Rattle.filter_eval.specs.Places.{IsReady, component_keys, matched_of, row_keys};
ghost use Rattle.filter_eval.specs.Walks.{components_from, rows_from};

use crate::links::Links;
use crate::subject::Subject;
use cal_base::{List, NoMemory};
use cal_model::{Component, Object, Row};
use std::alloc::Global;

/// The number of the component of each row.
fn keys_of_rows(alloc: Global, rows: &[Row]) -> Result<List<u32>, NoMemory>
    ensures { IfOk result (λ keys. keys ≡ row_keys rows.now) }
{
    let mut keys = List::new(alloc);
    keys.reserve(rows.len())?;
    'rows: for row in rows {
        keys.push(row.component)?;
    }
    Ok(keys)
}

/// The child that each component is.
fn keys_of_components(alloc: Global, components: &[Component]) -> Result<List<u32>, NoMemory>
    ensures { IfOk result (λ keys. keys ≡ component_keys components.now) }
{
    let mut keys = List::new(alloc);
    keys.reserve(components.len())?;
    'components: for component in components {
        keys.push(component.child)?;
    }
    Ok(keys)
}

/// From each row to the next one of its component, of so many.
pub fn row_links(alloc: Global, rows: &[Row], components: usize) -> Result<Links, NoMemory>
    ensures { IfOk result (λ links. AreLinks links (row_keys rows.now)) }
{
    let keys = keys_of_rows(alloc, rows)?;
    Links::of(alloc, keys.as_slice(), components)
}

/// From each component of an object to the next one that is the same child.
pub fn component_links(alloc: Global, object: &Object) -> Result<Links, NoMemory>
    ensures { IfOk result (λ links. AreLinks links (component_keys object.now.components)) }
{
    let keys = keys_of_components(alloc, object.components.as_slice())?;
    Links::of(alloc, keys.as_slice(), object.tree.children.len())
}

/// The place at which the rows of a component begin.
pub fn first_row(subject: &Subject, number: usize) -> usize
    requires { IsReady subject.now }
    ensures { rows_from subject.now number result ≡ spec.rows_of_number (matched_of subject.now) number }
{
    match subject.row_links {
        Some(links) => links.first(number),
        None => 0,
    }
}

/// The place behind a row at which those of a component go on, by what was made ready.
pub fn next_row(subject: &Subject, links: &Links, number: usize, place: usize, row: &Row) -> usize
    requires links { AreLinks links.now (row_keys subject.now.rows.now) }
    requires row { slice_get subject.now.rows.now place ≡ Some row.now }
    ensures rows { rows_from subject.now number result ≡ rows_from subject.now number (place + 1) }
    ensures ahead { place < result }
{
    if row.component as usize == number {
        links.next(place)
    } else {
        place + 1
    }
}

/// The number from which on components are a child of the outermost one.
pub fn first_component(subject: &Subject, child: usize) -> usize
    requires { IsReady subject.now }
    ensures { components_from subject.now child result ≡ spec.component_at subject.now.object.now child }
{
    match subject.component_links {
        Some(links) => links.first(child),
        None => 0,
    }
}

/// The number behind a component from which on others are a child.
pub fn next_component(
    subject: &Subject,
    child: usize,
    number: usize,
    component: &Component,
) -> usize
    requires ready { IsReady subject.now }
    requires few { number < 2 ^ 63 }
    requires component { slice_get subject.now.object.now.components number ≡ Some component.now }
    ensures components { components_from subject.now child result ≡ components_from subject.now child (number + 1) }
    ensures ahead { number < result }
{
    match subject.component_links {
        Some(links) if component.child as usize == child => links.next(number),
        _ => number + 1,
    }
}
