//! What calendar-data asks for (RFC 4791, 9.6), and what is wrong with it.
ghost use Rattle.std.specs.Prelude.{◌≡◌, ◌||◌, IfOk};
ghost use Rattle.std.specs.List.{list_any};
ghost use Rattle.std.specs.Option.{option_copied, option_to_list};
ghost use Rattle.cal_model.specs.Bodies.DataElements as spec;
ghost use Rattle.cal_model.specs.Bodies.RangeElements.{is_bad_range};
ghost use Rattle.cal_model.specs.Bodies.ReportBodies.{selection_by};

use crate::parts::{has, only, says_other};
use crate::picks::{is_nameless, read_comp_pick};
use crate::ranges::{is_bad_range, stated, stated_if_some};
use cal_base::{Element, NoMemory};
use cal_model::{CompPick, Recur, Selection};
use std::alloc::Global;

/// What a calendar-data asks for, and all where there is none.
pub(crate) fn read_calendar_data(
    alloc: Global,
    asked: Option<&Element>,
) -> Result<Selection, NoMemory>
    ensures { IfOk result (λ select. select ≡ selection_by (option_to_list (option_copied asked.entry))) }
{
    match asked {
        Some(element) => read_selection(alloc, element),
        None => Ok(Selection {
            comp: None,
            recur: Recur::Whole,
            busy: None,
        }),
    }
}

fn read_selection(alloc: Global, element: &Element) -> Result<Selection, NoMemory>
    ensures { IfOk result (λ select. select ≡ spec.selection_of element.now) }
{
    let comp = read_comp(alloc, element)?;
    Ok(Selection {
        comp,
        recur: recur_of(element),
        busy: stated_if_some(only(element, b"limit-freebusy-set")),
    })
}

fn read_comp(alloc: Global, element: &Element) -> Result<Option<CompPick>, NoMemory>
    ensures { IfOk result (λ comp. comp ≡ (spec.selection_of element.now).comp) }
{
    match only(element, b"comp") {
        Some(pick) => Ok(Some(read_comp_pick(alloc, pick)?)),
        None => Ok(None),
    }
}

/// Expansion (9.6.5), a limit (9.6.6), or neither.
fn recur_of(element: &Element) -> Recur
    ensures { result ≡ (spec.selection_of element.now).recur }
{
    if let Some(expand) = only(element, b"expand") {
        return Recur::Expand(stated(expand));
    }
    match only(element, b"limit-recurrence-set") {
        Some(limit) => Recur::Limit(stated(limit)),
        None => Recur::Whole,
    }
}

/// Whether no sense can be made of it.
pub(crate) fn is_senseless(element: &Element) -> bool
    ensures { result ≡ (spec.has_nameless_pick element.now || spec.has_both_limits element.now) }
{
    has_nameless_pick(element) || has_both_limits(element)
}

/// Whether a component or a property in it has no name.
fn has_nameless_pick(element: &Element) -> bool
    ensures { result ≡ spec.has_nameless_pick element.now }
{
    match only(element, b"comp") {
        Some(pick) => is_nameless(pick),
        None => false,
    }
}

/// Whether it asks for both expansion and a limit.
fn has_both_limits(element: &Element) -> bool
    ensures { result ≡ spec.has_both_limits element.now }
{
    has(element, b"expand") && has(element, b"limit-recurrence-set")
}

/// Whether one of its ranges is none.
pub(crate) fn has_bad_range(element: &Element) -> bool
    ensures { result ≡ list_any is_bad_range (spec.data_ranges element.now) }
{
    is_bad_if_some(only(element, b"expand"))
        || is_bad_if_some(only(element, b"limit-recurrence-set"))
        || is_bad_if_some(only(element, b"limit-freebusy-set"))
}

fn is_bad_if_some(range: Option<&Element>) -> bool
    ensures { result ≡ list_any is_bad_range (option_to_list (option_copied range.entry)) }
{
    match range {
        Some(range) => is_bad_range(range),
        None => false,
    }
}

/// Whether it asks for another type or version than those that are stored.
pub(crate) fn is_unsupported_data(element: &Element) -> bool
    ensures { result ≡ spec.is_unsupported_data element.now }
{
    says_other(element, b"content-type", b"text/calendar")
        || says_other(element, b"version", b"2.0")
}
