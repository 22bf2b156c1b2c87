//! The filter of a calendar-query (RFC 4791, 9.7). It is read as if nothing in it were wrong: what is
//! wrong is looked for before.
ghost use Rattle.std.specs.Prelude.{◌≡◌, ◌++◌, map, filter, flat_map, codes, IfOk, OnOk};
ghost use Rattle.std.specs.Option.{option_copied, option_to_list};
ghost use Rattle.cal_base.specs.Xml.XmlFaults.{greatest_depth};
ghost use Rattle.cal_model.specs.Bodies.ElementParts.{has_name, item_elements};
ghost use Rattle.cal_model.specs.Bodies.FilterElements as spec;
ghost use Rattle.cal_model.specs.Words.Namespaces.{caldav};

use crate::parts::{CALDAV, has, has_name, name_of, named, only, own_text, says};
use crate::ranges::{stated, stated_if_some};
use cal_base::{Element, Item, List, Name, NoMemory};
use cal_model::{
    Collation, CompFilter, Filter, ParamFilter, ParamTest, PropFilter, PropTest, TextMatch,
};
use std::alloc::Global;

/// How many elements of a body stand within one another at most.
pub(crate) const GREATEST_DEPTH: u32 = 32;

/// The filter with this outermost comp-filter.
pub(crate) fn read_filter(alloc: Global, top: &Element) -> Result<Filter, NoMemory>
    ensures { IfOk result (λ read. read.top ≡ spec.comp_filter top.now) }
{
    let top = read_comp_filter(alloc, top, GREATEST_DEPTH)?;
    Ok(Filter { top })
}

/// A comp-filter (9.7.1), down to a depth.
#[cycle(comp_filters)]
fn read_comp_filter(alloc: Global, element: &Element, depth: u32) -> Result<CompFilter, NoMemory>
    ensures { IfOk result (λ read. read ≡ spec.comp_filter_to depth element.now) }
{
    if depth == 0 {
        return no_comp_filter(alloc);
    }
    let name = name_of(alloc, element)?;
    let props = read_prop_filters(alloc, element.items.as_slice())?;
    let comps = read_comp_filters(alloc, element.items.as_slice(), depth - 1)?;
    Ok(CompFilter {
        name,
        absent: is_absent(element),
        time: stated_if_some(only(element, b"time-range")),
        props,
        comps,
    })
}

/// The comp-filters among some items.
#[cycle(comp_filters)]
fn read_comp_filters(
    alloc: Global,
    items: &[Item],
    depth: u32,
) -> Result<List<CompFilter>, NoMemory>
    ensures { IfOk result (λ read. read ≡ map (spec.comp_filter_to depth) (filter (has_name caldav (codes "comp-filter")) (flat_map item_elements items.now))) }
{
    let mut filters = List::new(alloc);
    'items: for item in items {
        if let Some(element) = named(item, CALDAV, b"comp-filter") {
            filters.push(read_comp_filter(alloc, element, depth)?)?;
        }
    }
    Ok(filters)
}

/// What stands for a filter below the greatest depth, where none is.
fn no_comp_filter(alloc: Global) -> Result<CompFilter, NoMemory>
    ensures { IfOk result (λ read. (element : Element) → read ≡ spec.comp_filter_to 0 element) }
{
    let name = Name::of(alloc, b"")?;
    Ok(CompFilter {
        name,
        absent: false,
        time: None,
        props: List::new(alloc),
        comps: List::new(alloc),
    })
}

/// The prop-filters among some items.
fn read_prop_filters(alloc: Global, items: &[Item]) -> Result<List<PropFilter>, NoMemory>
    ensures { IfOk result (λ read. read ≡ map spec.prop_filter (filter (has_name caldav (codes "prop-filter")) (flat_map item_elements items.now))) }
{
    let mut filters = List::new(alloc);
    'items: for item in items {
        if let Some(element) = named(item, CALDAV, b"prop-filter") {
            filters.push(read_prop_filter(alloc, element)?)?;
        }
    }
    Ok(filters)
}

/// A prop-filter (9.7.2).
fn read_prop_filter(alloc: Global, element: &Element) -> Result<PropFilter, NoMemory>
    ensures { IfOk result (λ read. read ≡ spec.prop_filter element.now) }
{
    let name = name_of(alloc, element)?;
    let test = read_prop_test(alloc, element)?;
    let params = read_param_filters(alloc, element.items.as_slice())?;
    Ok(PropFilter { name, test, params })
}

fn read_prop_test(alloc: Global, element: &Element) -> Result<PropTest, NoMemory>
    ensures { IfOk result (λ test. test ≡ spec.prop_test (spec.is_absent element.now) (spec.prop_tests element.now)) }
{
    if is_absent(element) {
        return Ok(PropTest::Absent);
    }
    match prop_test(element) {
        Some(test) if is_time(test) => Ok(PropTest::Time(stated(test))),
        Some(test) => Ok(PropTest::Text(read_text_match(alloc, test)?)),
        None => Ok(PropTest::Defined),
    }
}

/// The first time-range or text-match of a prop-filter.
pub(crate) fn prop_test(element: &Element) -> Option<&Element>
    ensures { option_to_list (option_copied result) ≡ spec.prop_tests element.now }
{
    'items: for item in element.items.as_slice() {
        if let Some(test) = prop_test_in(item) {
            return Some(test);
        }
    }
    None
}

/// The time-range or the text-match that an item is, if it is one.
fn prop_test_in(item: &Item) -> Option<&Element>
    ensures { option_to_list (option_copied result) ≡ filter spec.is_prop_test (item_elements item.now) }
{
    match item {
        Item::Element(test) if is_prop_test(test) => Some(test),
        _ => None,
    }
}

fn is_prop_test(element: &Element) -> bool
    ensures { result ≡ spec.is_prop_test element.now }
{
    has_name(element, CALDAV, b"time-range") || has_name(element, CALDAV, b"text-match")
}

/// Whether a test is a time-range.
pub(crate) fn is_time(test: &Element) -> bool
    ensures { result ≡ spec.is_time test.now }
{
    has_name(test, CALDAV, b"time-range")
}

/// Whether a filter asks that there is none (9.7.4).
pub(crate) fn is_absent(element: &Element) -> bool
    ensures { result ≡ spec.is_absent element.now }
{
    has(element, b"is-not-defined")
}

/// The param-filters among some items.
fn read_param_filters(alloc: Global, items: &[Item]) -> Result<List<ParamFilter>, NoMemory>
    ensures { IfOk result (λ read. read ≡ map spec.param_filter (filter (has_name caldav (codes "param-filter")) (flat_map item_elements items.now))) }
{
    let mut filters = List::new(alloc);
    'items: for item in items {
        if let Some(element) = named(item, CALDAV, b"param-filter") {
            filters.push(read_param_filter(alloc, element)?)?;
        }
    }
    Ok(filters)
}

/// A param-filter (9.7.3).
fn read_param_filter(alloc: Global, element: &Element) -> Result<ParamFilter, NoMemory>
    ensures { IfOk result (λ read. read ≡ spec.param_filter element.now) }
{
    let name = name_of(alloc, element)?;
    let test = read_param_test(alloc, element)?;
    Ok(ParamFilter { name, test })
}

fn read_param_test(alloc: Global, element: &Element) -> Result<ParamTest, NoMemory>
    ensures { IfOk result (λ test. test ≡ (spec.param_filter element.now).test) }
{
    if is_absent(element) {
        return Ok(ParamTest::Absent);
    }
    match only(element, b"text-match") {
        Some(text) => Ok(ParamTest::Text(read_text_match(alloc, text)?)),
        None => Ok(ParamTest::Defined),
    }
}

/// A text-match (9.7.5).
fn read_text_match(alloc: Global, element: &Element) -> Result<TextMatch, NoMemory>
    ensures { IfOk result (λ read. read ≡ spec.text_match element.now) }
{
    let text = own_text(alloc, element)?;
    Ok(TextMatch {
        text,
        collation: collation_of(element),
        negate: says(element, b"negate-condition", b"yes"),
    })
}

fn collation_of(element: &Element) -> Collation
    ensures { result ≡ (spec.text_match element.now).collation }
{
    if is_octet(element) {
        Collation::Octet
    } else {
        Collation::AsciiCasemap
    }
}

/// Whether texts compare octet for octet.
pub(crate) fn is_octet(element: &Element) -> bool
    ensures { result ≡ spec.is_octet element.now }
{
    says(element, b"collation", b"i;octet")
}
