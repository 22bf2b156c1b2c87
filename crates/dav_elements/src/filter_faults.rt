//! What is wrong with a filter (RFC 4791, 7.8 and 9.7).
ghost use Rattle.std.specs.Prelude.{◌≡◌, ◌||◌, false, flat_map, filter, codes};
ghost use Rattle.std.specs.List.{list_any};
ghost use Rattle.cal_model.specs.Bodies.ElementParts.{has_name, item_elements, only};
ghost use Rattle.cal_model.specs.Bodies.RangeElements.{is_bad_range};
ghost use Rattle.cal_model.specs.Bodies.FilterElements as spec;
ghost use Rattle.cal_model.specs.Words.Namespaces.{caldav};
ghost use Rattle.dav_elements.specs.FilterFaults.{own_comp_faults, param_faults, prop_faults, comp_faults_to, prop_test_faults, either, each_fault, top_faults};

use crate::filters::{GREATEST_DEPTH, is_absent, is_octet, is_time, prop_test};
use crate::parts::{CALDAV, has, is_named, lacks_name, named, only, says_other};
use crate::ranges::is_bad_range;
use cal_base::{Element, Item};

/// What is wrong with a filter and all within it.
#[derive(Clone, Copy)]
pub(crate) struct FilterFaults {
    /// Some filter has no name.
    pub(crate) nameless: bool,
    /// The condition valid-filter does not hold.
    pub(crate) invalid: bool,
    /// A range on a property that has no date.
    pub(crate) unsupported: bool,
    /// A collation that is not known.
    pub(crate) collation: bool,
}

const NO_FAULT: FilterFaults = FilterFaults {
    nameless: false,
    invalid: false,
    unsupported: false,
    collation: false,
};

/// What is wrong with either of two filters.
fn either(one: FilterFaults, other: FilterFaults) -> FilterFaults
    ensures { result ≡ either one other }
{
    FilterFaults {
        nameless: one.nameless || other.nameless,
        invalid: one.invalid || other.invalid,
        unsupported: one.unsupported || other.unsupported,
        collation: one.collation || other.collation,
    }
}

/// What is wrong with an outermost comp-filter.
pub(crate) fn top_faults(top: &Element) -> FilterFaults
    ensures { result ≡ top_faults top.now }
{
    let within = comp_faults(top, GREATEST_DEPTH);
    FilterFaults {
        nameless: within.nameless,
        invalid: !is_named(top, b"VCALENDAR") || within.invalid,
        unsupported: within.unsupported,
        collation: within.collation,
    }
}

/// What is wrong with a comp-filter, down to a depth.
#[cycle(comp_faults)]
fn comp_faults(element: &Element, depth: u32) -> FilterFaults
    ensures { result ≡ comp_faults_to depth element.now }
{
    if depth == 0 {
        return NO_FAULT;
    }
    let props = props_faults(element.items.as_slice());
    let comps = comps_faults(element.items.as_slice(), depth - 1);
    let own = own_comp_faults(element);
    either(own, either(props, comps))
}

/// What is wrong with a comp-filter, aside from the filters within it.
#[tactic(auto, unfolding(crate::specs::FilterFaults::own_comp_faults))]
fn own_comp_faults(element: &Element) -> FilterFaults
    ensures { result ≡ own_comp_faults element.now }
{
    FilterFaults {
        nameless: lacks_name(element),
        invalid: is_invalid_comp(element),
        unsupported: false,
        collation: false,
    }
}

/// Whether a comp-filter by itself makes a filter invalid.
fn is_invalid_comp(element: &Element) -> bool
    ensures { result ≡ (list_any is_bad_range (only (codes "time-range") element.now) || spec.has_range_without_time element.now || spec.is_crowded_comp element.now) }
{
    has_invalid_range(element) || is_crowded_comp(element)
}

/// What is wrong with the comp-filters among some items.
#[cycle(comp_faults)]
fn comps_faults(items: &[Item], depth: u32) -> FilterFaults
    ensures { result ≡ each_fault (comp_faults_to depth) (filter (has_name caldav (codes "comp-filter")) (flat_map item_elements items.now)) }
{
    let mut faults = NO_FAULT;
    'items: for item in items {
        faults = either(faults, comp_faults_in(item, depth));
    }
    faults
}

/// What is wrong with the comp-filter that an item is, if it is one.
#[cycle(comp_faults)]
#[tactic(auto, using(crate::proofs::FaultLemmas::each_one, crate::proofs::FaultLemmas::each_none))]
fn comp_faults_in(item: &Item, depth: u32) -> FilterFaults
    ensures { result ≡ each_fault (comp_faults_to depth) (filter (has_name caldav (codes "comp-filter")) (item_elements item.now)) }
{
    match named(item, CALDAV, b"comp-filter") {
        Some(element) => comp_faults(element, depth),
        None => NO_FAULT,
    }
}

/// Whether the range of a comp-filter is none, or on a component without a time.
#[tactic(auto, using(crate::proofs::FaultLemmas::range_one, crate::proofs::FaultLemmas::range_none))]
fn has_invalid_range(element: &Element) -> bool
    ensures { result ≡ (list_any is_bad_range (only (codes "time-range") element.now) || spec.has_range_without_time element.now) }
{
    match only(element, b"time-range") {
        Some(range) => is_bad_range(range) || !is_ranged(element),
        None => false,
    }
}

/// Whether a filter is of a component that has a time (9.9).
#[tactic(auto, using(crate::proofs::AnyLemmas::or_false))]
fn is_ranged(element: &Element) -> bool
    ensures { result ≡ spec.is_named_in spec.ranged_components element.now }
{
    is_named(element, b"VEVENT")
        || is_named(element, b"VTODO")
        || is_named(element, b"VJOURNAL")
        || is_named(element, b"VFREEBUSY")
        || is_named(element, b"VALARM")
}

/// Whether is-not-defined stands beside another test.
fn is_crowded_comp(element: &Element) -> bool
    ensures { result ≡ spec.is_crowded_comp element.now }
{
    is_absent(element)
        && (has(element, b"time-range")
            || has(element, b"prop-filter")
            || has(element, b"comp-filter"))
}

/// What is wrong with the prop-filters among some items.
fn props_faults(items: &[Item]) -> FilterFaults
    ensures { result ≡ each_fault prop_faults (filter (has_name caldav (codes "prop-filter")) (flat_map item_elements items.now)) }
{
    let mut faults = NO_FAULT;
    'items: for item in items {
        faults = either(faults, prop_faults_in(item));
    }
    faults
}

/// What is wrong with the prop-filter that an item is, if it is one.
#[tactic(auto, using(crate::proofs::FaultLemmas::each_one, crate::proofs::FaultLemmas::each_none))]
fn prop_faults_in(item: &Item) -> FilterFaults
    ensures { result ≡ each_fault prop_faults (filter (has_name caldav (codes "prop-filter")) (item_elements item.now)) }
{
    match named(item, CALDAV, b"prop-filter") {
        Some(element) => prop_faults(element),
        None => NO_FAULT,
    }
}

/// What is wrong with a prop-filter.
fn prop_faults(element: &Element) -> FilterFaults
    ensures { result ≡ prop_faults element.now }
{
    let own = FilterFaults {
        nameless: lacks_name(element),
        invalid: is_crowded_prop(element),
        unsupported: false,
        collation: false,
    };
    either(
        own,
        either(
            prop_test_faults(element),
            params_faults(element.items.as_slice()),
        ),
    )
}

/// What is wrong with the test of a prop-filter.
#[tactic(auto, using(crate::proofs::FaultLemmas::prop_test_time, crate::proofs::FaultLemmas::prop_test_text, crate::proofs::FaultLemmas::prop_test_none))]
fn prop_test_faults(element: &Element) -> FilterFaults
    ensures { result ≡ prop_test_faults element.now }
{
    match prop_test(element) {
        Some(test) if is_time(test) => FilterFaults {
            nameless: false,
            invalid: is_bad_range(test),
            unsupported: !is_dated(element),
            collation: false,
        },
        Some(test) => text_faults(test),
        None => NO_FAULT,
    }
}

/// Whether a filter is of a property that has a date.
#[tactic(auto, using(crate::proofs::AnyLemmas::or_false))]
fn is_dated(element: &Element) -> bool
    ensures { result ≡ spec.is_named_in spec.dated_properties element.now }
{
    is_named(element, b"COMPLETED")
        || is_named(element, b"CREATED")
        || is_named(element, b"DTEND")
        || is_named(element, b"DTSTAMP")
        || is_named(element, b"DTSTART")
        || is_named(element, b"DUE")
        || is_named(element, b"LAST-MODIFIED")
}

fn is_crowded_prop(element: &Element) -> bool
    ensures { result ≡ spec.is_crowded_prop element.now }
{
    is_absent(element)
        && (has(element, b"time-range")
            || has(element, b"text-match")
            || has(element, b"param-filter"))
}

/// What is wrong with a text-match.
fn text_faults(test: &Element) -> FilterFaults
    ensures { result ≡ record { nameless = false; invalid = false; unsupported = false; collation = spec.has_other_collation test.now } }
{
    FilterFaults {
        nameless: false,
        invalid: false,
        unsupported: false,
        collation: has_other_collation(test),
    }
}

/// Whether a text-match names a collation that is not known.
fn has_other_collation(test: &Element) -> bool
    ensures { result ≡ spec.has_other_collation test.now }
{
    says_other(test, b"collation", b"i;ascii-casemap") && !is_octet(test)
}

/// What is wrong with the param-filters among some items.
fn params_faults(items: &[Item]) -> FilterFaults
    ensures { result ≡ each_fault param_faults (filter (has_name caldav (codes "param-filter")) (flat_map item_elements items.now)) }
{
    let mut faults = NO_FAULT;
    'items: for item in items {
        faults = either(faults, param_faults_in(item));
    }
    faults
}

/// What is wrong with the param-filter that an item is, if it is one.
#[tactic(auto, using(crate::proofs::FaultLemmas::each_one, crate::proofs::FaultLemmas::each_none))]
fn param_faults_in(item: &Item) -> FilterFaults
    ensures { result ≡ each_fault param_faults (filter (has_name caldav (codes "param-filter")) (item_elements item.now)) }
{
    match named(item, CALDAV, b"param-filter") {
        Some(element) => param_faults(element),
        None => NO_FAULT,
    }
}

/// What is wrong with a param-filter.
#[tactic(auto, using(crate::proofs::FaultLemmas::param_one, crate::proofs::FaultLemmas::param_none))]
fn param_faults(element: &Element) -> FilterFaults
    ensures { result ≡ param_faults element.now }
{
    match only(element, b"text-match") {
        Some(test) => FilterFaults {
            nameless: lacks_name(element),
            invalid: is_absent(element),
            unsupported: false,
            collation: has_other_collation(test),
        },
        None => FilterFaults {
            nameless: lacks_name(element),
            invalid: false,
            unsupported: false,
            collation: false,
        },
    }
}
