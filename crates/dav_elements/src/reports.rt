//! The bodies of REPORT (RFC 4791, 7.8 to 7.10; RFC 3253, 3.6).
ghost use Rattle.std.specs.Prelude.{◌≡◌, ◌||◌, ◌∷◌, [], false, map, filter, flat_map, codes, option_map, slice_get, IfOk};
ghost use Rattle.std.specs.Option.{option_copied, option_to_list};
ghost use Rattle.cal_model.specs.Bodies.ElementParts.{has_name, item_elements, named, own_text, only};
ghost use Rattle.cal_model.specs.Bodies.ReportBodies as spec;
ghost use Rattle.cal_model.specs.declared.report.ReportRequest.TheVariants.{Query, Multiget};
ghost use Rattle.cal_model.specs.declared.request.Content.TheVariants.{Report, Bad};
ghost use Rattle.cal_model.specs.Bodies.AskedProperties.{props_of};
ghost use Rattle.cal_model.specs.Bodies.FilterElements.{comp_filter};
ghost use Rattle.cal_model.specs.Bodies.Refusals.{first_row};
ghost use Rattle.cal_model.specs.Words.Lists.{is_empty};
ghost use Rattle.dav_elements.specs.Reasons.{refusal_for, refusal_by, data_faults};
ghost use Rattle.cal_model.specs.Words.Namespaces.{dav};

use crate::calendar_data::{has_bad_range, is_senseless, is_unsupported_data, read_calendar_data};
use crate::filter_faults::top_faults;
use crate::filters::read_filter;
use crate::parts::{CALDAV, DAV, first_named, has_name, named, only, own_text};
use crate::properties::{asked_data, read_props};
use crate::ranges::read_range;
use crate::refusals::{bad_request, caldav_refusal, dav_refusal};
use cal_base::{Element, Item, List, NoMemory, Octets};
use cal_model::{Content, ReportRequest};
use std::alloc::Global;

/// What a report is refused for, in the order in which reasons count.
#[derive(Clone, Copy)]
enum Reason {
    BadRequest,
    InvalidFilter,
    UnsupportedFilter,
    Collation,
    UnsupportedData,
}

/// What is wrong with the calendar-data of a report.
#[derive(Clone, Copy)]
struct DataFaults {
    /// It cannot be made sense of.
    bad: bool,
    /// One of its ranges is none.
    range: bool,
    /// Another type or version.
    unsupported: bool,
}

/// The report that a body asks for, by its root's name.
#[tactic(auto, unfolding(cal_model::specs::Bodies::ReportBodies::report_content))]
pub fn read_report(alloc: Global, root: &Element) -> Result<Content, NoMemory>
    ensures { IfOk result (λ content. content ≡ spec.report_content root.now) }
{
    if has_name(root, CALDAV, b"calendar-query") {
        read_query(alloc, root)
    } else if has_name(root, CALDAV, b"calendar-multiget") {
        read_multiget(alloc, root)
    } else if has_name(root, CALDAV, b"free-busy-query") {
        read_free_busy(alloc, root)
    } else {
        dav_refusal(alloc, b"<D:supported-report/>")
    }
}

/// A calendar-query (9.5).
fn read_query(alloc: Global, root: &Element) -> Result<Content, NoMemory>
    ensures { IfOk result (λ content. content ≡ spec.query_content root.now) }
{
    let Some(top) = outermost(root) else {
        return Ok(bad_request());
    };
    match query_reason(root, top) {
        Some(reason) => refused(alloc, reason),
        None => read_sound_query(alloc, root, top),
    }
}

/// The outermost comp-filter of a calendar-query.
fn outermost(root: &Element) -> Option<&Element>
    ensures { option_to_list (option_copied result) ≡ flat_map (only (codes "comp-filter")) (only (codes "filter") root.now) }
{
    match only(root, b"filter") {
        Some(filter) => only(filter, b"comp-filter"),
        None => None,
    }
}

fn read_sound_query(alloc: Global, root: &Element, top: &Element) -> Result<Content, NoMemory>
    ensures { IfOk result (λ content. content ≡ Report (Query (props_of root.now) (spec.selection_by (spec.asked_data root.now)) (record { top = comp_filter top.now }) (option_map own_text (slice_get (only (codes "timezone") root.now) 0)))) }
{
    let props = read_props(alloc, root)?;
    let select = read_calendar_data(alloc, asked_data(root))?;
    let filter = read_filter(alloc, top)?;
    let zone = read_zone(alloc, root)?;
    Ok(Content::Report(ReportRequest::Query {
        props,
        select,
        filter,
        zone,
    }))
}

/// The text of the zone of a calendar-query, if it has one.
fn read_zone(alloc: Global, root: &Element) -> Result<Option<Octets>, NoMemory>
    ensures { IfOk result (λ zone. zone ≡ option_map own_text (slice_get (only (codes "timezone") root.now) 0)) }
{
    match only(root, b"timezone") {
        Some(zone) => Ok(Some(own_text(alloc, zone)?)),
        None => Ok(None),
    }
}

/// A calendar-multiget (9.10).
fn read_multiget(alloc: Global, root: &Element) -> Result<Content, NoMemory>
    ensures { IfOk result (λ content. content ≡ spec.multiget_content root.now) }
{
    match multiget_reason(root) {
        Some(reason) => refused(alloc, reason),
        None => read_sound_multiget(alloc, root),
    }
}

fn read_sound_multiget(alloc: Global, root: &Element) -> Result<Content, NoMemory>
    ensures { IfOk result (λ content. content ≡ Report (Multiget (props_of root.now) (spec.selection_by (spec.asked_data root.now)) (map own_text (named dav (codes "href") root.now)))) }
{
    let props = read_props(alloc, root)?;
    let select = read_calendar_data(alloc, asked_data(root))?;
    let hrefs = read_hrefs(alloc, root.items.as_slice())?;
    Ok(Content::Report(ReportRequest::Multiget {
        props,
        select,
        hrefs,
    }))
}

/// The texts of the hrefs among some items, in order.
fn read_hrefs(alloc: Global, items: &[Item]) -> Result<List<Octets>, NoMemory>
    ensures { IfOk result (λ hrefs. hrefs ≡ map own_text (filter (has_name dav (codes "href")) (flat_map item_elements items.now))) }
{
    let mut hrefs = List::new(alloc);
    'items: for item in items {
        if let Some(href) = named(item, DAV, b"href") {
            hrefs.push(own_text(alloc, href)?)?;
        }
    }
    Ok(hrefs)
}

/// A free-busy-query (9.11).
fn read_free_busy(alloc: Global, root: &Element) -> Result<Content, NoMemory>
    ensures { IfOk result (λ content. content ≡ spec.free_busy_content root.now) }
{
    let Some(element) = only(root, b"time-range") else {
        return Ok(bad_request());
    };
    match read_range(element) {
        Some(range) => Ok(Content::Report(ReportRequest::FreeBusy { range })),
        None => refused(alloc, Reason::InvalidFilter),
    }
}

/// Why a calendar-query with this outermost comp-filter is refused, if it is.
fn query_reason(root: &Element, top: &Element) -> Option<Reason>
    ensures { option_map refusal_for result ≡ first_row (spec.report_rows false (top.now ∷ []) (spec.asked_data root.now)) }
{
    let asked = data_faults(root);
    let filter = top_faults(top);
    let bad = either(filter.nameless, asked.bad);
    let invalid = either(filter.invalid, asked.range);
    first_reason(
        bad,
        invalid,
        filter.unsupported,
        filter.collation,
        asked.unsupported,
    )
}

/// Why a calendar-multiget is refused, if it is.
fn multiget_reason(root: &Element) -> Option<Reason>
    ensures { option_map refusal_for result ≡ first_row (spec.report_rows (is_empty (named dav (codes "href") root.now)) [] (spec.asked_data root.now)) }
{
    let asked = data_faults(root);
    let bad = either(lacks_href(root), asked.bad);
    first_reason(bad, asked.range, false, false, asked.unsupported)
}

#[tactic(auto, using(crate::proofs::FirstLemmas::is_none_first))]
fn lacks_href(root: &Element) -> bool
    ensures { result ≡ is_empty (named dav (codes "href") root.now) }
{
    first_named(root, DAV, b"href").is_none()
}

fn either(one: bool, other: bool) -> bool
    ensures { result ≡ (one || other) }
{
    one || other
}

/// The first of the reasons that is there.
fn first_reason(
    bad: bool,
    invalid: bool,
    unsupported: bool,
    collation: bool,
    other_data: bool,
) -> Option<Reason>
    ensures { option_map refusal_for result ≡ refusal_by bad invalid unsupported collation other_data }
{
    if bad {
        Some(Reason::BadRequest)
    } else if invalid {
        Some(Reason::InvalidFilter)
    } else if unsupported {
        Some(Reason::UnsupportedFilter)
    } else if collation {
        Some(Reason::Collation)
    } else if other_data {
        Some(Reason::UnsupportedData)
    } else {
        None
    }
}

/// What is wrong with the calendar-data that is asked for.
#[tactic(auto, using(crate::proofs::RowLemmas::data_one, crate::proofs::RowLemmas::data_none))]
fn data_faults(root: &Element) -> DataFaults
    ensures { result ≡ data_faults (spec.asked_data root.now) }
{
    match asked_data(root) {
        Some(element) => DataFaults {
            bad: is_senseless(element),
            range: has_bad_range(element),
            unsupported: is_unsupported_data(element),
        },
        None => DataFaults {
            bad: false,
            range: false,
            unsupported: false,
        },
    }
}

/// The refusal for a reason.
fn refused(alloc: Global, reason: Reason) -> Result<Content, NoMemory>
    ensures { IfOk result (λ content. content ≡ Bad (refusal_for reason)) }
{
    match reason {
        Reason::BadRequest => Ok(bad_request()),
        Reason::InvalidFilter => caldav_refusal(alloc, b"<C:valid-filter/>"),
        Reason::UnsupportedFilter => caldav_refusal(alloc, b"<C:supported-filter/>"),
        Reason::Collation => caldav_refusal(alloc, b"<C:supported-collation/>"),
        Reason::UnsupportedData => caldav_refusal(alloc, b"<C:supported-calendar-data/>"),
    }
}
