//! Filters by their structure (RFC 4791, 9.7.1).

ghost use Rattle.std.specs.Prelude.{◌≡◌, ◌∷◌, [], ◌+◌, ◌^◌, ◌<◌, ◌≤◌, ◌||◌, true, cond, IfOk, All, Some, codes};
ghost use Rattle.std.specs.List.{slice_get};
ghost use Rattle.cal_model.specs.Filters.ComponentRanges as ranges;
ghost use Rattle.cal_model.specs.Filters.ComponentRanges.{Site, sites_in, whole_site};
ghost use Rattle.cal_model.specs.Filters.Matching as spec;
ghost use Rattle.cal_model.specs.Objects.ComponentLines.{children_of, is_named};
ghost use Rattle.cal_model.specs.declared.object.Object.{Object as Whole};
ghost use Rattle.cal_model.specs.TimeZones.TableBounds.{IsTable};
ghost use Rattle.overlap_rules.specs.Bounds.{IsNearRow};
ghost use Rattle.filter_eval.specs.AlarmMoments.{AreAllMoments};
ghost use Rattle.filter_eval.specs.EnoughRows.{AreEnough};
ghost use Rattle.filter_eval.specs.Links.{AreLinks};
ghost use Rattle.filter_eval.specs.Places.{IsAt, IsReady, alarms_in, component_keys, is_child, matched_of, row_keys};
ghost use Rattle.filter_eval.specs.Passing.{passes_itself, passes_whole};
ghost use Rattle.filter_eval.specs.ReadyTexts.{HasTexts, node_of};
ghost use Rattle.filter_eval.specs.Tests.{comp_filter_of};

use crate::alarms::has_trigger;
use crate::asked::inner_texts;
use crate::components::{has_node, is_named, node_is_named};
use crate::dates::Dates;
use crate::links::Links;
use crate::moments::{AlarmMoments, all_moments};
use crate::place::Place;
use crate::prepared::{CompTester, Prepared};
use crate::props::all_props_hold;
use crate::ranges::time_passes;
use crate::ready::{ReadyNode, ready_node};
use crate::subject::{Spot, Subject};
use crate::walks::{component_links, row_links};
use cal_base::{List, NoMemory, Node};
use cal_model::{Filter, Object, Row, ZoneTable};
use std::alloc::Global;

/// The most components of an object for which nothing is made ready.
const FEW: usize = 4;

/// The most rows that are gone over for each range of an alarm.
const FEW_ROWS: usize = 16;

/// A component in a component, at a place and behind so many alarms with a TRIGGER.
fn inner_spot<'a, 't>(
    spot: &Spot<'a, 't>,
    place: usize,
    alarms: usize,
    node: &'a Node,
) -> Spot<'a, 't>
    ensures stands { (object : Whole) (site : Site) → IsAt object spot.now site → slice_get (children_of spot.now.node.now) place ≡ Some node.now → (is_child spot.now.place ≡ true → alarms ≡ alarms_in spot.now.node.now place) → IsAt object result (record { path = place ∷ site.path; in_timezone = site.in_timezone || is_named (codes "VTIMEZONE") node.now; node = node.now }) }
    ensures texts { HasTexts spot.now → slice_get (children_of spot.now.node.now) place ≡ Some node.now → HasTexts result }
{
    let texts = inner_texts(spot, place);
    Spot {
        node,
        place: spot.place.inner(place, alarms),
        in_timezone: spot.in_timezone || is_named(&node.name, b"VTIMEZONE"),
        texts,
    }
}

/// A count of alarms with a TRIGGER, where it is wanted, with one component more.
fn count_with(counts: bool, alarms: usize, node: &Node) -> usize
    requires { alarms < 2 ^ 63 }
    ensures more { counts ≡ true → result ≡ alarms + cond (ranges.has_trigger node.now) 1 0 }
    ensures few { result ≤ alarms + 1 }
{
    if counts && has_trigger(node) {
        alarms + 1
    } else {
        alarms
    }
}

/// Whether a component has the name that is asked for, passes the range and holds all that is asked
/// of its properties.
fn own_tests_pass(
    alloc: Global,
    subject: &Subject,
    tester: &CompTester,
    spot: &Spot,
) -> Result<bool, NoMemory>
    requires ready { IsReady subject.now }
    requires texts { HasTexts spot.now }
    ensures { IfOk result (λ pass. (site : Site) → IsAt subject.now.object.now spot.now site → pass ≡ passes_itself (matched_of subject.now) (comp_filter_of tester.now) site) }
{
    if !node_is_named(spot.node, tester.name) {
        return Ok(false);
    }
    if !time_passes(subject, tester.time, spot) {
        return Ok(false);
    }
    all_props_hold(alloc, &tester.props, subject, spot)
}

/// Whether a component passes all that is asked of it and of the components in it.
#[cycle(matching)]
fn passes(
    alloc: Global,
    subject: &Subject,
    tester: &CompTester,
    spot: &Spot,
) -> Result<bool, NoMemory>
    requires ready { IsReady subject.now }
    requires texts { HasTexts spot.now }
    ensures { IfOk result (λ passes. (site : Site) → IsAt subject.now.object.now spot.now site → passes ≡ passes_whole (matched_of subject.now) (comp_filter_of tester.now) site) }
{
    let passed = own_tests_pass(alloc, subject, tester, spot)?;
    if !passed {
        return Ok(false);
    }
    'comps: for inner in tester.comps.as_slice() {
        let holds = some_inner_passes(alloc, subject, inner, spot)?;
        if !holds {
            return Ok(false);
        }
    }
    Ok(true)
}

/// Whether the components in a component hold a comp-filter: none has its name, or some of that name
/// passes all its tests.
#[cycle(matching)]
fn some_inner_passes(
    alloc: Global,
    subject: &Subject,
    tester: &CompTester,
    spot: &Spot,
) -> Result<bool, NoMemory>
    requires ready { IsReady subject.now }
    requires texts { HasTexts spot.now }
    ensures { IfOk result (λ holds. (site : Site) → IsAt subject.now.object.now spot.now site → holds ≡ spec.comp_filter_holds (matched_of subject.now) (comp_filter_of tester.now) (sites_in site)) }
{
    let mut rest = spot.node.children.as_slice();
    if tester.absent {
        return Ok(!has_node(rest, tester.name));
    }
    let counts = spot.place.is_child();
    let mut place = 0;
    let mut alarms = 0;
    'children: while let Some((child, behind)) = rest.split_first() {
        let inner = inner_spot(spot, place, alarms, child);
        let passed = passes(alloc, subject, tester, &inner)?;
        if passed {
            return Ok(true);
        }
        alarms = count_with(counts, alarms, child);
        place += 1;
        rest = behind;
    }
    Ok(false)
}

/// Whether the outermost component of an object, by itself, holds a comp-filter.
fn outermost_holds(alloc: Global, subject: &Subject, tester: &CompTester) -> Result<bool, NoMemory>
    requires { IsReady subject.now }
    ensures { IfOk result (λ holds. holds ≡ spec.comp_filter_holds (matched_of subject.now) (comp_filter_of tester.now) (whole_site subject.now.object.now ∷ [])) }
{
    let spot = Spot {
        node: &subject.object.tree,
        place: Place::Outermost,
        in_timezone: false,
        texts: subject.texts,
    };
    if tester.absent {
        return Ok(!node_is_named(&subject.object.tree, tester.name));
    }
    passes(alloc, subject, tester, &spot)
}

/// The same, with the reading of the dates of the object at hand.
fn dated_holds<'a, 'd>(
    alloc: Global,
    subject: &Subject<'a, '_, '_, '_, '_>,
    dates: &'d Dates<'a>,
    tester: &CompTester,
) -> Result<bool, NoMemory>
    requires ready { IsReady subject.now }
    requires dates { dates.now ≡ spec.date_reading (matched_of subject.now) }
    ensures { IfOk result (λ holds. holds ≡ spec.comp_filter_holds (matched_of subject.now) (comp_filter_of tester.now) (whole_site subject.now.object.now ∷ [])) }
{
    let subject = Subject {
        dates: Some(dates),
        ..*subject
    };
    outermost_holds(alloc, &subject, tester)
}

/// The same, with the reading of the dates made where it is wanted.
fn read_holds(alloc: Global, subject: &Subject, prepared: &Prepared) -> Result<bool, NoMemory>
    requires { IsReady subject.now }
    ensures { IfOk result (λ holds. holds ≡ spec.comp_filter_holds (matched_of subject.now) prepared.now.top (whole_site subject.now.object.now ∷ [])) }
{
    if !prepared.dated {
        return outermost_holds(alloc, subject, &prepared.top);
    }
    let dates = Dates::of(alloc, &subject.object.zones, subject.zone)?;
    dated_holds(alloc, subject, &dates, &prepared.top)
}

/// The same, with the texts of the object at hand.
fn texted_holds<'a, 't>(
    alloc: Global,
    subject: &Subject<'a, '_, '_, '_, '_>,
    texts: &'t ReadyNode<'a>,
    prepared: &Prepared,
) -> Result<bool, NoMemory>
    requires ready { IsReady subject.now }
    requires texts { node_of texts.now ≡ subject.now.object.now.tree }
    ensures { IfOk result (λ holds. holds ≡ spec.comp_filter_holds (matched_of subject.now) prepared.now.top (whole_site subject.now.object.now ∷ [])) }
{
    let subject = Subject {
        texts: Some(texts),
        ..*subject
    };
    prepared_holds(alloc, &subject, prepared)
}

/// The same, with the texts of the object made ready where many are asked for.
fn ready_holds(alloc: Global, subject: &Subject, prepared: &Prepared) -> Result<bool, NoMemory>
    requires { IsReady subject.now }
    ensures { IfOk result (λ holds. holds ≡ spec.comp_filter_holds (matched_of subject.now) prepared.now.top (whole_site subject.now.object.now ∷ [])) }
{
    if !prepared.many_texts {
        return prepared_holds(alloc, subject, prepared);
    }
    let texts = ready_node(alloc, &subject.object.tree)?;
    texted_holds(alloc, subject, &texts, prepared)
}

/// The same, with the moments from which alarms count at hand.
fn timed_holds<'a, 'm>(
    alloc: Global,
    subject: &Subject<'a, '_, '_, '_, '_>,
    moments: &'m List<AlarmMoments>,
    prepared: &Prepared,
) -> Result<bool, NoMemory>
    requires ready { IsReady subject.now }
    requires moments { AreAllMoments (matched_of subject.now) moments.now }
    ensures { IfOk result (λ holds. holds ≡ spec.comp_filter_holds (matched_of subject.now) prepared.now.top (whole_site subject.now.object.now ∷ [])) }
{
    let subject = Subject {
        moments: Some(moments),
        ..*subject
    };
    read_holds(alloc, &subject, prepared)
}

/// The same, with these moments made ready where ranges of alarms are asked of many rows.
fn prepared_holds(alloc: Global, subject: &Subject, prepared: &Prepared) -> Result<bool, NoMemory>
    requires { IsReady subject.now }
    ensures { IfOk result (λ holds. holds ≡ spec.comp_filter_holds (matched_of subject.now) prepared.now.top (whole_site subject.now.object.now ∷ [])) }
{
    if !prepared.alarmed || subject.rows.len() <= FEW_ROWS {
        return read_holds(alloc, subject, prepared);
    }
    let moments = all_moments(alloc, subject)?;
    timed_holds(alloc, subject, &moments, prepared)
}

/// The same, with what leads to the rows and the components at hand.
fn linked_holds<'a, 'l>(
    alloc: Global,
    subject: &Subject<'a, '_, '_, '_, '_>,
    row_links: &'l Links,
    component_links: &'l Links,
    prepared: &Prepared,
) -> Result<bool, NoMemory>
    requires ready { IsReady subject.now }
    requires rows { AreLinks row_links.now (row_keys subject.now.rows.now) }
    requires components { AreLinks component_links.now (component_keys subject.now.object.now.components) }
    ensures { IfOk result (λ holds. holds ≡ spec.comp_filter_holds (matched_of subject.now) prepared.now.top (whole_site subject.now.object.now ∷ [])) }
{
    let subject = Subject {
        row_links: Some(row_links),
        component_links: Some(component_links),
        ..*subject
    };
    ready_holds(alloc, &subject, prepared)
}

impl<'f> Prepared<'f> {
    /// Whether an object matches the filter, as far as the given rows tell.
    fn matches_rows<'a>(
        &self,
        alloc: Global,
        object: &'a Object,
        rows: &'a List<Row>,
        zone: &'a ZoneTable,
    ) -> Result<bool, NoMemory>
        requires zone { IsTable zone.now }
        requires zones { All IsTable object.now.zones }
        requires rows { All IsNearRow rows.now }
        ensures { IfOk result (λ matches. matches ≡ spec.matches self.now object.now rows.now zone.now) }
    {
        if self.needs_row && rows.is_empty() {
            return Ok(false);
        }
        let subject = Subject {
            object,
            rows: rows.as_slice(),
            zone,
            row_links: None,
            component_links: None,
            moments: None,
            dates: None,
            texts: None,
        };
        if object.components.len() <= FEW {
            return ready_holds(alloc, &subject, self);
        }
        let row_links = row_links(alloc, rows.as_slice(), object.components.len())?;
        let component_links = component_links(alloc, object)?;
        linked_holds(alloc, &subject, &row_links, &component_links, self)
    }

    /// Whether an object matches the filter, as far as the given rows tell.
    ///
    /// Floating times are read in the given zone. Where the rows are rows of the object, and among
    /// them are all that meet a range of the filter, they tell as much as all rows of the object.
    /// Memory may be wanting only where the filter looks at a text or a date, where it asks a range of
    /// an alarm and there are more than sixteen rows, or where the object has more than four
    /// components.
    pub fn matches(
        &self,
        alloc: Global,
        object: &Object,
        rows: &List<Row>,
        zone: &ZoneTable,
    ) -> Result<bool, NoMemory>
        requires zone { IsTable zone.now }
        requires zones { All IsTable object.now.zones }
        requires rows { All IsNearRow rows.now }
        ensures given { IfOk result (λ matches. matches ≡ spec.matches self.now object.now rows.now zone.now) }
        ensures whole { IfOk result (λ matches. AreEnough self.now object.now rows.now zone.now → matches ≡ spec.matches_object self.now object.now zone.now) }
    {
        self.matches_rows(alloc, object, rows, zone)
    }
}

/// Whether an object matches a filter, as far as the given rows tell; for one object alone.
pub fn matches(
    alloc: Global,
    filter: &Filter,
    object: &Object,
    rows: &List<Row>,
    zone: &ZoneTable,
) -> Result<bool, NoMemory>
    requires zone { IsTable zone.now }
    requires zones { All IsTable object.now.zones }
    requires rows { All IsNearRow rows.now }
    ensures given { IfOk result (λ matches. matches ≡ spec.matches filter.now object.now rows.now zone.now) }
    ensures whole { IfOk result (λ matches. AreEnough filter.now object.now rows.now zone.now → matches ≡ spec.matches_object filter.now object.now zone.now) }
{
    let prepared = Prepared::of(alloc, filter)?;
    prepared.matches(alloc, object, rows, zone)
}
