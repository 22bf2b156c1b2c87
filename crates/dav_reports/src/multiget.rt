//! The objects of a calendar at some hrefs (RFC 4791, 7.9).
ghost use Rattle.std.specs.Prelude.{◌≡◌, ◌<◌, [], ◌++◌, ◌≤◌, ◌+◌, ℕ, List, All, flat_map, IfOk, OnOk, length, None, option_and_then};
ghost use Rattle.std.specs.List.{AllByRecursion};
ghost use Rattle.cal_base.specs.Lists.NameMap.{Named, value_at, with_value};
ghost use Rattle.cal_model.specs.Paths.TargetPaths.{target_path};
ghost use Rattle.cal_model.specs.Ranges.Nearness.{HasShortOffsets};
ghost use Rattle.cal_model.specs.Reports.NamedRanges.{ranges_of_selection as selected_ranges};
ghost use Rattle.cal_model.specs.Reports.NeededWindows.{windows_needed};
ghost use Rattle.cal_model.specs.Serving.ReportReplies.{Reported, href_response, multiget_reply, object_response, own_object};
ghost use Rattle.cal_model.specs.State.ServerState.{Calendar};
ghost use Rattle.cal_model.specs.State.SoundStates.{IsSound};
ghost use Rattle.cal_model.specs.TimeZones.TableBounds.{IsTable};
ghost use Rattle.cal_model.specs.declared.property.Props.TheVariants.{None as NoProps};
ghost use Rattle.cal_model.specs.declared.report.ReportRequest.TheVariants.{Multiget};
ghost use Rattle.dav_reports.specs.AskedProperties.{names_asked};
ghost use Rattle.dav_reports.specs.CalendarObjects.{AreHeldRight, NamesAmong, StandsAmong, entries_cost, name_at, objects_concerned};
ghost use Rattle.dav_reports.specs.MetObjects.{AreResponses, AreWithin, IsWithin, multiget_cost, named_response, place_behind, text_at, unmet_cost};
ghost use Rattle.dav_reports.specs.PieceRows.{AreRowsOf, IsKept, needed_cost};
ghost use Rattle.dav_reports.specs.SeenCalendars.{IsBody, IsWritten, MayRead, reported_of};

use crate::names::names_to_ask;
use crate::query::{finished, push_shown};
use crate::ranges::ranges_of_selection;
use crate::rows::rows_for;
use cal_base::{List, NameMap, NoMemory, Octets, Steps};
use cal_model::view::{Pieces, View};
use cal_model::{
    ANSWER_LIMIT, Path, PropAnswers, PropName, Props, Range, Seen, Selection, Stored, ZoneTable,
};
use dav_write::read_path;
use multistatus::{PropStatus, begin_multistatus, push_status_response};
use std::alloc::Global;
use std::sync::ledger::Ledger;

/// Where a response stands in what was written.
#[derive(Clone, Copy)]
struct Place {
    begin: usize,
    end: usize,
}

/// The name of an object of a calendar, where an href names one.
fn own_name(
    alloc: Global,
    owner: &[u8],
    calendar: &[u8],
    href: &[u8],
) -> Result<Option<Octets>, NoMemory>
    ensures own { IfOk result (λ name. (reported : Reported) → reported.owner ≡ owner.now → reported.name ≡ calendar.now → name ≡ option_and_then (own_object reported) (target_path href.now)) }
    ensures named { IfOk result (λ name. name ≡ name_at owner.now calendar.now href.now) }
{
    let Some(Path::Object(user, within, name)) = read_path(alloc, href)? else {
        return Ok(None);
    };
    if user.as_slice() == owner && within.as_slice() == calendar {
        Ok(Some(name))
    } else {
        Ok(None)
    }
}

/// Appends what stands at a place of what was written.
fn push_again(alloc: Global, place: Place, out: &mut Octets) -> Result<(), NoMemory>
    requires within { IsWithin (length out.old) place }
    ensures text { OnOk result (out.new ≡ out.old ++ text_at out.old place) }
{
    let said = Octets::of(alloc, &out.as_slice()[place.begin..place.end])?;
    out.extend_from_slice(said.as_slice())
}

/// Appends the response of an object that is there. Rows come from pieces wherever there is one.
fn push_found<V: View, A: PropAnswers, P: Pieces, L: Ledger>(
    alloc: Global,
    seen: &Seen<'_, V>,
    home: u32,
    calendar: &[u8],
    pieces: &P,
    answers: &A,
    origin: u64,
    stored: &Stored,
    ranges: &[Range],
    props: &Props,
    names: &List<PropName>,
    select: &Selection,
    zone: &ZoneTable,
    out: &mut Octets,
    steps: &mut Steps<L>,
) -> Result<(), NoMemory>
    requires user { seen.now.who < length (V.directory seen.now.view.now).names }
    requires home { home < length (V.directory seen.now.view.now).names }
    requires sound { IsSound (V.directory seen.now.view.now) (V.state seen.now.view.now) }
    requires kept { IsKept stored.now.object }
    requires right { AreRowsOf (P.held pieces.now) origin stored.now.object }
    requires ranges { ranges.now ≡ selected_ranges select.now }
    requires names { names.now ≡ names_asked props.now }
    requires zone { IsTable zone.now }
    requires short { HasShortOffsets zone.now }
    ensures steps { steps.new ≤ steps.old + needed_cost (P.held pieces.now) origin stored.now.object (windows_needed stored.now.object (Multiget NoProps select.now [])) }
    ensures response { (c : Calendar) → MayRead (V.directory seen.now.view.now) (V.state seen.now.view.now) seen.now.who home calendar.now c → value_at c.objects stored.now.path.object ≡ Some stored.now.octets → OnOk result (out.new ≡ out.old ++ object_response (reported_of (V.directory seen.now.view.now) seen.now.who home calendar.now c) select.now zone.now props.now (stored.now.path.object, stored.now.octets)) }
{
    let looked = rows_for(alloc, pieces, origin, &stored.object, ranges, steps)?;
    push_shown(
        alloc,
        seen,
        home,
        calendar,
        answers,
        stored,
        looked.rows(),
        props,
        names,
        select,
        zone,
        out,
    )
}

/// Appends a response, and keeps where it stands by the name of its object.
fn push_said(
    name: Octets,
    said: &[u8],
    met: &mut NameMap<Place>,
    out: &mut Octets,
) -> Result<(), NoMemory>
    ensures text { OnOk result (out.new ≡ out.old ++ said.now) }
    ensures met { OnOk result (met.new ≡ with_value met.old name (place_behind out.old said.now)) }
{
    let begin = out.len();
    out.extend_from_slice(said)?;
    let end = out.len();
    met.insert(name, Place { begin, end })
}

/// Appends the response to an href that names an object of a calendar that was not met before, and
/// keeps where it stands; or 404 where there is no such object.
fn push_new<V: View, A: PropAnswers, P: Pieces, L: Ledger>(
    alloc: Global,
    seen: &Seen<'_, V>,
    home: u32,
    calendar: &[u8],
    pieces: &P,
    answers: &A,
    ranges: &[Range],
    props: &Props,
    names: &List<PropName>,
    select: &Selection,
    zone: &ZoneTable,
    href: &[u8],
    name: Octets,
    met: &mut NameMap<Place>,
    out: &mut Octets,
    steps: &mut Steps<L>,
) -> Result<(), NoMemory>
    requires user { seen.now.who < length (V.directory seen.now.view.now).names }
    requires home { home < length (V.directory seen.now.view.now).names }
    requires sound { IsSound (V.directory seen.now.view.now) (V.state seen.now.view.now) }
    requires right { AreHeldRight (P.held pieces.now) (V.origins seen.now.view.now) (V.state seen.now.view.now) home calendar.now }
    requires ranges { ranges.now ≡ selected_ranges select.now }
    requires names { names.now ≡ names_asked props.now }
    requires zone { IsTable zone.now }
    requires short { HasShortOffsets zone.now }
    requires not_met { value_at met.old name ≡ None }
    requires within { AreWithin met.old (length out.old) }
    ensures within { OnOk result (AreWithin met.new (length out.new)) }
    ensures at_most { (entries : Named (List ℕ)) → StandsAmong (V.state seen.now.view.now) home calendar.now entries name → steps.new ≤ steps.old + unmet_cost (P.held pieces.now) select.now (V.origins seen.now.view.now home calendar.now) met.old entries }
    ensures steps { (entries : Named (List ℕ)) → StandsAmong (V.state seen.now.view.now) home calendar.now entries name → OnOk result (steps.new + unmet_cost (P.held pieces.now) select.now (V.origins seen.now.view.now home calendar.now) met.new entries ≤ steps.old + unmet_cost (P.held pieces.now) select.now (V.origins seen.now.view.now home calendar.now) met.old entries) }
    ensures response { (c : Calendar) → MayRead (V.directory seen.now.view.now) (V.state seen.now.view.now) seen.now.who home calendar.now c → OnOk result (out.new ≡ out.old ++ named_response (reported_of (V.directory seen.now.view.now) seen.now.who home calendar.now c) select.now zone.now props.now href.now name) }
    ensures said { (c : Calendar) → MayRead (V.directory seen.now.view.now) (V.state seen.now.view.now) seen.now.who home calendar.now c → AreResponses (reported_of (V.directory seen.now.view.now) seen.now.who home calendar.now c) select.now zone.now props.now met.old out.old → OnOk result (AreResponses (reported_of (V.directory seen.now.view.now) seen.now.who home calendar.now c) select.now zone.now props.now met.new out.new) }
{
    let Some((stored, origin)) = seen.view.object(home, calendar, name.as_slice()) else {
        return push_status_response(href, PropStatus::NotFound, out);
    };
    let mut said = Octets::new(alloc);
    push_found(
        alloc, seen, home, calendar, pieces, answers, origin, stored, ranges, props, names, select,
        zone, &mut said, steps,
    )?;
    push_said(name, said.as_slice(), met, out)
}

/// Appends the response to an href: that of an object of the calendar, or 404. What was said of an
/// object that was met before is said again.
fn push_href<V: View, A: PropAnswers, P: Pieces, L: Ledger>(
    alloc: Global,
    seen: &Seen<'_, V>,
    home: u32,
    calendar: &[u8],
    pieces: &P,
    answers: &A,
    ranges: &[Range],
    props: &Props,
    names: &List<PropName>,
    select: &Selection,
    zone: &ZoneTable,
    href: &[u8],
    met: &mut NameMap<Place>,
    out: &mut Octets,
    steps: &mut Steps<L>,
) -> Result<(), NoMemory>
    requires user { seen.now.who < length (V.directory seen.now.view.now).names }
    requires home { home < length (V.directory seen.now.view.now).names }
    requires sound { IsSound (V.directory seen.now.view.now) (V.state seen.now.view.now) }
    requires right { AreHeldRight (P.held pieces.now) (V.origins seen.now.view.now) (V.state seen.now.view.now) home calendar.now }
    requires ranges { ranges.now ≡ selected_ranges select.now }
    requires names { names.now ≡ names_asked props.now }
    requires zone { IsTable zone.now }
    requires short { HasShortOffsets zone.now }
    requires within { AreWithin met.old (length out.old) }
    ensures within { OnOk result (AreWithin met.new (length out.new)) }
    ensures at_most { (entries : Named (List ℕ)) → NamesAmong (V.directory seen.now.view.now) (V.state seen.now.view.now) home calendar.now entries href.now → steps.new ≤ steps.old + unmet_cost (P.held pieces.now) select.now (V.origins seen.now.view.now home calendar.now) met.old entries }
    ensures steps { (entries : Named (List ℕ)) → NamesAmong (V.directory seen.now.view.now) (V.state seen.now.view.now) home calendar.now entries href.now → OnOk result (steps.new + unmet_cost (P.held pieces.now) select.now (V.origins seen.now.view.now home calendar.now) met.new entries ≤ steps.old + unmet_cost (P.held pieces.now) select.now (V.origins seen.now.view.now home calendar.now) met.old entries) }
    ensures response { (c : Calendar) → MayRead (V.directory seen.now.view.now) (V.state seen.now.view.now) seen.now.who home calendar.now c → AreResponses (reported_of (V.directory seen.now.view.now) seen.now.who home calendar.now c) select.now zone.now props.now met.old out.old → OnOk result (out.new ≡ out.old ++ href_response (reported_of (V.directory seen.now.view.now) seen.now.who home calendar.now c) select.now zone.now props.now href.now) }
    ensures said { (c : Calendar) → MayRead (V.directory seen.now.view.now) (V.state seen.now.view.now) seen.now.who home calendar.now c → AreResponses (reported_of (V.directory seen.now.view.now) seen.now.who home calendar.now c) select.now zone.now props.now met.old out.old → OnOk result (AreResponses (reported_of (V.directory seen.now.view.now) seen.now.who home calendar.now c) select.now zone.now props.now met.new out.new) }
{
    let owner = seen.view.user_name(home);
    let Some(name) = own_name(alloc, owner, calendar, href)? else {
        return push_status_response(href, PropStatus::NotFound, out);
    };
    if let Some(place) = met.get(name.as_slice()) {
        return push_again(alloc, *place, out);
    }
    push_new(
        alloc, seen, home, calendar, pieces, answers, ranges, props, names, select, zone, href,
        name, met, out, steps,
    )
}

/// Appends the responses to some hrefs, in their order; ends as soon as they are longer than an answer
/// may be, and then gives false. The rows of an object are looked at once.
fn push_hrefs<V: View, A: PropAnswers, P: Pieces, L: Ledger>(
    alloc: Global,
    seen: &Seen<'_, V>,
    home: u32,
    calendar: &[u8],
    pieces: &P,
    answers: &A,
    ranges: &[Range],
    props: &Props,
    names: &List<PropName>,
    select: &Selection,
    zone: &ZoneTable,
    hrefs: &[Octets],
    out: &mut Octets,
    steps: &mut Steps<L>,
) -> Result<bool, NoMemory>
    requires user { seen.now.who < length (V.directory seen.now.view.now).names }
    requires home { home < length (V.directory seen.now.view.now).names }
    requires sound { IsSound (V.directory seen.now.view.now) (V.state seen.now.view.now) }
    requires right { AreHeldRight (P.held pieces.now) (V.origins seen.now.view.now) (V.state seen.now.view.now) home calendar.now }
    requires ranges { ranges.now ≡ selected_ranges select.now }
    requires names { names.now ≡ names_asked props.now }
    requires zone { IsTable zone.now }
    requires short { HasShortOffsets zone.now }
    ensures steps { (entries : Named (List ℕ)) → AllByRecursion (NamesAmong (V.directory seen.now.view.now) (V.state seen.now.view.now) home calendar.now entries) hrefs.now → steps.new ≤ steps.old + multiget_cost (P.held pieces.now) select.now (V.origins seen.now.view.now home calendar.now) entries }
    ensures written { IfOk result (λ whole. (c : Calendar) → MayRead (V.directory seen.now.view.now) (V.state seen.now.view.now) seen.now.who home calendar.now c → IsWritten whole out.old out.new (flat_map (href_response (reported_of (V.directory seen.now.view.now) seen.now.who home calendar.now c) select.now zone.now props.now) hrefs.now)) }
{
    let mut met = NameMap::new(alloc);
    let mut rest = hrefs;
    'hrefs: while let Some((href, behind)) = rest.split_first() {
        push_href(
            alloc,
            seen,
            home,
            calendar,
            pieces,
            answers,
            ranges,
            props,
            names,
            select,
            zone,
            href.as_slice(),
            &mut met,
            out,
            steps,
        )?;
        if out.len() > ANSWER_LIMIT {
            return Ok(false);
        }
        rest = behind;
    }
    Ok(true)
}

/// The body of the reply to a calendar-multiget: the objects at some hrefs, in their order, and 404 at
/// each href of none. None where it would be longer than an answer may be (64 MiB), which is not
/// written whole. Whether the user may read the calendar is not looked at here.
pub(crate) fn multiget<V: View, A: PropAnswers, P: Pieces, L: Ledger>(
    alloc: Global,
    seen: &Seen<'_, V>,
    calendar: (u32, &[u8]),
    pieces: &P,
    answers: &A,
    zone: &ZoneTable,
    asked: (&Props, &Selection, &List<Octets>),
    steps: &mut Steps<L>,
) -> Result<Option<Octets>, NoMemory>
    requires user { seen.now.who < length (V.directory seen.now.view.now).names }
    requires home { calendar.0 < length (V.directory seen.now.view.now).names }
    requires sound { IsSound (V.directory seen.now.view.now) (V.state seen.now.view.now) }
    requires right { AreHeldRight (P.held pieces.now) (V.origins seen.now.view.now) (V.state seen.now.view.now) calendar.0 calendar.1.now }
    requires zone { IsTable zone.now }
    requires short { HasShortOffsets zone.now }
    ensures steps { steps.new ≤ steps.old + entries_cost (P.held pieces.now) (Multiget NoProps asked.entry.1.now []) (V.origins seen.now.view.now calendar.entry.0 calendar.entry.1.now) (objects_concerned (V.directory seen.now.view.now) (V.state seen.now.view.now) calendar.entry.0 calendar.entry.1.now (Multiget NoProps asked.entry.1.now asked.entry.2.now)) }
    ensures body { IfOk result (λ body. (c : Calendar) → MayRead (V.directory seen.now.view.now) (V.state seen.now.view.now) seen.now.who calendar.entry.0 calendar.entry.1.now c → IsBody body (multiget_reply (reported_of (V.directory seen.now.view.now) seen.now.who calendar.entry.0 calendar.entry.1.now c) asked.entry.0.now asked.entry.1.now asked.entry.2.now zone.now).body) }
{
    let (home, name) = calendar;
    let (props, select, hrefs) = asked;
    let names = names_to_ask(alloc, props)?;
    let ranges = ranges_of_selection(alloc, select)?;
    let mut body = begin_multistatus(alloc)?;
    let whole = push_hrefs(
        alloc,
        seen,
        home,
        name,
        pieces,
        answers,
        ranges.as_slice(),
        props,
        &names,
        select,
        zone,
        hrefs.as_slice(),
        &mut body,
        steps,
    )?;
    finished(whole, body)
}
