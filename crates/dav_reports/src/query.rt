//! The objects of a calendar that match a filter (RFC 4791, 7.8).
ghost use Rattle.std.specs.Prelude.{◌≡◌, ◌<◌, ◌∷◌, [], ◌++◌, ◌≤◌, ◌+◌, ℕ, List, All, filter, flat_map, IfOk, OnOk, length, ◌^◌};
ghost use Rattle.cal_base.specs.Lists.NameMap.{value_at};
ghost use Rattle.cal_model.specs.Filters.Matching.{matches, matches_object};
ghost use Rattle.cal_model.specs.Ranges.Nearness.{HasShortOffsets};
ghost use Rattle.cal_model.specs.Properties.PropertyReplies.{resource_response};
ghost use Rattle.cal_model.specs.Replies.XmlText.{multistatus};
ghost use Rattle.cal_model.specs.Reports.NamedRanges.{ranges_of_filter, ranges_of_selection as selected_ranges};
ghost use Rattle.cal_model.specs.Reports.NeededWindows.{counts, stated_windows};
ghost use Rattle.cal_model.specs.Selections.ShownData.{shown as shown_by, shown_of_object};
ghost use Rattle.cal_model.specs.Serving.ReportReplies.{object_response, octets_match, query_reply, shown_octets};
ghost use Rattle.cal_model.specs.Sight.Resources.{Resource, path_of_resource};
ghost use Rattle.cal_model.specs.State.ServerState.{Calendar};
ghost use Rattle.cal_model.specs.State.SoundStates.{IsSound};
ghost use Rattle.cal_model.specs.TimeZones.TableBounds.{IsTable};
ghost use Rattle.cal_model.specs.declared.path.Path.TheVariants.{Object as ObjectPath};
ghost use Rattle.expand_limit.specs.InstanceLines.{IsShownRow};
ghost use Rattle.overlap_rules.specs.Bounds.{IsNearRow};
ghost use Rattle.multistatus.specs.ReplyPieces.{begun};
ghost use Rattle.object_walk.specs.WalkedObjects.{objects_at};
ghost use Rattle.dav_reports.specs.CalendarObjects.{AreHeldRight, query_cost, sought_responses};
ghost use Rattle.dav_reports.specs.AskedProperties.{names_asked};
ghost use Rattle.dav_reports.specs.PieceRows.{AreRowsOf, IsKept, needed_cost};
ghost use Rattle.dav_reports.specs.SeenCalendars.{IsBody, IsWritten, MayRead, reported_of};
ghost use Rattle.dav_reports.specs.ShownObjects.{IsShown, asker_of};

use crate::names::names_to_ask;
use crate::ranges::ranges_of_query;
use crate::rows::rows_for;
use crate::shown_response::push_object;
use cal_base::{List, NoMemory, Octets, Steps};
use cal_model::view::{Pieces, View};
use cal_model::{
    ANSWER_LIMIT, Filter, Path, PropAnswers, PropName, Props, Range, Row, Seen, Selection, Stored,
    ZoneTable,
};
use expand_limit::{shown, takes_all};
use filter_eval::Prepared;
use multistatus::{begin_multistatus, end_multistatus};
use object_walk::Walks;
use std::alloc::Global;
use std::sync::ledger::Ledger;

/// The path of an object.
fn object_path(
    alloc: Global,
    owner: &[u8],
    calendar: &[u8],
    object: &[u8],
) -> Result<Path, NoMemory>
    ensures { IfOk result (λ path. path ≡ ObjectPath owner.now calendar.now object.now) }
{
    let owner = Octets::of(alloc, owner)?;
    let calendar = Octets::of(alloc, calendar)?;
    let object = Octets::of(alloc, object)?;
    Ok(Path::Object(owner, calendar, object))
}

/// Appends the response of an object of a calendar, given rows of it.
pub(crate) fn push_shown<V: View, A: PropAnswers>(
    alloc: Global,
    seen: &Seen<'_, V>,
    home: u32,
    calendar: &[u8],
    answers: &A,
    stored: &Stored,
    rows: &List<Row>,
    props: &Props,
    names: &List<PropName>,
    select: &Selection,
    zone: &ZoneTable,
    out: &mut Octets,
) -> Result<(), NoMemory>
    requires user { seen.now.who < length (V.directory seen.now.view.now).names }
    requires home { home < length (V.directory seen.now.view.now).names }
    requires sound { IsSound (V.directory seen.now.view.now) (V.state seen.now.view.now) }
    requires few { length stored.now.object.components < 2 ^ 32 }
    requires rows { All IsShownRow rows.now }
    requires names { names.now ≡ names_asked props.now }
    requires zone { IsTable zone.now }
    ensures response { (c : Calendar) → MayRead (V.directory seen.now.view.now) (V.state seen.now.view.now) seen.now.who home calendar.now c → value_at c.objects stored.now.path.object ≡ Some stored.now.octets → shown_by stored.now.octets stored.now.object rows.now select.now zone.now ≡ shown_of_object stored.now.octets stored.now.object select.now zone.now → OnOk result (out.new ≡ out.old ++ object_response (reported_of (V.directory seen.now.view.now) seen.now.who home calendar.now c) select.now zone.now props.now (stored.now.path.object, stored.now.octets)) }
{
    let owner = seen.view.user_name(home);
    let path = object_path(alloc, owner, calendar, stored.path.object.as_slice())?;
    let asked = (props, names, select, zone);
    push_at(alloc, seen, answers, &path, stored, rows, asked, out)
}

/// Appends the response of the object at a path, given rows of it.
fn push_at<V: View, A: PropAnswers>(
    alloc: Global,
    seen: &Seen<'_, V>,
    answers: &A,
    path: &Path,
    stored: &Stored,
    rows: &List<Row>,
    asked: (&Props, &List<PropName>, &Selection, &ZoneTable),
    out: &mut Octets,
) -> Result<(), NoMemory>
    requires user { seen.now.who < length (V.directory seen.now.view.now).names }
    requires few { length stored.now.object.components < 2 ^ 32 }
    requires rows { All IsShownRow rows.now }
    requires names { asked.1.now ≡ names_asked asked.0.now }
    requires zone { IsTable asked.3.now }
    ensures response { (resource : Resource) → shown_by stored.now.octets stored.now.object rows.now asked.entry.2.now asked.entry.3.now ≡ shown_of_object stored.now.octets stored.now.object asked.entry.2.now asked.entry.3.now → IsShown (V.directory seen.now.view.now) (V.state seen.now.view.now) seen.now.who path.now (shown_octets asked.entry.2.now asked.entry.3.now stored.now.octets) (shown_octets asked.entry.2.now asked.entry.3.now) resource → path_of_resource resource ≡ path.now → OnOk result (out.new ≡ out.old ++ resource_response (asker_of (V.directory seen.now.view.now) seen.now.who (shown_octets asked.entry.2.now asked.entry.3.now)) asked.entry.0.now resource) }
{
    let (props, names, select, zone) = asked;
    if takes_all(select) {
        let text = stored.octets.as_slice();
        return push_object(alloc, answers, seen, path, text, props, names, out);
    }
    let text = shown(
        alloc,
        stored.octets.as_slice(),
        &stored.object,
        rows,
        select,
        zone,
    )?;
    push_object(
        alloc,
        answers,
        seen,
        path,
        text.as_slice(),
        props,
        names,
        out,
    )
}

/// Appends the response of an object where it matches a filter, given rows of it.
fn push_if_matching<V: View, A: PropAnswers>(
    alloc: Global,
    seen: &Seen<'_, V>,
    home: u32,
    calendar: &[u8],
    answers: &A,
    stored: &Stored,
    rows: &List<Row>,
    wanted: &Prepared<'_>,
    props: &Props,
    names: &List<PropName>,
    select: &Selection,
    zone: &ZoneTable,
    out: &mut Octets,
) -> Result<(), NoMemory>
    requires user { seen.now.who < length (V.directory seen.now.view.now).names }
    requires home { home < length (V.directory seen.now.view.now).names }
    requires sound { IsSound (V.directory seen.now.view.now) (V.state seen.now.view.now) }
    requires kept { IsKept stored.now.object }
    requires rows { All IsShownRow rows.now }
    requires near { All IsNearRow rows.now }
    requires names { names.now ≡ names_asked props.now }
    requires zone { IsTable zone.now }
    ensures response { (c : Calendar) → MayRead (V.directory seen.now.view.now) (V.state seen.now.view.now) seen.now.who home calendar.now c → value_at c.objects stored.now.path.object ≡ Some stored.now.octets → shown_by stored.now.octets stored.now.object rows.now select.now zone.now ≡ shown_of_object stored.now.octets stored.now.object select.now zone.now → matches wanted.now stored.now.object rows.now zone.now ≡ matches_object wanted.now stored.now.object zone.now → OnOk result (out.new ≡ out.old ++ flat_map (object_response (reported_of (V.directory seen.now.view.now) seen.now.who home calendar.now c) select.now zone.now props.now) (filter (λ (entry : List ℕ × List ℕ). octets_match wanted.now zone.now entry.1) ((stored.now.path.object, stored.now.octets) ∷ []))) }
{
    if wanted.matches(alloc, &stored.object, rows, zone)? {
        push_shown(
            alloc, seen, home, calendar, answers, stored, rows, props, names, select, zone, out,
        )
    } else {
        Ok(())
    }
}

/// Appends the response of an object where it matches a filter. Rows come from pieces wherever there is
/// one.
fn push_sought<V: View, A: PropAnswers, P: Pieces, L: Ledger>(
    alloc: Global,
    seen: &Seen<'_, V>,
    home: u32,
    calendar: &[u8],
    pieces: &P,
    answers: &A,
    origin: u64,
    stored: &Stored,
    ranges: &[Range],
    wanted: &Prepared<'_>,
    props: &Props,
    names: &List<PropName>,
    select: &Selection,
    zone: &ZoneTable,
    out: &mut Octets,
    steps: &mut Steps<L>,
) -> Result<(), NoMemory>
    requires user { seen.now.who < length (V.directory seen.now.view.now).names }
    requires home { home < length (V.directory seen.now.view.now).names }
    requires sound { IsSound (V.directory seen.now.view.now) (V.state seen.now.view.now) }
    requires kept { IsKept stored.now.object }
    requires right { AreRowsOf (P.held pieces.now) origin stored.now.object }
    requires ranges { ranges.now ≡ selected_ranges select.now ++ ranges_of_filter wanted.now.top }
    requires names { names.now ≡ names_asked props.now }
    requires zone { IsTable zone.now }
    requires short { HasShortOffsets zone.now }
    ensures steps { steps.new ≤ steps.old + needed_cost (P.held pieces.now) origin stored.now.object (filter (counts stored.now.object ranges.now) stated_windows) }
    ensures response { (c : Calendar) → MayRead (V.directory seen.now.view.now) (V.state seen.now.view.now) seen.now.who home calendar.now c → value_at c.objects stored.now.path.object ≡ Some stored.now.octets → OnOk result (out.new ≡ out.old ++ flat_map (object_response (reported_of (V.directory seen.now.view.now) seen.now.who home calendar.now c) select.now zone.now props.now) (filter (λ (entry : List ℕ × List ℕ). octets_match wanted.now zone.now entry.1) ((stored.now.path.object, stored.now.octets) ∷ []))) }
{
    let looked = rows_for(alloc, pieces, origin, &stored.object, ranges, steps)?;
    push_if_matching(
        alloc,
        seen,
        home,
        calendar,
        answers,
        stored,
        looked.rows(),
        wanted,
        props,
        names,
        select,
        zone,
        out,
    )
}

/// Appends the responses of the objects of a calendar that match a filter, by name; ends as soon as they
/// are longer than an answer may be, and then gives false.
fn push_all_sought<V: Walks, A: PropAnswers, P: Pieces, L: Ledger>(
    alloc: Global,
    seen: &Seen<'_, V>,
    home: u32,
    calendar: &[u8],
    pieces: &P,
    answers: &A,
    ranges: &[Range],
    wanted: &Prepared<'_>,
    props: &Props,
    names: &List<PropName>,
    select: &Selection,
    zone: &ZoneTable,
    out: &mut Octets,
    steps: &mut Steps<L>,
) -> Result<bool, NoMemory>
    requires user { seen.now.who < length (V.directory seen.now.view.now).names }
    requires home { home < length (V.directory seen.now.view.now).names }
    requires sound { IsSound (V.directory seen.now.view.now) (V.state seen.now.view.now) }
    requires right { AreHeldRight (P.held pieces.now) (V.origins seen.now.view.now) (V.state seen.now.view.now) home calendar.now }
    requires ranges { ranges.now ≡ selected_ranges select.now ++ ranges_of_filter wanted.now.top }
    requires names { names.now ≡ names_asked props.now }
    requires zone { IsTable zone.now }
    requires short { HasShortOffsets zone.now }
    ensures steps { steps.new ≤ steps.old + query_cost (P.held pieces.now) select.now wanted.now (V.origins seen.now.view.now home calendar.now) (objects_at (V.state seen.now.view.now) home calendar.now) }
    ensures written { IfOk result (λ whole. (c : Calendar) → MayRead (V.directory seen.now.view.now) (V.state seen.now.view.now) seen.now.who home calendar.now c → IsWritten whole out.old out.new (sought_responses (reported_of (V.directory seen.now.view.now) seen.now.who home calendar.now c) select.now zone.now props.now wanted.now c.objects)) }
{
    'walk: for (stored, origin) in seen.view.objects(home, calendar) {
        push_sought(
            alloc, seen, home, calendar, pieces, answers, origin, stored, ranges, wanted, props,
            names, select, zone, out, steps,
        )?;
        if out.len() > ANSWER_LIMIT {
            return Ok(false);
        }
    }
    Ok(true)
}

/// The body of the reply to a calendar-query: the objects that match the filter, by name. None where it
/// would be longer than an answer may be (64 MiB), which is not written whole. Whether the user may read
/// the calendar is not looked at here.
pub(crate) fn query<V: Walks, A: PropAnswers, P: Pieces, L: Ledger>(
    alloc: Global,
    seen: &Seen<'_, V>,
    calendar: (u32, &[u8]),
    pieces: &P,
    answers: &A,
    zone: &ZoneTable,
    asked: (&Props, &Selection, &Filter),
    steps: &mut Steps<L>,
) -> Result<Option<Octets>, NoMemory>
    requires user { seen.now.who < length (V.directory seen.now.view.now).names }
    requires home { calendar.0 < length (V.directory seen.now.view.now).names }
    requires sound { IsSound (V.directory seen.now.view.now) (V.state seen.now.view.now) }
    requires right { AreHeldRight (P.held pieces.now) (V.origins seen.now.view.now) (V.state seen.now.view.now) calendar.0 calendar.1.now }
    requires zone { IsTable zone.now }
    requires short { HasShortOffsets zone.now }
    ensures steps { steps.new ≤ steps.old + query_cost (P.held pieces.now) asked.entry.1.now asked.entry.2.now (V.origins seen.now.view.now calendar.entry.0 calendar.entry.1.now) (objects_at (V.state seen.now.view.now) calendar.entry.0 calendar.entry.1.now) }
    ensures body { IfOk result (λ body. (c : Calendar) → MayRead (V.directory seen.now.view.now) (V.state seen.now.view.now) seen.now.who calendar.entry.0 calendar.entry.1.now c → IsBody body (query_reply (reported_of (V.directory seen.now.view.now) seen.now.who calendar.entry.0 calendar.entry.1.now c) asked.entry.0.now asked.entry.1.now asked.entry.2.now zone.now).body) }
{
    let (props, select, filter) = asked;
    let wanted = Prepared::of(alloc, filter)?;
    let ranges = ranges_of_query(alloc, select, &filter.top)?;
    let sought = (props, select, &wanted, ranges.as_slice());
    matching(alloc, seen, calendar, pieces, answers, zone, sought, steps)
}

/// The same of a filter that was made ready, with the ranges that the selection and the filter name.
fn matching<V: Walks, A: PropAnswers, P: Pieces, L: Ledger>(
    alloc: Global,
    seen: &Seen<'_, V>,
    calendar: (u32, &[u8]),
    pieces: &P,
    answers: &A,
    zone: &ZoneTable,
    asked: (&Props, &Selection, &Prepared<'_>, &[Range]),
    steps: &mut Steps<L>,
) -> Result<Option<Octets>, NoMemory>
    requires user { seen.now.who < length (V.directory seen.now.view.now).names }
    requires home { calendar.0 < length (V.directory seen.now.view.now).names }
    requires sound { IsSound (V.directory seen.now.view.now) (V.state seen.now.view.now) }
    requires right { AreHeldRight (P.held pieces.now) (V.origins seen.now.view.now) (V.state seen.now.view.now) calendar.0 calendar.1.now }
    requires zone { IsTable zone.now }
    requires short { HasShortOffsets zone.now }
    requires ranges { asked.3.now ≡ selected_ranges asked.1.now ++ ranges_of_filter asked.2.now.top }
    ensures steps { steps.new ≤ steps.old + query_cost (P.held pieces.now) asked.entry.1.now asked.entry.2.now (V.origins seen.now.view.now calendar.entry.0 calendar.entry.1.now) (objects_at (V.state seen.now.view.now) calendar.entry.0 calendar.entry.1.now) }
    ensures body { IfOk result (λ body. (c : Calendar) → MayRead (V.directory seen.now.view.now) (V.state seen.now.view.now) seen.now.who calendar.entry.0 calendar.entry.1.now c → IsBody body (query_reply (reported_of (V.directory seen.now.view.now) seen.now.who calendar.entry.0 calendar.entry.1.now c) asked.entry.0.now asked.entry.1.now asked.entry.2.now zone.now).body) }
{
    let (home, name) = calendar;
    let (props, select, wanted, ranges) = asked;
    let names = names_to_ask(alloc, props)?;
    let mut body = begin_multistatus(alloc)?;
    let whole = push_all_sought(
        alloc, seen, home, name, pieces, answers, ranges, wanted, props, &names, select, zone,
        &mut body, steps,
    )?;
    finished(whole, body)
}

/// The whole body, of one that was begun and to which responses were appended; none where it is longer
/// than an answer may be.
pub(crate) fn finished(whole: bool, body: Octets) -> Result<Option<Octets>, NoMemory>
    ensures { IfOk result (λ body_whole. (responses : List ℕ) → IsWritten whole begun body responses → IsBody body_whole (multistatus responses)) }
{
    if !whole {
        return Ok(None);
    }
    let body = end_multistatus(body)?;
    if body.len() > ANSWER_LIMIT {
        return Ok(None);
    }
    Ok(Some(body))
}
