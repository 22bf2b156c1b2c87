//! The rows of a file that overlap a range.
ghost use Rattle.std.specs.Prelude.{◌≡◌, ◌+◌, ◌≤◌, ◌<◌, ◌^◌, length, IfOk, IfSome};
ghost use Rattle.cal_base.specs.Texts.LentTexts.{text_there};
ghost use Rattle.cal_model.specs.Objects.ObjectFacts.{IsRead};
ghost use Rattle.cal_model.specs.TimeZones.TableBounds.{IsTable};
ghost use Rattle.ics_tool.specs.Answers.{IsAnswer, IsCount};
ghost use Rattle.ics_tool.specs.Listings as spec;
ghost use Rattle.ics_tool.specs.NearRows.{IsListable, listing_cost, windows_cost};
ghost use Rattle.ics_tool.specs.RowTexts.{rows_text};

use crate::answer::{Listed, refusal, zone_refusal};
use crate::file_zone::zone_of;
use crate::found::rows_near;
use crate::lines::put_met;
use cal_base::{NoMemory, Octets, Steps};
use cal_model::{Object, Range, ZoneTable};
use cal_object::read_object;
use rrule_sets::{Counted, count_rows, has_fine_rule};
use std::alloc::Global;
use std::sync::ledger::Ledger;

/// The most instances that an object may have.
const MOST_INSTANCES: u32 = 250_000;

/// How many rows an object has, where these are not too many and no rule recurs by seconds or minutes.
pub(crate) fn rows_counted(alloc: Global, object: &Object) -> Counted
    requires read { IsRead object.now }
    requires few { length object.now.components < 2 ^ 32 }
    ensures { IsCount object.now result }
{
    if has_fine_rule(object) {
        return Counted::Over;
    }
    count_rows(alloc, object, MOST_INSTANCES)
}

/// The lines of the rows of an object that overlap a range.
fn met_text<L: Ledger>(
    alloc: Global,
    object: &Object,
    zone: &ZoneTable,
    range: Range,
    steps: &mut Steps<L>,
) -> Result<Octets, NoMemory>
    requires object { IsListable object.now }
    requires zone { IsTable zone.now }
    ensures steps { steps.new ≤ steps.old + windows_cost object.now range }
    ensures text { IfOk result (λ text. text ≡ rows_text (spec.rows_met object.now zone.now range)) }
{
    let rows = rows_near(alloc, object, range, steps)?;
    let mut out = Octets::new(alloc);
    put_met(object, zone, range, rows.as_slice(), &mut out)?;
    Ok(out)
}

/// What is told of an object and a range, where the zone is at hand. Rows are made only where they are
/// not too many.
fn list_object<L: Ledger>(
    alloc: Global,
    object: &Object,
    zone: &ZoneTable,
    range: Range,
    steps: &mut Steps<L>,
) -> Listed
    requires read { IsRead object.now }
    requires few { length object.now.components < 2 ^ 32 }
    requires zone { IsTable zone.now }
    ensures steps { steps.new ≤ steps.old + windows_cost object.now range }
    ensures listed { IsAnswer (spec.object_listing object.now range zone.now) result }
{
    match rows_counted(alloc, object) {
        Counted::Within(_) => match met_text(alloc, object, zone, range, steps) {
            Ok(text) => Listed::Text(text),
            Err(NoMemory) => Listed::NoMemory,
        },
        Counted::Over => Listed::TooMany,
        Counted::NoMemory => Listed::NoMemory,
    }
}

/// The same where the zone is a text, or none.
fn list_in_zone<L: Ledger>(
    alloc: Global,
    object: &Object,
    zone: Option<&[u8]>,
    range: Range,
    steps: &mut Steps<L>,
) -> Listed
    requires read { IsRead object.now }
    requires few { length object.now.components < 2 ^ 32 }
    requires zone { IfSome zone (λ text. length text.now < 2 ^ 32) }
    ensures steps { steps.new ≤ steps.old + windows_cost object.now range }
    ensures listed { IsAnswer (spec.zone_listing object.now range (spec.zone_read (text_there zone.entry))) result }
{
    match zone_of(alloc, zone) {
        Ok(zone) => list_object(alloc, object, &zone, range, steps),
        Err(fault) => zone_refusal(fault),
    }
}

/// The rows of a file that overlap a range (RFC 4791, 9.9): a line for each, with its id, its start, its
/// end and the number of its component, in the order of the rows; those without a date come first.
/// Floating times and dates are read in the zone that the second text is, or in UTC where there is none.
/// The file is looked at first, then the zone, and then how many rows there are.
///
/// Takes no more steps than finding the rows of the windows that the range may need.
pub fn list_rows<L: Ledger>(
    alloc: Global,
    octets: &[u8],
    zone: Option<&[u8]>,
    range: Range,
    steps: &mut Steps<L>,
) -> Listed
    requires octets { length octets.now < 2 ^ 32 }
    requires zone { IfSome zone (λ text. length text.now < 2 ^ 32) }
    ensures steps { steps.new ≤ steps.old + listing_cost octets.now range }
    ensures listed { IsAnswer (spec.file_listing octets.now (text_there zone.entry) range) result }
{
    match read_object(alloc, octets) {
        Ok(object) => list_in_zone(alloc, &object, zone, range, steps),
        Err(fault) => refusal(fault),
    }
}
