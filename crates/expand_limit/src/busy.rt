//! FREEBUSY lines limited to a range (RFC 4791, 9.6.7).
ghost use Rattle.std.specs.Prelude.{◌≡◌, ℕ, List, ◌++◌, filter, flat_map, IfOk, OnOk, bytes_eq, codes, true, if◌then◌else◌};
ghost use Rattle.cal_base.specs.Lines.ContentLines.{pieces};
ghost use Rattle.cal_base.specs.Lines.LineGrammar.{IsReadLine};
ghost use Rattle.cal_base.specs.Texts.Octets.{comma};
ghost use Rattle.cal_model.specs.Selections.LimitedSets as spec;
ghost use Rattle.cal_model.specs.Values.StampTexts.{period_with, utc_stamp, written_period_end, length_ahead};
ghost use Rattle.cal_model.specs.Values.ValueTexts.{is_negative};
ghost use Rattle.expand_limit.specs.BusyItems.{joined_items, with_item};
ghost use Rattle.ical_values.specs.Parts.{text_there, later_pieces};
ghost use Rattle.shown_lines.specs.Portions.{written_portion};

use cal_base::{Line, NoMemory, Octets};
use cal_model::Range;
use cal_moment::{Period, PeriodEnd, Stamp};
use ical_values::{cut, first_piece, read_duration, read_moment};
use overlap_rules::period_overlaps;
use shown_lines::{Portion, write_items};
use std::alloc::Global;

/// A moment in UTC, if a text is one.
fn moment_in(text: &[u8]) -> Option<Stamp>
    ensures { result ≡ utc_stamp text.now }
{
    match read_moment(text) {
        Ok(moment) => Some(Stamp::Utc(moment)),
        Err(_) => None,
    }
}

/// Whether a text begins with a minus.
fn is_negative(text: &[u8]) -> bool
    ensures { result ≡ is_negative text.now }
{
    match text {
        [b'-', ..] => true,
        _ => false,
    }
}

/// A length that is not negative, if a text is one, as the end of a period.
fn length_in(text: &[u8]) -> Option<PeriodEnd>
    ensures { result ≡ length_ahead text.now }
{
    if is_negative(text) {
        return None;
    }
    match read_duration(text) {
        Ok(length) => Some(PeriodEnd::After(length)),
        Err(_) => None,
    }
}

/// The end of a period, if a text is one.
fn end_in(text: &[u8]) -> Option<PeriodEnd>
    ensures { result ≡ written_period_end utc_stamp text.now }
{
    match moment_in(text) {
        Some(stamp) => Some(PeriodEnd::At(stamp)),
        None => length_in(text),
    }
}

/// The period in UTC that a text is, if it is one.
fn period_in(text: &[u8]) -> Option<Period>
    ensures { result ≡ period_with utc_stamp text.now }
{
    let Some((start, end)) = cut(text, b'/') else {
        return None;
    };
    match (moment_in(start), end_in(end)) {
        (Some(start), Some(end)) => Some(Period { start, end }),
        _ => None,
    }
}

/// Whether a text is a period that meets a range.
fn text_meets(text: &[u8], range: Range) -> bool
    ensures { result ≡ spec.text_meets range text.now }
{
    match period_in(text) {
        Some(period) => period_overlaps(&period, range),
        None => false,
    }
}

/// Puts an item behind the others, if it meets a range.
fn put_item(
    alloc: Global,
    range: Range,
    item: &[u8],
    items: Option<Octets>,
) -> Result<Option<Octets>, NoMemory>
    ensures { IfOk result (λ more. more ≡ (if spec.text_meets range item.now then with_item items item.now else items)) }
{
    if !text_meets(item, range) {
        return Ok(items);
    }
    match items {
        None => Ok(Some(Octets::of(alloc, item)?)),
        Some(mut text) => {
            text.push(b',')?;
            text.extend_from_slice(item)?;
            Ok(Some(text))
        }
    }
}

/// The items of a value that meet a range, with commas between them; none where no item does.
fn meeting_items(alloc: Global, range: Range, value: &[u8]) -> Result<Option<Octets>, NoMemory>
    ensures { IfOk result (λ items. items ≡ joined_items (filter (spec.text_meets range) (pieces comma value.now))) }
{
    let mut items = None;
    let mut rest = Some(value);
    'items: while let Some(text) = rest {
        let (item, behind) = first_piece(text, b',');
        items = put_item(alloc, range, item, items)?;
        rest = behind;
    }
    Ok(items)
}

/// Writes what is shown of a FREEBUSY line with those periods alone that meet a range; nothing where
/// none does.
pub fn write_busy(
    alloc: Global,
    range: Range,
    line: &Line,
    portion: Portion,
    out: &mut Octets,
) -> Result<(), NoMemory>
    requires line { IsReadLine line.now }
    requires named { bytes_eq line.now.name (codes "FREEBUSY") ≡ true }
    ensures { OnOk result (out.new ≡ out.old ++ flat_map (written_portion portion) (spec.busy_line range line.now)) }
{
    if portion == Portion::Nothing {
        return Ok(());
    }
    match meeting_items(alloc, range, line.value.as_slice())? {
        Some(items) => write_items(alloc, line, items.as_slice(), portion, out),
        None => Ok(()),
    }
}
