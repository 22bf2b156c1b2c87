//! Ranges of time in a body (RFC 4791, 9.9).
ghost use Rattle.std.specs.Prelude.{◌≡◌, option_map};
ghost use Rattle.std.specs.Option.{option_copied};
ghost use Rattle.cal_model.specs.Bodies.RangeElements as spec;
ghost use Rattle.dav_elements.specs.Texts.{text_there};

use crate::parts::attribute;
use cal_base::Element;
use cal_model::{FIRST_DATE, LAST_DATE, Range, range_between, utc_of};
use cal_moment::Utc;

/// The range that an element states, if each end that is there is a UTC text and the end lies after
/// the start. One of both may be absent.
pub(crate) fn read_range(element: &Element) -> Option<Range>
    ensures { result ≡ spec.range_of element.now }
{
    range_of_ends(attribute(element, b"start"), attribute(element, b"end"))
}

fn range_of_ends(start: Option<&[u8]>, end: Option<&[u8]>) -> Option<Range>
    ensures { result ≡ spec.range_of_ends (option_map text_there start.entry) (option_map text_there end.entry) }
{
    if start.is_none() && end.is_none() {
        return None;
    }
    let start = moment_or(FIRST_DATE, start)?;
    let end = moment_or(LAST_DATE, end)?;
    range_between(start, end)
}

/// The moment that a text spells, or another where there is no text.
fn moment_or(absent: i64, text: Option<&[u8]>) -> Option<i64>
    ensures { result ≡ spec.moment_or absent (option_map text_there text.entry) }
{
    match text {
        Some(text) => utc_of(text),
        None => Some(absent),
    }
}

/// Whether an element states no range.
pub(crate) fn is_bad_range(element: &Element) -> bool
    ensures { result ≡ spec.is_bad_range element.now }
{
    read_range(element).is_none()
}

/// The range of an element that states one.
pub(crate) fn stated(element: &Element) -> Range
    ensures { result ≡ spec.stated element.now }
{
    match read_range(element) {
        Some(range) => range,
        None => Range {
            start: Utc(FIRST_DATE),
            end: Utc(FIRST_DATE),
        },
    }
}

/// The range of an element, if there is one.
pub(crate) fn stated_if_some(element: Option<&Element>) -> Option<Range>
    ensures { result ≡ option_map spec.stated (option_copied element.entry) }
{
    match element {
        Some(element) => Some(stated(element)),
        None => None,
    }
}
