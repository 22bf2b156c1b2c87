//! Which starts EXDATEs take away, and the ends of RDATE periods.
ghost use Rattle.std.specs.Prelude.{◌≡◌, ◌<◌, ◌∷◌, [], length, map, All, AllPairs, IfOk};
ghost use Rattle.std.specs.List.Sorted.{IsPermutation};
ghost use Rattle.cal_moment.specs.declared.stamp.Stamp.{Stamp};
ghost use Rattle.cal_model.specs.Instances.Alignment as alignment;
ghost use Rattle.cal_model.specs.Instances.Starts as spec;
ghost use Rattle.override_merge.specs.Conversions.{tables_of, HasZone, IsConvertible};
ghost use Rattle.override_merge.specs.NamedStarts.{IsNamesOf};
ghost use Rattle.rrule_sets.specs.PeriodSpans.{IsNotAfter, ends_at};

use cal_base::{List, NoMemory};
use cal_model::{Component, Kind, LocalTimes};
use cal_moment::Stamp;
use override_merge::names::{Names, names_of, put_name};
use override_merge::stamps::align;
use std::alloc::Global;

/// Whether a component has the starts of its rules, RDATEs and EXDATEs: it has DTSTART and is no
/// VFREEBUSY.
pub fn recurs(component: &Component) -> bool
    ensures { result ≡ spec.recurs component.now }
{
    match component.kind {
        Kind::FreeBusy => false,
        _ => component.start.is_some(),
    }
}

/// What EXDATEs name beside the start of their component.
pub fn exceptions(
    alloc: Global,
    zones: &[LocalTimes<'_>],
    stamp: Stamp,
    except: &[Stamp],
) -> Result<Names, NoMemory>
    requires stamp { HasZone (length zones.now) stamp }
    requires except { All (IsConvertible (length zones.now)) except.now }
    ensures { IfOk result (IsNamesOf (map (λ (x : Stamp). alignment.align (tables_of zones.now) x stamp) except.now)) }
{
    let mut values = List::new(alloc);
    let mut days = List::new(alloc);
    let mut rest = except;
    'except: while let Some((date, behind)) = rest.split_first() {
        put_name(align(zones, *date, stamp), &mut values, &mut days)?;
        rest = behind;
    }
    names_of(values, days)
}

/// Periods by their starts, then their ends.
pub fn spans_in_order(spans: List<(i64, i64)>) -> Result<List<(i64, i64)>, NoMemory>
    ensures rising { IfOk result (AllPairs IsNotAfter) }
    ensures same { IfOk result (λ sorted. IsPermutation spans sorted) }
{
    let mut items = spans.into_vec();
    match items.sort() {
        Ok(()) => Ok(List::from_vec(items)),
        Err(_) => Err(NoMemory),
    }
}

/// The end of a span, if it begins at a start, or that start.
fn end_at(span: (i64, i64), start: i64) -> i64
    ensures { result ≡ spec.latest_of start (ends_at start (span ∷ [])) }
{
    if span.0 == start { span.1 } else { start }
}

/// The latest end of the spans that begin at a start, or that start where there is none.
pub fn last_end(spans: &[(i64, i64)], start: i64) -> i64
    requires { AllPairs IsNotAfter spans.now }
    ensures { result ≡ spec.latest_of start (ends_at start spans.now) }
{
    let behind = spans.partition_point(|span| span.0 <= start);
    if behind > 0 {
        end_at(spans[behind - 1], start)
    } else {
        start
    }
}
