//! Ranges of a report that leave the dates that are served (RFC 4791, 5.2.6, 5.2.7 and 7.8).
ghost use Rattle.std.specs.Prelude.{◌≡◌, option_map, option_to_list};
ghost use Rattle.cal_model.specs.Refusals.ReportRefusals.{range_refusal};
ghost use Rattle.cal_model.specs.Reports.NamedRanges as spec;
ghost use Rattle.dav_reports.specs.RangeDates.{IsFirst, own_ranges, ranges_of_props, refusal_of};

use cal_model::{
    CompFilter, FIRST_DATE, LAST_DATE, PropFilter, PropTest, Range, Recur, ReportRequest, Selection,
};

/// Where a range leaves the dates that are served.
#[derive(Clone, Copy)]
pub(crate) enum Outside {
    /// It starts before the first.
    Before,
    /// It starts no earlier and ends behind the last.
    Behind,
}

/// Where a range leaves the dates.
fn in_range(range: Range) -> Option<Outside>
    ensures { option_map refusal_of result ≡ range_refusal range }
{
    if range.start.0 < FIRST_DATE {
        Some(Outside::Before)
    } else if range.end.0 > LAST_DATE {
        Some(Outside::Behind)
    } else {
        None
    }
}

/// Where a range does, if there is one.
fn in_time(time: Option<Range>) -> Option<Outside>
    ensures { IsFirst (option_to_list time) result }
{
    match time {
        Some(range) => in_range(range),
        None => None,
    }
}

/// Where the range of a test of a property does.
fn in_test(test: &PropTest) -> Option<Outside>
    ensures { IsFirst (spec.ranges_of_test test.now) result }
{
    match test {
        PropTest::Time(range) => in_range(*range),
        _ => None,
    }
}

/// Where the first of the ranges of some prop-filters does.
fn in_props(filters: &[PropFilter]) -> Option<Outside>
    ensures { IsFirst (ranges_of_props filters.now) result }
{
    'filters: for filter in filters {
        if let Some(found) = in_test(&filter.test) {
            return Some(found);
        }
    }
    None
}

/// Where the ranges of a comp-filter do, those of the comp-filters in it aside.
fn in_own(filter: &CompFilter) -> Option<Outside>
    ensures { IsFirst (own_ranges filter.now) result }
{
    match in_time(filter.time) {
        Some(found) => Some(found),
        None => in_props(filter.props.as_slice()),
    }
}

/// Where the first of the ranges of a comp-filter does.
fn in_filter(filter: &CompFilter) -> Option<Outside>
    ensures { IsFirst (spec.ranges_of_filter filter.now) result }
{
    if let Some(found) = in_own(filter) {
        return Some(found);
    }
    'comps: for inner in filter.comps.as_slice() {
        if let Some(found) = in_filter(inner) {
            return Some(found);
        }
    }
    None
}

/// Where the range of instances does.
fn in_recur(recur: Recur) -> Option<Outside>
    ensures { IsFirst (spec.ranges_of_recur recur) result }
{
    match recur {
        Recur::Whole => None,
        Recur::Expand(range) => in_range(range),
        Recur::Limit(range) => in_range(range),
    }
}

/// Where the first of the ranges of a selection does.
fn in_selection(select: &Selection) -> Option<Outside>
    ensures { IsFirst (spec.ranges_of_selection select.now) result }
{
    match in_recur(select.recur) {
        Some(found) => Some(found),
        None => in_time(select.busy),
    }
}

/// Where the first of the ranges that a report names leaves the dates that are served; none where no
/// range does. The ranges of what it selects come before those of its filter.
pub(crate) fn first_outside(request: &ReportRequest) -> Option<Outside>
    ensures { IsFirst (spec.ranges_named request.now) result }
{
    match request {
        ReportRequest::Query { select, filter, .. } => match in_selection(select) {
            Some(found) => Some(found),
            None => in_filter(&filter.top),
        },
        ReportRequest::Multiget { select, .. } => in_selection(select),
        ReportRequest::FreeBusy { range } => in_range(*range),
    }
}
