//! The ranges that a report names (RFC 4791, 9.6 and 9.9).
ghost use Rattle.std.specs.Prelude.{◌≡◌, ◌++◌, IfOk, OnOk, flat_map, option_to_list};
ghost use Rattle.cal_model.specs.declared.filter.PropFilter.{PropFilter as PropFilterSpec};
ghost use Rattle.cal_model.specs.Reports.NamedRanges as spec;

use cal_base::{List, NoMemory};
use cal_model::{CompFilter, PropFilter, PropTest, Range, Recur, Selection};
use std::alloc::Global;

/// Puts a range behind others, where there is one.
fn put_some(range: Option<Range>, out: &mut List<Range>) -> Result<(), NoMemory>
    ensures { OnOk result (out.new ≡ out.old ++ option_to_list range) }
{
    match range {
        Some(range) => out.push(range),
        None => Ok(()),
    }
}

/// The range of a test of a property.
fn range_of_test(test: &PropTest) -> Option<Range>
    ensures { option_to_list result ≡ spec.ranges_of_test test.now }
{
    match test {
        PropTest::Time(range) => Some(*range),
        _ => None,
    }
}

/// Puts the ranges of tests of properties behind others.
fn put_ranges_of_props(props: &[PropFilter], out: &mut List<Range>) -> Result<(), NoMemory>
    ensures { OnOk result (out.new ≡ out.old ++ flat_map (λ (p : PropFilterSpec). spec.ranges_of_test p.test) props.now) }
{
    let mut rest = props;
    'props: while let Some((prop, behind)) = rest.split_first() {
        put_some(range_of_test(&prop.test), out)?;
        rest = behind;
    }
    Ok(())
}

/// Puts the ranges of a test of components behind others: its own, those of its properties, and those
/// of the components in it.
fn put_ranges_of_comp(filter: &CompFilter, out: &mut List<Range>) -> Result<(), NoMemory>
    ensures { OnOk result (out.new ≡ out.old ++ spec.ranges_of_filter filter.now) }
{
    put_some(filter.time, out)?;
    put_ranges_of_props(filter.props.as_slice(), out)?;
    'comps: for comp in filter.comps.as_slice() {
        put_ranges_of_comp(comp, out)?;
    }
    Ok(())
}

/// The range over which recurrence is expanded or limited.
fn range_of_recur(recur: Recur) -> Option<Range>
    ensures { option_to_list result ≡ spec.ranges_of_recur recur }
{
    match recur {
        Recur::Whole => None,
        Recur::Expand(range) => Some(range),
        Recur::Limit(range) => Some(range),
    }
}

/// The ranges of a selection.
pub(crate) fn ranges_of_selection(
    alloc: Global,
    select: &Selection,
) -> Result<List<Range>, NoMemory>
    ensures { IfOk result (λ ranges. ranges ≡ spec.ranges_of_selection select.now) }
{
    let mut ranges = List::new(alloc);
    put_some(range_of_recur(select.recur), &mut ranges)?;
    put_some(select.busy, &mut ranges)?;
    Ok(ranges)
}

/// The ranges of a query: those of its selection, then those of its filter.
pub(crate) fn ranges_of_query(
    alloc: Global,
    select: &Selection,
    top: &CompFilter,
) -> Result<List<Range>, NoMemory>
    ensures { IfOk result (λ ranges. ranges ≡ spec.ranges_of_selection select.now ++ spec.ranges_of_filter top.now) }
{
    let mut ranges = ranges_of_selection(alloc, select)?;
    put_ranges_of_comp(top, &mut ranges)?;
    Ok(ranges)
}
