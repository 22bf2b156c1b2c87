//! Dates in a zone that is not there (RFC 4791, 4.1).
ghost use Rattle.std.specs.Prelude.{◌≡◌, not, IfOk};
ghost use Rattle.std.specs.List.{list_any};
ghost use Rattle.cal_model.specs.Objects.ResourceFaults as faults;
ghost use Rattle.cal_model.specs.Values.StampTexts.{is_known};
ghost use Rattle.cal_object.specs.KindNodes as spec;

use crate::kinds::is_kind;
use crate::outside::dated_stamps;
use cal_base::{Line, NoMemory, Node};
use cal_moment::Stamp;
use ical_values::ZoneNames;
use std::alloc::Global;

/// Whether the zone of a stamp, if it has one, is none of these.
fn is_unknown(names: &ZoneNames, stamp: Stamp) -> bool
    ensures { result ≡ not (is_known names.now stamp) }
{
    match stamp {
        Stamp::Zoned(_, number) => names.len() <= number,
        Stamp::Date(_) | Stamp::Floating(_) | Stamp::Utc(_) => false,
    }
}

/// Whether the zone of one of some stamps is none of these.
fn has_unknown(names: &ZoneNames, stamps: &[Stamp]) -> bool
    ensures { result ≡ list_any (λ stamp. not (is_known names.now stamp)) stamps.now }
{
    stamps.iter().any(|stamp| is_unknown(names, *stamp))
}

/// Whether a date of some lines is in a zone that is none of these.
fn lacks_zone(alloc: Global, names: &ZoneNames, lines: &[Line]) -> Result<bool, NoMemory>
    ensures { IfOk result (λ lacks. lacks ≡ faults.lacks_zone names.now lines.now) }
{
    let mut rest = lines;
    'lines: while let Some((line, behind)) = rest.split_first() {
        let stamps = dated_stamps(alloc, names, line)?;
        if has_unknown(names, stamps.as_slice()) {
            return Ok(true);
        }
        rest = behind;
    }
    Ok(false)
}

/// Whether a component is of the four kinds and has a date in a zone that is none of these.
fn kind_lacks_zone(alloc: Global, names: &ZoneNames, node: &Node) -> Result<bool, NoMemory>
    ensures { IfOk result (λ lacks. lacks ≡ spec.kind_has (faults.lacks_zone names.now) node.now) }
{
    if is_kind(node) {
        lacks_zone(alloc, names, node.lines.as_slice())
    } else {
        Ok(false)
    }
}

/// Whether a component of the four kinds has a date in a zone that is none of these. A TZID that no
/// date needs does not count.
pub(crate) fn has_missing_zone(
    alloc: Global,
    names: &ZoneNames,
    nodes: &[Node],
) -> Result<bool, NoMemory>
    ensures { IfOk result (λ missing. missing ≡ spec.some_kind (faults.lacks_zone names.now) nodes.now) }
{
    let mut rest = nodes;
    'nodes: while let Some((node, behind)) = rest.split_first() {
        if kind_lacks_zone(alloc, names, node)? {
            return Ok(true);
        }
        rest = behind;
    }
    Ok(false)
}
