//! The first line that cannot stand (RFC 5545, 3.8): its value cannot be read or is too long, or its
//! property has come in the component before and may not come twice.
ghost use Rattle.std.specs.Prelude.{◌≡◌, ◌<◌, ◌^◌, [], length, None, IfOk, OnOk};
ghost use Rattle.cal_base.specs.Lines.ComponentTrees.{nesting_fault};
ghost use Rattle.cal_object.specs.OwnFaults as spec;
ghost use Rattle.cal_object.specs.Scan.{own_number};

use crate::marks::{is_begin, is_end};
use crate::property::Property;
use crate::seen_names::SeenNames;
use crate::value_tests::passes;
use cal_base::{Line, List, NoMemory, Stack};
use ical_values::ZoneNames;
use std::alloc::Global;

/// Whether a property has come in the innermost open component.
fn has_come(levels: &Stack<SeenNames>, property: Property) -> bool
    ensures { result ≡ spec.has_come levels.now property }
{
    match levels.at(0) {
        Some(seen) => seen.has(property),
        None => false,
    }
}

/// Whether a line cannot stand where these components are open.
fn fails(
    alloc: Global,
    zones: &ZoneNames,
    levels: &Stack<SeenNames>,
    line: &Line,
) -> Result<bool, NoMemory>
    requires { zones.now ≡ [] }
    ensures { IfOk result (λ bad. bad ≡ spec.fails levels.now line.now) }
{
    let Some(property) = Property::named(line.name.as_slice()) else {
        return Ok(false);
    };
    let good = passes(alloc, zones, property, line)?;
    Ok(!good || (!property.is_repeatable() && has_come(levels, property)))
}

/// Puts the property of a line into the innermost open component.
fn put_property(levels: &mut Stack<SeenNames>, line: &Line) -> Result<(), NoMemory>
    ensures { OnOk result (levels.new ≡ spec.come_with levels.old (spec.property_of line.now)) }
{
    let Some(property) = Property::named(line.name.as_slice()) else {
        return Ok(());
    };
    match levels.pop() {
        Some(seen) => levels.push(seen.with(property)),
        None => Ok(()),
    }
}

/// Goes over a line.
fn go_over(levels: &mut Stack<SeenNames>, line: &Line) -> Result<(), NoMemory>
    ensures { OnOk result (levels.new ≡ spec.come_behind levels.old line.now) }
{
    if is_begin(line) {
        return levels.push(SeenNames::none());
    }
    if is_end(line) {
        let _ = levels.pop();
        return Ok(());
    }
    put_property(levels, line)
}

/// The number of the first line that cannot stand, in whatever component. One pass: what has come is
/// kept for each open component.
pub fn first_own_fault(alloc: Global, lines: &[Line]) -> Result<Option<u32>, NoMemory>
    requires { length lines.now < 2 ^ 32 }
    ensures { IfOk result (λ number. nesting_fault lines.now ≡ None → number ≡ own_number lines.now) }
{
    let zones = ZoneNames::of(alloc, &List::new(alloc))?;
    first_failing(alloc, &zones, lines)
}

/// The number of the first line that fails, from a stack on which nothing is open.
fn first_failing(alloc: Global, zones: &ZoneNames, lines: &[Line]) -> Result<Option<u32>, NoMemory>
    requires few { length lines.now < 2 ^ 32 }
    requires none { zones.now ≡ [] }
    ensures { IfOk result (λ number. number ≡ spec.fails_from 0 [] lines.now) }
{
    let mut levels = Stack::new(alloc);
    let mut number = 0u32;
    let mut rest = lines;
    'lines: while let Some((line, behind)) = rest.split_first() {
        if fails(alloc, zones, &levels, line)? {
            return Ok(Some(number));
        }
        go_over(&mut levels, line)?;
        number += 1;
        rest = behind;
    }
    Ok(None)
}
