//! How busy a component makes its owner (RFC 5545, 3.8.1.11, 3.8.2.6 and 3.8.2.7).
ghost use Rattle.std.specs.Prelude.{◌≡◌, ◌++◌, List, Option, codes, map, OnOk, IfOk};
ghost use Rattle.cal_moment.specs.declared.stamp.Period.{Period};
ghost use Rattle.cal_model.specs.declared.object.Class.{Class};
ghost use Rattle.cal_model.specs.Objects.ComponentReading as spec;
ghost use Rattle.cal_model.specs.Objects.LineValues.{periods_in};
ghost use Rattle.cal_object.specs.Classes.{with_class, busy_periods_in};

use crate::dates::periods_in;
use crate::named::has_name;
use cal_base::{Line, List, NoMemory, is_word};
use cal_model::{Class, Kind};
use cal_moment::Period;
use ical_values::{ZoneNames, one_of, read_busy_type};
use std::alloc::Global;

/// Whether the first line of a name says a word, which is upper case, without ASCII case.
fn says(lines: &[Line], name: &[u8], word: &[u8]) -> bool
    ensures { result ≡ spec.says name.now word.now lines.now }
{
    match one_of(lines, name) {
        Some(line) => is_word(line.value.as_slice(), word),
        None => false,
    }
}

/// The class of the instances of a VEVENT: none where it is transparent or cancelled.
fn event_busy(lines: &[Line]) -> Option<Class>
    ensures { result ≡ spec.busy_of Kind.Event lines.now }
{
    if says(lines, b"TRANSP", b"TRANSPARENT") || says(lines, b"STATUS", b"CANCELLED") {
        None
    } else if says(lines, b"STATUS", b"TENTATIVE") {
        Some(Class::Tentative)
    } else {
        Some(Class::Busy)
    }
}

/// The class of the instances of a component: the kinds other than VEVENT are free.
pub fn busy_of(kind: Kind, lines: &[Line]) -> Option<Class>
    ensures { result ≡ spec.busy_of kind lines.now }
{
    match kind {
        Kind::Event => event_busy(lines),
        Kind::Todo | Kind::Journal | Kind::FreeBusy => None,
    }
}

/// Adds periods of one class to others.
#[tactic(auto, using(crate::proofs::NamedLists::map_more))]
fn add_with_class(
    class: Option<Class>,
    periods: &[Period],
    busy: &mut List<(Option<Class>, Period)>,
) -> Result<(), NoMemory>
    ensures { OnOk result (busy.new ≡ busy.old ++ map (with_class class) periods.now) }
{
    'periods: for period in periods {
        busy.push((class, *period))?;
    }
    Ok(())
}

/// Adds the periods of a FREEBUSY with their class to those of others.
fn add_busy(
    alloc: Global,
    zones: &ZoneNames,
    line: &Line,
    busy: &mut List<(Option<Class>, Period)>,
) -> Result<(), NoMemory>
    ensures { OnOk result (busy.new ≡ busy.old ++ busy_periods_in zones.now line.now) }
{
    let periods = periods_in(alloc, zones, line)?;
    add_with_class(read_busy_type(line), periods.as_slice(), busy)
}

/// The periods of all FREEBUSY lines in order, each with its class; one without a class is free.
#[tactic(auto, using(crate::proofs::NamedLists::more_named, crate::proofs::NamedLists::same_named))]
pub fn stored_busy_of(
    alloc: Global,
    zones: &ZoneNames,
    lines: &[Line],
) -> Result<List<(Option<Class>, Period)>, NoMemory>
    ensures { IfOk result (λ busy. busy ≡ spec.stored_busy_of zones.now lines.now) }
{
    let mut busy = List::new(alloc);
    'lines: for line in lines {
        if has_name(line, b"FREEBUSY") {
            add_busy(alloc, zones, line, &mut busy)?;
        }
    }
    Ok(busy)
}
