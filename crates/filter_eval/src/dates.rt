//! The dates of a component (RFC 4791, 9.7.2 and 9.9): which moment each is.

ghost use Rattle.std.specs.Prelude.{◌≡◌, IfOk, IfSome, All};
ghost use Rattle.cal_model.specs.Filters.DateProperties as spec;
ghost use Rattle.cal_model.specs.Objects.ZoneReading.{zone_names};
ghost use Rattle.cal_model.specs.Ranges.Overlap.{date_in};
ghost use Rattle.cal_model.specs.TimeZones.TableBounds.{IsTable};
ghost use Rattle.filter_eval.specs.Instants.{IsDated};

use crate::components::line_is;
use crate::stamps::{first_as_floating, first_of};
use cal_base::{Line, List, NoMemory, Octets};
use cal_model::ZoneTable;
use cal_moment::Stamp;
use ical_values::{ValueFault, ZoneNames, read_stamps, read_stamps_of_any_zone};
use std::alloc::Global;
use std::marker::Model;

/// How dates are read: the zones of an object with their names, and the zone of floating values.
/// Contracts see the two.
#[derive(Drop)]
pub struct Dates<'a> {
    names: ZoneNames,
    zones: &'a List<ZoneTable>,
    floating: &'a ZoneTable,
}

impl<'a> Model for Dates<'a> {
    ghost use Rattle.std.specs.Prelude.{◌≡◌, All};
    ghost use Rattle.cal_model.specs.Filters.DateProperties.{DateReading};
    ghost use Rattle.cal_model.specs.Objects.ZoneReading.{zone_names};
    ghost use Rattle.cal_model.specs.TimeZones.TableBounds.{IsTable};

    ghost Value = { DateReading };

    ghost view = { λ d. record { zones = d.zones.now; floating = d.floating.now } };

    ghost invariant = { λ d. (d.names ≡ zone_names d.zones.now) × (All IsTable d.zones.now) × IsTable d.floating.now };
}

impl<'a> Dates<'a> {
    /// The reading of the dates of an object. More zones than there are numbers find no memory.
    pub fn of(
        alloc: Global,
        zones: &'a List<ZoneTable>,
        floating: &'a ZoneTable,
    ) -> Result<Dates<'a>, NoMemory>
        requires zones { All IsTable zones.now }
        requires floating { IsTable floating.now }
        ensures { IfOk result (λ dates. dates ≡ record { zones = zones.now; floating = floating.now }) }
    {
        if zones.len() > u32::MAX as usize {
            return Err(NoMemory);
        }
        let names = names_of(alloc, zones.as_slice())?;
        match ZoneNames::of(alloc, &names) {
            Ok(names) => Ok(Dates {
                names,
                zones,
                floating,
            }),
            Err(fault) => Err(fault),
        }
    }

    /// The one stamp of a line; none where its text is none or it names a zone that the object lacks.
    fn own_stamp(&self, alloc: Global, line: &Line) -> Result<Option<Stamp>, NoMemory>
        ensures stamp { IfOk result (λ stamp. stamp ≡ spec.own_stamp self.now line.now) }
        ensures dated { IfOk result (λ stamp. IfSome stamp IsDated) }
    {
        match read_stamps(alloc, line, &self.names) {
            Ok(stamps) => Ok(first_of(stamps.as_slice())),
            Err(ValueFault::Bad { .. }) => Ok(None),
            Err(ValueFault::NoMemory) => Err(NoMemory),
        }
    }

    /// The same by its local digits alone, whatever zone it names.
    fn local_stamp(&self, alloc: Global, line: &Line) -> Result<Option<Stamp>, NoMemory>
        ensures stamp { IfOk result (λ stamp. stamp ≡ spec.local_stamp self.now line.now) }
        ensures dated { IfOk result (λ stamp. IfSome stamp IsDated) }
    {
        match read_stamps_of_any_zone(alloc, line, &self.names) {
            Ok(stamps) => Ok(first_as_floating(stamps.as_slice())),
            Err(ValueFault::Bad { .. }) => Ok(None),
            Err(ValueFault::NoMemory) => Err(NoMemory),
        }
    }

    /// The stamp of a date property, in a VTIMEZONE or elsewhere.
    pub fn stamp(
        &self,
        alloc: Global,
        in_timezone: bool,
        line: &Line,
    ) -> Result<Option<Stamp>, NoMemory>
        ensures stamp { IfOk result (λ stamp. stamp ≡ spec.stamp_of_date self.now in_timezone line.now) }
        ensures dated { IfOk result (λ stamp. IfSome stamp IsDated) }
    {
        if in_timezone && line_is(line, b"DTSTART") {
            self.local_stamp(alloc, line)
        } else {
            self.own_stamp(alloc, line)
        }
    }

    /// The moment of a stamp, in seconds since 1970.
    pub fn moment(&self, stamp: Stamp) -> i64
        ensures { result ≡ date_in self.now.zones self.now.floating stamp }
    {
        overlap_rules::date_in(self.zones, self.floating, stamp)
    }

    /// The zones of the object.
    pub fn zones(&self) -> &'a List<ZoneTable>
        ensures zones { result.now ≡ self.now.zones }
        ensures tables { All IsTable result.now }
    {
        self.zones
    }

    /// The zone of floating values.
    pub fn floating(&self) -> &'a ZoneTable
        ensures zone { result.now ≡ self.now.floating }
        ensures table { IsTable result.now }
    {
        self.floating
    }
}

/// The names of some zones.
fn names_of(alloc: Global, zones: &[ZoneTable]) -> Result<List<Octets>, NoMemory>
    ensures { IfOk result (λ names. names ≡ zone_names zones.now) }
{
    let mut names = List::new(alloc);
    names.reserve(zones.len())?;
    'zones: for zone in zones {
        names.push(Octets::of(alloc, zone.name.as_slice())?)?;
    }
    Ok(names)
}
