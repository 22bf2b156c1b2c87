//! The zone in which a report reads floating times (RFC 4791, 5.2.2, 7.3 and 9.8).
ghost use Rattle.std.specs.Prelude.{◌≡◌, unwrap_or};
ghost use Rattle.cal_base.specs.Lines.ComponentTrees.{or_else};
ghost use Rattle.cal_model.specs.Instances.Alignment.{utc_zone};
ghost use Rattle.cal_model.specs.TimeZones.TableBounds.{IsTable};

use cal_base::{Octets, SharedList};
use cal_model::{CalendarData, ZoneTable};
use std::alloc::Global;

/// The clock of UTC.
pub(crate) fn utc(alloc: Global) -> ZoneTable
    ensures value { result ≡ utc_zone }
    ensures table { IsTable result }
{
    ZoneTable {
        name: Octets::new(alloc),
        before: 0,
        onsets: SharedList::new(),
    }
}

/// The zone of a calendar, or another where it has none.
pub(crate) fn zone_or<'a>(kept: &'a CalendarData, other: &'a ZoneTable) -> &'a ZoneTable
    ensures { result.now ≡ unwrap_or kept.now.zone other.now }
{
    match &kept.zone {
        Some(zone) => zone,
        None => other,
    }
}

/// The zone of a report, or else that of a calendar, or another where neither has one.
pub(crate) fn report_zone<'a>(
    own: &'a Option<ZoneTable>,
    kept: &'a CalendarData,
    other: &'a ZoneTable,
) -> &'a ZoneTable
    ensures { result.now ≡ unwrap_or (or_else own.now kept.now.zone) other.now }
{
    match own {
        Some(table) => table,
        None => zone_or(kept, other),
    }
}
