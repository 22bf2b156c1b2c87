//! The zones of an object at hand for many conversions (RFC 5545, 3.3.5 and 3.6.5).
ghost use Rattle.std.specs.Prelude.{◌≡◌, All, IfOk};
ghost use Rattle.cal_model.specs.TimeZones.TableBounds.{IsTable};
ghost use Rattle.cal_model.specs.Conversions.ZonesAtHand.{tables_of};

use crate::local_times::LocalTimes;
use crate::zone::ZoneTable;
use cal_base::{List, NoMemory};
use std::alloc::Global;

/// The local times of zones, in their order.
pub fn local_times_of<'a>(
    alloc: Global,
    tables: &'a [ZoneTable],
) -> Result<List<LocalTimes<'a>>, NoMemory>
    requires { All IsTable tables.now }
    ensures { IfOk result (λ zones. tables_of zones ≡ tables.now) }
{
    let mut zones = List::new(alloc);
    let mut rest = tables;
    'tables: while let Some((table, behind)) = rest.split_first() {
        zones.push(LocalTimes::of(alloc, table)?)?;
        rest = behind;
    }
    Ok(zones)
}
