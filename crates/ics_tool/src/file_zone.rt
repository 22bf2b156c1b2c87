//! The zone in which floating times and dates of a file are read.
ghost use Rattle.std.specs.Prelude.{◌≡◌, ◌<◌, ◌^◌, length, IfErr, IfOk, IfSome};
ghost use Rattle.cal_base.specs.Texts.LentTexts.{text_there};
ghost use Rattle.cal_model.specs.Instances.Alignment.{utc_zone};
ghost use Rattle.cal_model.specs.TimeZones.TableBounds.{IsTable};
ghost use Rattle.cal_object.specs.Faults.{IsFaultOf};
ghost use Rattle.ics_tool.specs.Listings.{zone_read};

use cal_base::{Octets, SharedList};
use cal_model::ZoneTable;
use cal_object::{ReadFault, read_zone};
use std::alloc::Global;

/// The clock of UTC.
fn utc(alloc: Global) -> ZoneTable
    ensures value { result ≡ utc_zone }
    ensures table { IsTable result }
{
    ZoneTable {
        name: Octets::new(alloc),
        before: 0,
        onsets: SharedList::new(),
    }
}

/// The zone that a text is, or UTC where there is no text.
pub(crate) fn zone_of(alloc: Global, text: Option<&[u8]>) -> Result<ZoneTable, ReadFault>
    requires { IfSome text (λ octets. length octets.now < 2 ^ 32) }
    ensures zone { IfOk result (λ zone. zone_read (text_there text.entry) ≡ Ok zone) }
    ensures table { IfOk result IsTable }
    ensures fault { IfErr result (IsFaultOf (zone_read (text_there text.entry))) }
{
    match text {
        Some(octets) => read_zone(alloc, octets),
        None => Ok(utc(alloc)),
    }
}
