//! The time zone of a calendar as settings change it (RFC 4791, 5.2.2).
ghost use Rattle.std.specs.Prelude.{◌≡◌, ◌<◌, ◌^◌, length, Some, None, IfOk, IfSome, if◌then◌else◌, option_map};
ghost use Rattle.std.specs.Option.{option_copied};
ghost use Rattle.std.specs.Result.{result_ok};
ghost use Rattle.cal_base.specs.Lines.ComponentTrees.{or_else};
ghost use Rattle.cal_model.specs.Objects.ObjectReading.{read_zone as zone_read};
ghost use Rattle.collections.specs.Settings.{is_zone, last_zone, zone_set, IsShort};

use crate::settings::is_caldav_name;
use cal_base::NoMemory;
use cal_model::{PropSet, ZoneTable};
use cal_object::{ReadFault, read_zone};
use std::alloc::Global;

/// Whether a setting sets the time zone.
#[tactic(auto, using(crate::proofs::SettingLemmas::zone_by_name))]
fn sets_zone(set: &PropSet) -> bool
    ensures { result ≡ is_zone set.now }
{
    is_caldav_name(&set.name, b"calendar-timezone")
}

/// A setting, where it sets the time zone, or else the last one that did.
fn later<'a>(last: Option<&'a PropSet>, set: &'a PropSet) -> Option<&'a PropSet>
    ensures { option_copied result ≡ or_else (if is_zone set.now then Some set.now else None) (option_copied last.entry) }
{
    if sets_zone(set) { Some(set) } else { last }
}

/// The last setting of the time zone.
fn last_setting(sets: &[PropSet]) -> Option<&PropSet>
    ensures { option_copied result ≡ last_zone sets.now }
{
    let mut last = None;
    for set in sets {
        last = later(last, set);
    }
    last
}

/// The zone that a text reads as, if it is one.
fn zone_of(alloc: Global, text: &[u8]) -> Result<Option<ZoneTable>, NoMemory>
    requires few { length text.now < 2 ^ 32 }
    ensures { IfOk result (λ zone. zone ≡ result_ok (zone_read text.now)) }
{
    match read_zone(alloc, text) {
        Ok(zone) => Ok(Some(zone)),
        Err(ReadFault::NoMemory) => Err(NoMemory),
        Err(_) => Ok(None),
    }
}

/// The zone that a setting gives.
fn zone_of_setting(alloc: Global, set: &PropSet) -> Result<Option<ZoneTable>, NoMemory>
    requires short { IsShort set.now }
    ensures { IfOk result (λ zone. zone ≡ zone_set set.now) }
{
    match &set.value {
        Some(text) => zone_of(alloc, text.as_slice()),
        None => Ok(None),
    }
}

/// What settings make of the zone, where they set it.
pub(crate) fn zone_behind(
    alloc: Global,
    sets: &[PropSet],
) -> Result<Option<Option<ZoneTable>>, NoMemory>
    requires short { IfSome (last_zone sets.now) IsShort }
    ensures { IfOk result (λ zone. zone ≡ option_map zone_set (last_zone sets.now)) }
{
    match last_setting(sets) {
        Some(set) => Ok(Some(zone_of_setting(alloc, set)?)),
        None => Ok(None),
    }
}
