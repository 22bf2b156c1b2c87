//! The data of a calendar: settings carried out in it, and its copies.
ghost use Rattle.std.specs.Prelude.{◌≡◌, IfOk, IfSome, OnOk, OnErr};
ghost use Rattle.collections.specs.Settings.{last_zone, IsShort, HasSet};

use crate::kinds::kinds_behind;
use crate::settings::set_texts;
use crate::zone::zone_behind;
use cal_base::{Arc, Copies, List, NoMemory, Octets, SharedList};
use cal_model::{Acl, CalendarData, Grant, PropSet, ZoneTable};
use std::alloc::Global;

/// Puts a zone, or none, in the place of another.
fn replace_zone(kept: &mut Option<ZoneTable>, zone: Option<ZoneTable>)
    ensures { kept.new ≡ zone }
{
    *kept = zone;
}

/// Sets and removes properties, in order. Without memory all stays as it was.
pub(crate) fn set_data(
    alloc: Global,
    kept: &mut CalendarData,
    sets: &[PropSet],
) -> Result<(), NoMemory>
    requires short { IfSome (last_zone sets.now) IsShort }
    ensures ok { OnOk result (HasSet kept.old sets.now kept.new) }
    ensures err { OnErr result (kept.new ≡ kept.old) }
{
    let zone = zone_behind(alloc, sets)?;
    set_texts(alloc, &mut kept.texts, sets)?;
    kept.kinds = kinds_behind(kept.kinds, sets);
    if let Some(zone) = zone {
        replace_zone(&mut kept.zone, zone);
    }
    Ok(())
}

/// A copy of a zone, which shares its onsets, if there is one.
fn copy_zone(alloc: Global, zone: &Option<ZoneTable>) -> Result<Option<ZoneTable>, NoMemory>
    ensures { IfOk result (λ copy. copy ≡ zone.now) }
{
    match zone {
        Some(zone) => {
            let name = Octets::of(alloc, zone.name.as_slice())?;
            let onsets = SharedList::try_clone(&zone.onsets)?;
            Ok(Some(ZoneTable {
                name,
                before: zone.before,
                onsets,
            }))
        }
        None => Ok(None),
    }
}

/// A copy of the data.
fn copy_data(alloc: Global, kept: &CalendarData) -> Result<CalendarData, NoMemory>
    ensures { IfOk result (λ copy. copy ≡ kept.now) }
{
    let grants = List::of(alloc, kept.acl.grants.as_slice())?;
    let zone = copy_zone(alloc, &kept.zone)?;
    let texts = kept.texts.copied(alloc)?;
    Ok(CalendarData {
        owner: kept.owner,
        acl: Acl { grants },
        kinds: kept.kinds,
        zone,
        texts,
    })
}

/// A copy of the data with properties set and removed, in order.
pub(crate) fn data_with_sets(
    alloc: Global,
    kept: &CalendarData,
    sets: &[PropSet],
) -> Result<Arc<CalendarData>, NoMemory>
    requires short { IfSome (last_zone sets.now) IsShort }
    ensures { IfOk result (λ new. HasSet kept.now sets.now new) }
{
    let mut copy = copy_data(alloc, kept)?;
    match set_data(alloc, &mut copy, sets) {
        Ok(()) => Arc::new(alloc, copy),
        Err(NoMemory) => Err(NoMemory),
    }
}

/// A copy of the data with other grants.
pub(crate) fn data_with_grants(
    alloc: Global,
    kept: &CalendarData,
    grants: &[Grant],
) -> Result<Arc<CalendarData>, NoMemory>
    ensures { IfOk result (λ new. new ≡ record kept.now { acl = record { grants = grants.now } }) }
{
    let grants = List::of(alloc, grants)?;
    let mut copy = copy_data(alloc, kept)?;
    copy.acl = Acl { grants };
    Arc::new(alloc, copy)
}
