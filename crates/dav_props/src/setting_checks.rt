//! Whether settings are refused, with the replies (RFC 4918, 9.2; RFC 4791, 5.3.1).
ghost use Rattle.std.specs.Prelude.{◌≡◌, [], IfOk, OnOk, option_map, false};
ghost use Rattle.std.specs.List.Sorted.{IsStrictlySortedBy};
ghost use Rattle.std.specs.Map.{keys_of};
ghost use Rattle.cal_model.specs.State.PropertyTexts.{Texts, prop_order, as_settings};
ghost use Rattle.cal_model.specs.Properties.Settings.{setting_fault, faults_of_all, first_fault};
ghost use Rattle.dav_props.specs.KeptTexts.{kept_names, marked_by, marks};
ghost use Rattle.dav_props.specs.SettingFaults.{refusal_of};
ghost use Rattle.dav_props.specs.SettingChecks.{IsPatchChecked, IsMakeChecked, texts_passed};

use crate::kept_texts::{keep, kept_of};
use crate::setting_faults::{Fault, fault_of};
use crate::setting_names::key_of;
use crate::setting_replies::{fault_reply, settings_reply};
use cal_base::{NameMap, NoMemory};
use cal_model::{CalendarData, Path, PropSet, Reply, bare_reply};
use std::alloc::Global;

/// What becomes of settings, with the reply to them.
#[derive(Drop)]
pub enum PatchCheck {
    /// None is refused. The reply is that to the request once it is accepted.
    Fine(Reply),
    /// Some are refused, with this reply, and none is to be made.
    Refused(Reply),
    /// There was no memory to look at them.
    NoMemory,
}

/// Looks at the settings of a PROPPATCH of a calendar (RFC 4918, 9.2). Where some are refused their
/// properties have 403 and all others 424; else each has 200. The time is that of putting the
/// settings' names in order. The calendar's texts have to stand in order, as a store keeps them.
pub fn check_patch(
    alloc: Global,
    path: &Path,
    sets: &[PropSet],
    calendar: &CalendarData,
) -> PatchCheck
    ensures checked { (texts : Texts) → IsStrictlySortedBy prop_order (keys_of texts) → calendar.now.texts ≡ as_settings texts → IsPatchChecked path.now texts sets.now result }
{
    match patch_checked(alloc, path, sets, calendar.texts.as_slice()) {
        Ok(check) => check,
        Err(NoMemory) => PatchCheck::NoMemory,
    }
}

fn patch_checked(
    alloc: Global,
    path: &Path,
    sets: &[PropSet],
    texts: &[PropSet],
) -> Result<PatchCheck, NoMemory>
    ensures { IfOk result (λ check. (them : Texts) → IsStrictlySortedBy prop_order (keys_of them) → texts.now ≡ as_settings them → IsPatchChecked path.now them sets.now check) }
{
    let mut kept = kept_of(alloc, texts)?;
    let refused = refused_in(alloc, sets, &mut kept)?;
    told(alloc, path, sets, &refused)
}

/// What becomes of settings, by the names of the properties that are refused.
fn told(
    alloc: Global,
    path: &Path,
    sets: &[PropSet],
    refused: &NameMap<bool>,
) -> Result<PatchCheck, NoMemory>
    ensures { IfOk result (λ check. (texts : Texts) → refused.now ≡ marks [] (faults_of_all false texts sets.now) → IsPatchChecked path.now texts sets.now check) }
{
    if refused.len() == 0 {
        let reply = settings_reply(alloc, path, sets, refused, 200)?;
        return Ok(PatchCheck::Fine(reply));
    }
    let reply = settings_reply(alloc, path, sets, refused, 424)?;
    Ok(PatchCheck::Refused(reply))
}

/// The names of the properties that are refused, some setting of which has a fault.
fn refused_in(
    alloc: Global,
    sets: &[PropSet],
    kept: &mut NameMap<bool>,
) -> Result<NameMap<bool>, NoMemory>
    ensures { IfOk result (λ refused. (texts : Texts) → IsStrictlySortedBy prop_order (keys_of texts) → kept.old ≡ kept_names texts → refused ≡ marks [] (faults_of_all false texts sets.now)) }
{
    let mut refused = NameMap::new(alloc);
    for set in sets {
        look_at(alloc, set, kept, &mut refused)?;
    }
    Ok(refused)
}

/// Puts the name of a setting with a fault among those that are refused, and carries another one out.
fn look_at(
    alloc: Global,
    set: &PropSet,
    kept: &mut NameMap<bool>,
    refused: &mut NameMap<bool>,
) -> Result<(), NoMemory>
    ensures kept { OnOk result ((texts : Texts) → IsStrictlySortedBy prop_order (keys_of texts) → kept.old ≡ kept_names texts → kept.new ≡ kept_names (texts_passed false texts set.now)) }
    ensures refused { OnOk result ((texts : Texts) → kept.old ≡ kept_names texts → refused.new ≡ marked_by refused.old set.now.name (setting_fault false texts set.now)) }
{
    match fault_of(alloc, false, kept, set)? {
        Some(_) => refused.insert(key_of(alloc, &set.name)?, true),
        None => keep(alloc, set, kept),
    }
}

/// Looks at the settings of a MKCALENDAR (RFC 4791, 5.3.1). The first that is refused is told.
pub fn check_make(alloc: Global, sets: &[PropSet]) -> PatchCheck
    ensures checked { IsMakeChecked sets.now result }
{
    match make_checked(alloc, sets) {
        Ok(check) => check,
        Err(NoMemory) => PatchCheck::NoMemory,
    }
}

fn make_checked(alloc: Global, sets: &[PropSet]) -> Result<PatchCheck, NoMemory>
    ensures { IfOk result (λ check. IsMakeChecked sets.now check) }
{
    let mut kept = NameMap::new(alloc);
    match first_fault_in(alloc, sets, &mut kept)? {
        Some(fault) => Ok(PatchCheck::Refused(fault_reply(alloc, fault)?)),
        None => Ok(PatchCheck::Fine(bare_reply(alloc, 201))),
    }
}

/// The first fault of settings of a calendar that is made, beside the texts that those before it
/// leave.
fn first_fault_in(
    alloc: Global,
    sets: &[PropSet],
    kept: &mut NameMap<bool>,
) -> Result<Option<Fault>, NoMemory>
    ensures { kept.old ≡ [] → IfOk result (λ fault. option_map refusal_of fault ≡ first_fault sets.now) }
{
    for set in sets {
        let fault = fault_of(alloc, true, kept, set)?;
        if fault.is_some() {
            return Ok(fault);
        }
        keep(alloc, set, kept)?;
    }
    Ok(None)
}
