//! The texts of a calendar while settings are looked at: of each its name alone.
ghost use Rattle.std.specs.Prelude.{◌≡◌, IfOk, OnOk};
ghost use Rattle.std.specs.List.Sorted.{IsStrictlySortedBy};
ghost use Rattle.std.specs.Map.{keys_of};
ghost use Rattle.cal_model.specs.State.PropertyTexts.{Texts, prop_order, as_settings};
ghost use Rattle.cal_model.specs.Properties.Settings as settings;
ghost use Rattle.dav_props.specs.KeptTexts.{kept_names, names_after};

use crate::rows::is_text;
use crate::setting_names::key_of;
use cal_base::{NameMap, NoMemory};
use cal_model::{PropName, PropSet};
use std::alloc::Global;

/// The most texts that a calendar may have.
const TEXTS_LIMIT: usize = 64;

/// The names of those properties of a calendar that are texts.
pub(crate) fn kept_of(alloc: Global, texts: &[PropSet]) -> Result<NameMap<bool>, NoMemory>
    ensures { IfOk result (λ kept. (them : Texts) → IsStrictlySortedBy prop_order (keys_of them) → texts.now ≡ as_settings them → kept ≡ kept_names them) }
{
    let mut kept = NameMap::new(alloc);
    for behind in 0..texts.len() {
        keep(alloc, &texts[texts.len() - 1 - behind], &mut kept)?;
    }
    Ok(kept)
}

/// Carries a setting out on the names of the texts.
pub(crate) fn keep(alloc: Global, set: &PropSet, kept: &mut NameMap<bool>) -> Result<(), NoMemory>
    ensures { OnOk result (kept.new ≡ names_after kept.old set.now) }
{
    if !is_text(&set.name) {
        return Ok(());
    }
    let key = key_of(alloc, &set.name)?;
    match &set.value {
        Some(_) => kept.insert(key, true),
        None => {
            let _removed = kept.remove(key.as_slice());
            Ok(())
        }
    }
}

/// Whether a property would be one more text than a calendar may have.
pub(crate) fn is_one_too_many(
    alloc: Global,
    kept: &NameMap<bool>,
    name: &PropName,
) -> Result<bool, NoMemory>
    ensures { IfOk result (λ many. (texts : Texts) → kept.now ≡ kept_names texts → many ≡ settings.is_one_too_many texts name.now) }
{
    if kept.len() < TEXTS_LIMIT {
        return Ok(false);
    }
    if !is_text(name) {
        return Ok(false);
    }
    let key = key_of(alloc, name)?;
    match kept.get(key.as_slice()) {
        Some(_) => Ok(false),
        None => Ok(true),
    }
}
