//! Why a setting is refused (RFC 4918, 9.2; RFC 4791, 5.2 and 5.3.1).
ghost use Rattle.std.specs.Prelude.{◌≡◌, ◌<◌, ◌^◌, ◌||◌, ◌==◌, not, nat_lt, length, if◌then◌else◌, IfOk, option_map, is_ok};
ghost use Rattle.cal_model.specs.State.PropertyTexts.{Texts};
ghost use Rattle.cal_model.specs.Objects.ObjectReading.{first_there, read_zone as zone_read};
ghost use Rattle.cal_model.specs.Properties.Settings as spec;
ghost use Rattle.cal_model.specs.Properties.PropertyTable.{text, zone};
ghost use Rattle.cal_model.specs.Refusals.RefusalReplies.{refused_where};
ghost use Rattle.dav_props.specs.Rows.{setting_of};
ghost use Rattle.dav_props.specs.KeptTexts.{kept_names};
ghost use Rattle.dav_props.specs.SettingFaults.{refusal_of, is_barred as barred};

use crate::kept_texts::is_one_too_many;
use crate::rows::{Setting, columns_of, row_of};
use crate::setting_names::is_too_long;
use cal_base::{NameMap, NoMemory};
use cal_model::{PropName, PropSet};
use cal_object::{ReadFault, read_zone};
use std::alloc::Global;

/// Why a setting is refused.
#[derive(Clone, Copy)]
pub(crate) enum Fault {
    /// The property may not be set, or not so (RFC 4918, 16).
    Protected,
    /// The text of the time zone is none (RFC 4791, 5.3.1).
    BadZone,
}

/// The octets that the value of a text may have.
const VALUE_LIMIT: usize = 4096;

/// The octets that the text of a time zone may have.
const ZONE_LIMIT: usize = 262_144;

/// Why a setting is refused, beside the texts that are there before it: the first that fails.
pub(crate) fn fault_of(
    alloc: Global,
    making: bool,
    kept: &NameMap<bool>,
    set: &PropSet,
) -> Result<Option<Fault>, NoMemory>
    ensures { IfOk result (λ fault. (texts : Texts) → kept.now ≡ kept_names texts → option_map refusal_of fault ≡ spec.setting_fault making texts set.now) }
{
    let setting = columns_of(row_of(&set.name)).setting;
    if is_barred(making, setting, &set.name) {
        return Ok(Some(Fault::Protected));
    }
    match &set.value {
        Some(value) => fault_of_value(alloc, setting, kept, &set.name, value.as_slice()),
        None => Ok(fault_of_removal(setting)),
    }
}

/// Whether a property may not be set at all, whatever the value.
fn is_barred(making: bool, setting: Setting, name: &PropName) -> bool
    ensures { result ≡ barred making (setting_of setting) name.now }
{
    let may_be_set = match setting {
        Setting::Protected => false,
        Setting::Kinds => making,
        Setting::Text | Setting::Zone => true,
    };
    !may_be_set || is_too_long(name)
}

/// The kinds of a calendar are not removed.
fn fault_of_removal(setting: Setting) -> Option<Fault>
    ensures { option_map refusal_of result ≡ refused_where (not (spec.may_be_removed (setting_of setting))) spec.protected_property }
{
    match setting {
        Setting::Kinds => Some(Fault::Protected),
        _ => None,
    }
}

/// Why a value cannot be set.
fn fault_of_value(
    alloc: Global,
    setting: Setting,
    kept: &NameMap<bool>,
    name: &PropName,
    value: &[u8],
) -> Result<Option<Fault>, NoMemory>
    ensures { IfOk result (λ fault. (texts : Texts) → kept.now ≡ kept_names texts → option_map refusal_of fault ≡ first_there (spec.value_faults (setting_of setting) texts name.now value.now)) }
{
    match setting {
        Setting::Protected => Ok(Some(Fault::Protected)),
        Setting::Text => fault_of_text(alloc, kept, name, value),
        Setting::Zone => Ok(fault_of_zone(alloc, value)?),
        Setting::Kinds => Ok(protected_where(is_no_text(value) || !kinds_are_known(value))),
    }
}

/// The refusal of what may not be set, where a condition holds.
fn protected_where(applies: bool) -> Option<Fault>
    ensures { option_map refusal_of result ≡ refused_where applies spec.protected_property }
{
    if applies {
        Some(Fault::Protected)
    } else {
        None
    }
}

/// Why a text cannot be set.
fn fault_of_text(
    alloc: Global,
    kept: &NameMap<bool>,
    name: &PropName,
    value: &[u8],
) -> Result<Option<Fault>, NoMemory>
    ensures { IfOk result (λ fault. (texts : Texts) → kept.now ≡ kept_names texts → option_map refusal_of fault ≡ first_there (spec.value_faults text texts name.now value.now)) }
{
    if is_unfit(value, VALUE_LIMIT) {
        return Ok(Some(Fault::Protected));
    }
    let many = is_one_too_many(alloc, kept, name)?;
    Ok(protected_where(many))
}

/// Why the text of a time zone cannot be set.
fn fault_of_zone(alloc: Global, value: &[u8]) -> Result<Option<Fault>, NoMemory>
    ensures { IfOk result (λ fault. (texts : Texts) (name : PropName) → option_map refusal_of fault ≡ first_there (spec.value_faults zone texts name value.now)) }
{
    if is_unfit(value, ZONE_LIMIT) {
        return Ok(Some(Fault::Protected));
    }
    if is_zone(alloc, value)? {
        return Ok(None);
    }
    Ok(Some(Fault::BadZone))
}

/// Whether a text reads as a calendar with a time zone.
fn is_zone(alloc: Global, text: &[u8]) -> Result<bool, NoMemory>
    requires few { length text.now < 2 ^ 32 }
    ensures { IfOk result (λ reads. reads ≡ is_ok (zone_read text.now)) }
{
    match read_zone(alloc, text) {
        Ok(_zone) => Ok(true),
        Err(ReadFault::NoMemory) => Err(NoMemory),
        Err(_) => Ok(false),
    }
}

/// Whether a value is no text, or has more octets than a limit.
fn is_unfit(value: &[u8], limit: usize) -> bool
    ensures { result ≡ (spec.is_no_text value.now || nat_lt limit (length value.now)) }
{
    is_no_text(value) || value.len() > limit
}

/// Whether a value is no text alone: such a one stands as the octet 0.
fn is_no_text(value: &[u8]) -> bool
    ensures { result ≡ spec.is_no_text value.now }
{
    value == b"\0".as_slice()
}

/// Whether each of some names that are joined by commas is that of a kind (RFC 4791, 5.2.3).
fn kinds_are_known(value: &[u8]) -> bool
    ensures { result ≡ spec.kinds_are_known value.now }
{
    if value.is_empty() {
        return true;
    }
    value
        .split(|octet| *octet == b',')
        .all(|name| is_kind(name))
}

/// Whether a name is that of a kind of components.
fn is_kind(name: &[u8]) -> bool
    ensures { result ≡ not (length (spec.kind_number name.now) == 0) }
{
    b"VEVENT".as_slice() == name
        || b"VTODO".as_slice() == name
        || b"VJOURNAL".as_slice() == name
        || b"VFREEBUSY".as_slice() == name
}
