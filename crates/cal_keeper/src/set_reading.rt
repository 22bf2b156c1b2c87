//! Settings, read from a payload.
ghost use Rattle.std.specs.Prelude.{◌≡◌, ℕ, ◌<◌, ◌≤◌, ◌^◌, ◌++◌, List, length, nat_le, flat_map, option_map, IsNone, IfSome, IfOk};
ghost use Rattle.cal_model.specs.declared.property.PropSet.{PropSet};
ghost use Rattle.cal_model.specs.Bodies.ContentSizes.{octets_in, values_size};
ghost use Rattle.cal_model.specs.Streams.WireLimits.{body_limit};
ghost use Rattle.cal_keeper.specs.Steps.Decoding.{HasNo, IsAny, set_of, HasNoSettings};
ghost use Rattle.cal_keeper.specs.Files.Payloads.{value_text, set_text, sets_text, SettingsHaveForm};

use crate::parts::{long_at, u32_at};
use cal_base::{List, NoMemory, Octets};
use cal_model::{PropName, PropSet};
use std::alloc::Global;

/// The most settings of a record.
const MOST_SETTINGS: u32 = 262_144;

/// The most octets of all their values.
const VALUES_LIMIT: u64 = 1_048_576;

/// A property, and its value or none to remove it, as they lie in a payload.
#[derive(Drop)]
pub(crate) struct SetParts<'a> {
    space: &'a [u8],
    name: &'a [u8],
    value: Option<&'a [u8]>,
}

/// Settings that are all of the octets, and the size that stands in front of them.
pub(crate) fn settings_at(
    alloc: Global,
    octets: &[u8],
) -> Result<Option<(u32, List<PropSet>)>, NoMemory>
    requires { length octets.now < 2 ^ 32 }
    ensures found { IfOk result (λ found. IfSome found (λ found. octets.now ≡ sets_text found.0 found.1)) }
    ensures form { IfOk result (λ found. IfSome found (λ found. SettingsHaveForm found.1)) }
    ensures small { IfOk result (λ found. IfSome found (λ found. found.0 < 2 ^ 32)) }
    ensures none { IfOk result (λ found. IsNone found → HasNoSettings octets.now) }
{
    let Some((size, rest)) = u32_at(octets) else {
        return Ok(None);
    };
    let Some((count, rest)) = u32_at(rest) else {
        return Ok(None);
    };
    if MOST_SETTINGS < count {
        return Ok(None);
    }
    let Some(sets) = sets_at(alloc, rest, count)? else {
        return Ok(None);
    };
    if do_values_fit(sets.as_slice()) {
        Ok(Some((size, sets)))
    } else {
        Ok(None)
    }
}

/// So many settings that are all of the octets.
fn sets_at(alloc: Global, octets: &[u8], count: u32) -> Result<Option<List<PropSet>>, NoMemory>
    requires { length octets.now < 2 ^ 32 }
    ensures found { IfOk result (λ found. IfSome found (λ sets. octets.now ≡ flat_map set_text sets)) }
    ensures count { IfOk result (λ found. IfSome found (λ sets. length sets ≡ count)) }
    ensures none { IfOk result (λ found. IsNone found → (sets : List PropSet) → length sets ≡ count → octets.now ≡ flat_map set_text sets → ⊥) }
{
    let mut sets = List::new(alloc);
    let mut rest = octets;
    'setting: for done in 0..count {
        let Some((parts, after)) = set_at(rest) else {
            return Ok(None);
        };
        sets.push(owned(alloc, &parts)?)?;
        rest = after;
    }
    if rest.is_empty() {
        Ok(Some(sets))
    } else {
        Ok(None)
    }
}

/// A setting, and what stands behind it.
fn set_at(octets: &[u8]) -> Option<(SetParts<'_>, &[u8])>
    requires { length octets.now < 2 ^ 32 }
    ensures found { IfSome result (λ found. octets.now ≡ set_text (set_of found.0) ++ found.1.now) }
    ensures none { IsNone result → HasNo set_text IsAny octets.now }
{
    let (space, rest) = long_at(octets)?;
    let (name, rest) = long_at(rest)?;
    let (value, rest) = value_at(rest)?;
    Some((SetParts { space, name, value }, rest))
}

/// A value that may be absent, and what stands behind it.
fn value_at(octets: &[u8]) -> Option<(Option<&[u8]>, &[u8])>
    requires { length octets.now < 2 ^ 32 }
    ensures found { IfSome result (λ found. octets.now ≡ value_text (option_map (λ value. value.now) found.0) ++ found.1.now) }
    ensures none { IsNone result → HasNo value_text IsAny octets.now }
{
    match octets {
        [] => None,
        [0, rest @ ..] => Some((None, rest)),
        [1, rest @ ..] => {
            let (value, rest) = long_at(rest)?;
            Some((Some(value), rest))
        }
        [_, ..] => None,
    }
}

/// A setting of its own octets.
fn owned(alloc: Global, parts: &SetParts<'_>) -> Result<PropSet, NoMemory>
    ensures { IfOk result (λ set. set ≡ set_of parts.now) }
{
    let name = PropName {
        space: Octets::of(alloc, parts.space)?,
        name: Octets::of(alloc, parts.name)?,
    };
    let value = owned_value(alloc, parts.value)?;
    Ok(PropSet { name, value })
}

fn owned_value(alloc: Global, value: Option<&[u8]>) -> Result<Option<Octets>, NoMemory>
    ensures { IfOk result (λ own. own ≡ option_map (λ value. value.now) value.entry) }
{
    match value {
        None => Ok(None),
        Some(value) => {
            let own = Octets::of(alloc, value)?;
            Ok(Some(own))
        }
    }
}

/// Whether the values of settings have few enough octets in all.
fn do_values_fit(sets: &[PropSet]) -> bool
    requires { values_size sets.now < 2 ^ 62 }
    ensures { result ≡ nat_le (values_size sets.now) body_limit }
{
    let mut size: u64 = 0;
    'setting: for set in sets {
        size += value_octets(&set.value);
    }
    size <= VALUES_LIMIT
}

fn value_octets(value: &Option<Octets>) -> u64
    ensures { result ≡ octets_in value.now }
{
    match value {
        None => 0,
        Some(value) => value.len() as u64,
    }
}
