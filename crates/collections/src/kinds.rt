//! The kinds of objects that a calendar takes, as settings change them (RFC 4791, 5.2.3).
ghost use Rattle.std.specs.Prelude.{◌≡◌, ◌≤◌, if◌then◌else◌, bytes_eq};
ghost use Rattle.std.specs.List.{list_any};
ghost use Rattle.cal_model.specs.Properties.Settings.{kinds_in, kinds_set, kinds_after, kinds_after_all};

use crate::settings::is_kinds_name;
use cal_model::PropSet;

/// Whether a name is in a list of names that are joined by commas.
fn lists(value: &[u8], name: &[u8]) -> bool
    ensures { result ≡ list_any (bytes_eq name.now) (kinds_in value.now) }
{
    if value.is_empty() {
        return false;
    }
    value
        .split(|octet| *octet == b',')
        .any(|listed| listed == name)
}

/// The number of a kind where it is in the set, and else 0.
fn kind_where(listed: bool, kind: u8) -> u8
    ensures kind { result ≡ (if listed then kind else 0) }
    ensures within { result ≤ kind }
{
    if listed { kind } else { 0 }
}

/// The set of the kinds in a list of their names.
fn kinds_of(value: &[u8]) -> u8
    ensures { result ≡ kinds_set value.now }
{
    let event = kind_where(lists(value, b"VEVENT"), 1);
    let todo = kind_where(lists(value, b"VTODO"), 2);
    let journal = kind_where(lists(value, b"VJOURNAL"), 4);
    let free_busy = kind_where(lists(value, b"VFREEBUSY"), 8);
    event + todo + journal + free_busy
}

/// The kinds after a setting.
fn kinds_with(before: u8, set: &PropSet) -> u8
    ensures { result ≡ kinds_after before set.now }
{
    if !is_kinds_name(&set.name) {
        return before;
    }
    match &set.value {
        Some(value) => kinds_of(value.as_slice()),
        None => before,
    }
}

/// The kinds after settings.
pub(crate) fn kinds_behind(before: u8, sets: &[PropSet]) -> u8
    ensures { result ≡ kinds_after_all before sets.now }
{
    let mut kinds = before;
    for set in sets {
        kinds = kinds_with(kinds, set);
    }
    kinds
}
