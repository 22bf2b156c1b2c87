//! The names of the parts of rules, and where a text leaves those that may come (RFC 5545, 3.3.10).
ghost use Rattle.std.specs.Prelude.{◌≡◌, ◌≤◌, length, is_some};
ghost use Rattle.std.specs.List.{list_all};
ghost use Rattle.cal_base.specs.Lines.ContentLines.{is_name_octet};
ghost use Rattle.cal_base.specs.Lists.NameMap.{value_at};
ghost use Rattle.cal_base.specs.Texts.Text.{raised_all};
ghost use Rattle.ical_values.specs.RuleNames.{free_common, hyphen_length, is_free, is_own, most_free, name_length, name_place, own_length};

use crate::rule_beside::takes;
use crate::rule_parts::{PARTS, RulePart, name_of};
use crate::rule_words::common;
use cal_base::{NameMap, raised};
use cal_model::Rule;

/// Whether a part has not come, and may stand beside those of a rule.
pub fn is_free(rule: &Rule, names: &NameMap<bool>, part: RulePart) -> bool
    ensures { result ≡ is_free rule.now names.now part }
{
    takes(rule, part) && !has_come(names, name_of(part))
}

/// Whether a name is one of those that have come.
pub fn has_come(names: &NameMap<bool>, name: &[u8]) -> bool
    ensures { result ≡ is_some (value_at names.now name.now) }
{
    names.get(name).is_some()
}

/// How far a text goes along the name of a part of others' own: `X-` and octets of a name, without
/// ASCII case.
pub fn own_length(text: &[u8]) -> u64
    ensures value { result ≡ own_length text.now }
    ensures within { result ≤ length text.now }
{
    let [octet, rest @ ..] = text else {
        return 0;
    };
    if raised(*octet) == b'X' {
        1 + hyphen_length(rest)
    } else {
        0
    }
}

/// Whether a name is one of a part of others' own.
pub fn is_own(name: &[u8]) -> bool
    ensures { result ≡ is_own name.now }
{
    2 <= name.len() && own_length(name) == name.len() as u64
}

/// How far a text goes along a hyphen and octets of a name.
fn hyphen_length(text: &[u8]) -> u64
    ensures value { result ≡ hyphen_length text.now }
    ensures within { result ≤ length text.now }
{
    let [octet, rest @ ..] = text else {
        return 0;
    };
    if raised(*octet) == b'-' {
        1 + name_length(rest)
    } else {
        0
    }
}

/// How many octets in front are those of a name.
fn name_length(text: &[u8]) -> u64
    ensures value { result ≡ name_length text.now }
    ensures within { result ≤ length text.now }
{
    'octets: for (place, octet) in text.iter().enumerate() {
        if !is_name_octet(*octet) {
            return place as u64;
        }
    }
    text.len() as u64
}

fn is_name_octet(octet: u8) -> bool
    ensures { result ≡ is_name_octet octet }
{
    octet.is_ascii_alphanumeric() || octet == b'-'
}

/// Where a text leaves the names that a next part may have.
pub fn name_place(rule: &Rule, names: &NameMap<bool>, text: &[u8]) -> u64
    ensures { result ≡ name_place rule.now names.now text.now }
{
    most_free(rule, names, text, &PARTS).max(own_length(text))
}

/// The most that a text has in common with the name of one of some parts that are free.
fn most_free(rule: &Rule, names: &NameMap<bool>, text: &[u8], parts: &[RulePart]) -> u64
    ensures { result ≡ most_free rule.now names.now (raised_all text.now) parts.now }
{
    let mut most = 0;
    'parts: for part in parts {
        most = free_common(rule, names, text, *part).max(most);
    }
    most
}

/// What a text has in common with the name of a part that is free, else 0.
fn free_common(rule: &Rule, names: &NameMap<bool>, text: &[u8], part: RulePart) -> u64
    ensures { result ≡ free_common rule.now names.now (raised_all text.now) part }
{
    if is_free(rule, names, part) {
        common(text, name_of(part))
    } else {
        0
    }
}
