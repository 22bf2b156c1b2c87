//! The texts that were set on a calendar.
ghost use Rattle.std.specs.Prelude.{◌≡◌, [], option_map, unwrap_or, find};
ghost use Rattle.std.specs.Option.{option_copied};
ghost use Rattle.cal_model.specs.Access.Privileges.{same_name};
ghost use Rattle.cal_model.specs.State.PropertyTexts.{text_at};
ghost use Rattle.dav_props.specs.Rows.{asked_name};
ghost use Rattle.dav_props.specs.Subjects.{texts_of};

use crate::rows::Asked;
use cal_base::{List, Octets};
use cal_model::{PropName, PropSet};

/// The text of a property, where it was set. There are few of them.
pub(crate) fn text_of<'a>(texts: &'a List<PropSet>, asked: &Asked<'_>) -> Option<&'a [u8]>
    ensures { option_map (λ text. text.now) result ≡ text_at (texts_of texts.now) (asked_name asked.now) }
{
    match setting_of(texts.as_slice(), asked) {
        Some(set) => Some(value_of(&set.value)),
        None => None,
    }
}

/// The setting that has a name.
fn setting_of<'a>(sets: &'a [PropSet], asked: &Asked<'_>) -> Option<&'a PropSet>
    ensures { option_copied result ≡ find (λ set. same_name set.name (asked_name asked.now)) sets.now }
{
    sets.iter().find(|set| is_named(&set.name, asked))
}

pub(crate) fn is_named(name: &PropName, asked: &Asked<'_>) -> bool
    ensures { result ≡ same_name name.now (asked_name asked.now) }
{
    name.space.as_slice() == asked.space && name.name.as_slice() == asked.name
}

/// The octets of a text; none where there is none.
fn value_of(value: &Option<Octets>) -> &[u8]
    ensures { result.now ≡ unwrap_or value.now [] }
{
    match value {
        Some(octets) => octets.as_slice(),
        None => b"",
    }
}
