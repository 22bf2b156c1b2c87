//! Rules that are not expanded.
ghost use Rattle.std.specs.Prelude.{◌≡◌};
ghost use Rattle.std.specs.List.{list_any};
ghost use Rattle.cal_model.specs.declared.rule.Rule.{Rule};
ghost use Rattle.cal_model.specs.Recurrence.NextPassing.{is_fine};
ghost use Rattle.cal_model.specs.Instances.Starts as spec;

use cal_model::{Freq, Object, Rule};

/// Whether a frequency is that of seconds or minutes.
fn is_fine(freq: Freq) -> bool
    ensures { result ≡ is_fine freq }
{
    matches!(freq, Freq::Secondly | Freq::Minutely)
}

/// Whether some rule of a list recurs by seconds or minutes.
fn has_fine(rules: &[Rule]) -> bool
    ensures { result ≡ list_any (λ (rule : Rule). is_fine rule.freq) rules.now }
{
    rules.iter().any(|rule| is_fine(rule.freq))
}

/// Whether some rule of an object recurs by seconds or minutes, used or not.
pub fn has_fine_rule(object: &Object) -> bool
    ensures { result ≡ spec.has_fine_rule object.now }
{
    let components = object.components.as_slice();
    components
        .iter()
        .any(|component| has_fine(component.rules.as_slice()))
}
