//! Rules of recurrence (RFC 5545, 3.3.10), read in one pass.
ghost use Rattle.std.specs.Prelude.{◌≡◌, ◌<◌, ◌^◌, ℕ, None, Some, true, false, length, IfOk, IsErrOf};
ghost use Rattle.cal_model.specs.Values.BadValues.{IsBadRuleAt};
ghost use Rattle.cal_model.specs.Values.RuleTexts.{is_within_bound, rule_of};
ghost use Rattle.cal_model.specs.Values.RuleTrial.{FrontsOfRulesAreTried};
ghost use Rattle.ical_values.specs.RuleReading.{IsReadWhole};

use crate::fault::ValueFault;
use crate::rule_bound::is_within_bound;
use crate::rule_names::has_come;
use crate::rule_reader::RuleReader;
use cal_model::Rule;
use std::alloc::Global;

/// Reads the value of an RRULE. A place is the first octet at which no rule goes on, and 0 where only
/// the bound on BYSETPOS refuses the rule: with it, BYHOUR, BYMINUTE and BYSECOND may name at most 24
/// times of day. (That a few rests decide whether a rule goes on holds of every text.)
pub fn read_rule(alloc: Global, text: &[u8]) -> Result<Rule, ValueFault>
    ensures ok { IfOk result (λ rule. rule_of text.now ≡ Some rule) }
    ensures outside { (place : ℕ) → IsErrOf result (ValueFault.Bad place) → rule_of text.now ≡ None }
    ensures bad { (place : ℕ) → IsErrOf result (ValueFault.Bad place) → IsBadRuleAt text.now place }
    ensures trial { FrontsOfRulesAreTried }
{
    let mut reader = RuleReader::new(alloc);
    match reader.take_parts(alloc, text) {
        Ok(()) => read_whole(reader, text),
        Err(fault) => Err(fault),
    }
}

/// The rule of a text whose parts are all read.
fn read_whole(reader: RuleReader, text: &[u8]) -> Result<Rule, ValueFault>
    requires { IsReadWhole text.now reader.rule reader.names }
    ensures ok { IfOk result (λ rule. rule_of text.now ≡ Some rule) }
    ensures outside { (place : ℕ) → IsErrOf result (ValueFault.Bad place) → rule_of text.now ≡ None }
    ensures bad { (place : ℕ) → IsErrOf result (ValueFault.Bad place) → IsBadRuleAt text.now place }
{
    if !has_come(&reader.names, b"FREQ") {
        return Err(ValueFault::Bad {
            place: text.len() as u64,
        });
    }
    let RuleReader { rule, names: _ } = reader;
    if is_within_bound(&rule) {
        Ok(rule)
    } else {
        Err(ValueFault::Bad { place: 0 })
    }
}
