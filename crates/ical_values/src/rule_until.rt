//! The last moment that a rule may give (RFC 5545, 3.3.10).
ghost use Rattle.std.specs.Prelude.{◌≡◌, Some, IfOk, IfErr};
ghost use Rattle.cal_moment.specs.BadPlace.{IsBadAt};
ghost use Rattle.cal_model.specs.Values.BadValues.{Reads};
ghost use Rattle.cal_model.specs.Values.RuleTexts.{until_of};
ghost use Rattle.ical_values.specs.UntilForms.{until_at};

use crate::stamps::{StampForm, read_form};
use cal_model::Until;
use cal_moment::{Bad, Stamp};

/// Reads a DATE or a DATE-TIME, whose form its length decides.
pub fn read_until(text: &[u8]) -> Result<Until, Bad>
    ensures ok { IfOk result (λ until. until_of text.now ≡ Some until) }
    ensures bad { IfErr result (λ fault. IsBadAt (Reads until_of) text.now fault.place) }
{
    match read_form(text, StampForm::DateOrTime(None)) {
        Ok(stamp) => Ok(until_at(stamp)),
        Err(fault) => Err(fault),
    }
}

/// The last moment that a stamp without a zone is.
fn until_at(stamp: Stamp) -> Until
    ensures { result ≡ until_at stamp }
{
    match stamp {
        Stamp::Date(day) => Until::Day(day),
        Stamp::Floating(local) | Stamp::Zoned(local, _) => Until::Local(local),
        Stamp::Utc(moment) => Until::Utc(moment),
    }
}
