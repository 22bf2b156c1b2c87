//! The word of FREQ, which some parts refuse (RFC 5545, 3.3.10).
ghost use Rattle.std.specs.Prelude.{◌≡◌, Some, None, if◌then◌else◌, option_and_then, IfOk, IfErr};
ghost use Rattle.cal_base.specs.Texts.Text.{raised_all};
ghost use Rattle.cal_moment.specs.BadPlace.{IsBadAt};
ghost use Rattle.cal_model.specs.Values.BadValues.{Reads};
ghost use Rattle.cal_model.specs.Values.RuleTexts.{freq_of, frequencies, word_of};
ghost use Rattle.ical_values.specs.RuleFreqs.{allows, freq_common, freq_part};
ghost use Rattle.ical_values.specs.RuleWords.{words_of};

use crate::rule_words::common;
use cal_base::is_word;
use cal_model::Freq;
use cal_moment::Bad;

/// The parts in a rule so far that refuse frequencies.
#[derive(Clone, Copy)]
pub struct Refusing {
    /// BYWEEKNO.
    pub weeks: bool,
    /// BYYEARDAY.
    pub year_days: bool,
    /// BYMONTHDAY.
    pub month_days: bool,
    /// BYDAY with an ordinal.
    pub ordinals: bool,
}

/// Whether a frequency may stand beside such parts.
pub fn allows(beside: Refusing, freq: Freq) -> bool
    ensures { result ≡ allows beside freq }
{
    match freq {
        Freq::Yearly => true,
        Freq::Monthly => !beside.weeks && !beside.year_days,
        Freq::Weekly => {
            !beside.weeks && !beside.year_days && !beside.month_days && !beside.ordinals
        }
        Freq::Daily => !beside.weeks && !beside.year_days && !beside.ordinals,
        Freq::Hourly | Freq::Minutely | Freq::Secondly => !beside.weeks && !beside.ordinals,
    }
}

/// Reads a frequency that may stand beside such parts.
pub fn read_freq(text: &[u8], beside: Refusing) -> Result<Freq, Bad>
    ensures ok { IfOk result (λ freq. word_of (words_of (allows beside) frequencies) text.now ≡ Some freq) }
    ensures bad { IfErr result (λ fault. IsBadAt (Reads (word_of (words_of (allows beside) frequencies))) text.now fault.place) }
{
    match allowed_freq(text, beside) {
        Some(freq) => Ok(freq),
        None => Err(Bad {
            place: freq_place(text, beside),
        }),
    }
}

/// The frequency of a word, where it may stand beside such parts.
fn allowed_freq(text: &[u8], beside: Refusing) -> Option<Freq>
    ensures { result ≡ word_of (words_of (allows beside) frequencies) text.now }
{
    match freq_named(text) {
        Some(freq) => if_allowed(freq, beside),
        None => None,
    }
}

/// A frequency, where it may stand beside such parts.
fn if_allowed(freq: Freq, beside: Refusing) -> Option<Freq>
    ensures { result ≡ (if allows beside freq then Some freq else None) }
{
    if allows(beside, freq) {
        Some(freq)
    } else {
        None
    }
}

/// The frequency of a word.
fn freq_named(text: &[u8]) -> Option<Freq>
    ensures { result ≡ freq_of text.now }
{
    if is_word(text, b"SECONDLY") {
        Some(Freq::Secondly)
    } else if is_word(text, b"MINUTELY") {
        Some(Freq::Minutely)
    } else if is_word(text, b"HOURLY") {
        Some(Freq::Hourly)
    } else if is_word(text, b"DAILY") {
        Some(Freq::Daily)
    } else if is_word(text, b"WEEKLY") {
        Some(Freq::Weekly)
    } else if is_word(text, b"MONTHLY") {
        Some(Freq::Monthly)
    } else if is_word(text, b"YEARLY") {
        Some(Freq::Yearly)
    } else {
        None
    }
}

/// The most that a text has in common with a frequency that may stand beside such parts.
fn freq_place(text: &[u8], beside: Refusing) -> u64
    ensures { result ≡ freq_common beside (raised_all text.now) }
{
    let most = common_kept(text, b"YEARLY", Freq::Yearly, beside);
    let most = common_kept(text, b"MONTHLY", Freq::Monthly, beside).max(most);
    let most = common_kept(text, b"WEEKLY", Freq::Weekly, beside).max(most);
    let most = common_kept(text, b"DAILY", Freq::Daily, beside).max(most);
    let most = common_kept(text, b"HOURLY", Freq::Hourly, beside).max(most);
    let most = common_kept(text, b"MINUTELY", Freq::Minutely, beside).max(most);
    common_kept(text, b"SECONDLY", Freq::Secondly, beside).max(most)
}

/// What a text has in common with the word of a frequency that may stand beside such parts, else 0.
fn common_kept(text: &[u8], word: &[u8], freq: Freq, beside: Refusing) -> u64
    ensures { result ≡ freq_part beside freq (raised_all text.now) word.now }
{
    if allows(beside, freq) {
        common(text, word)
    } else {
        0
    }
}
