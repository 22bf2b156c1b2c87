//! A rule as far as it is read, part by part (RFC 5545, 3.3.10).
ghost use Rattle.std.specs.Prelude.{◌≡◌, ◌<◌, ◌+◌, ◌^◌, ℕ, List, true, [], length, Some, None, IfOk, OnOk, IsErrOf};
ghost use Rattle.cal_base.specs.Lists.NameMap.{with_value};
ghost use Rattle.cal_base.specs.Texts.Text.{raised_all};
ghost use Rattle.cal_moment.specs.BadPlace.{IsBadAt};
ghost use Rattle.cal_model.specs.declared.rule.Freq.TheVariants.{Yearly};
ghost use Rattle.cal_model.specs.Values.BadValues.{Reads};
ghost use Rattle.cal_model.specs.Values.RuleTexts.{every_time, is_allowed, rule_in_grammar};
ghost use Rattle.cal_model.specs.Values.ValueTexts.{cut};
ghost use Rattle.ical_values.specs.RuleNames.{is_free, is_own, name_place};
ghost use Rattle.ical_values.specs.RuleParts.{part_named};
ghost use Rattle.ical_values.specs.RuleReading.{Fits, HasTaken, HasTakenPiece, IsBadPiece, IsReadWhole};

use crate::cuts::{cut, first_piece};
use crate::fault::ValueFault;
use crate::rule_beside::read_value;
use crate::rule_names::{has_come, is_free, is_own, name_place};
use crate::rule_parts::{RulePart, name_of, part_named, put};
use cal_base::{List, NameMap, NoMemory, Octets, raised};
use cal_model::{Freq, Rule};
use std::alloc::Global;

/// A rule as far as it is read.
#[derive(Drop)]
pub struct RuleReader {
    /// The rule. Its frequency is YEARLY, which refuses least, as long as FREQ has not come.
    pub rule: Rule,
    /// The names of the parts that have come, in upper case.
    pub names: NameMap<bool>,
}

impl RuleReader {
    /// Before the first part.
    pub fn new(alloc: Global) -> RuleReader
        ensures rule { result.rule ≡ every_time Yearly }
        ensures names { result.names ≡ [] }
    {
        RuleReader {
            rule: Rule {
                freq: Freq::Yearly,
                interval: 1,
                count: None,
                until: None,
                week_start: 0,
                by_month: List::new(alloc),
                by_week: List::new(alloc),
                by_year_day: List::new(alloc),
                by_month_day: List::new(alloc),
                by_day: List::new(alloc),
                by_hour: List::new(alloc),
                by_minute: List::new(alloc),
                by_second: List::new(alloc),
                by_set_pos: List::new(alloc),
            },
            names: NameMap::new(alloc),
        }
    }

    /// Reads all parts of a text, with semicolons between them; one empty part at the end is passed
    /// over.
    pub fn take_parts(&mut self, alloc: Global, text: &[u8]) -> Result<(), ValueFault>
        requires rule { self.old.rule ≡ every_time Yearly }
        requires names { self.old.names ≡ [] }
        ensures ok { OnOk result (IsReadWhole text.now self.new.rule self.new.names) }
        ensures bad { (place : ℕ) → IsErrOf result (ValueFault.Bad place) → IsBadAt (Reads rule_in_grammar) text.now place }
    {
        let mut rest = Some(text);
        'parts: while let Some(left) = rest {
            let (piece, behind) = first_piece(left, b';');
            match self.take_piece(alloc, piece, behind.is_none(), text.len() - left.len()) {
                Ok(()) => {}
                Err(fault) => return Err(fault),
            }
            rest = behind;
        }
        Ok(())
    }

    /// Reads what stands between two semicolons, from a place on.
    fn take_piece(
        &mut self,
        alloc: Global,
        text: &[u8],
        last: bool,
        at: usize,
    ) -> Result<(), ValueFault>
        requires allowed { is_allowed self.old.rule ≡ true }
        requires at { at + length text.now < 2 ^ 64 }
        ensures ok { OnOk result (HasTakenPiece self.old.rule self.old.names text.now last self.new.rule self.new.names) }
        ensures bad { (place : ℕ) → IsErrOf result (ValueFault.Bad place) → IsBadPiece self.old.rule self.old.names text.now last at place }
    {
        if last && text.is_empty() {
            return Ok(());
        }
        match self.take_part(alloc, text) {
            Ok(()) => Ok(()),
            Err(ValueFault::Bad { place }) => Err(ValueFault::Bad {
                place: at as u64 + place,
            }),
            Err(ValueFault::NoMemory) => Err(ValueFault::NoMemory),
        }
    }

    /// Reads one part.
    fn take_part(&mut self, alloc: Global, text: &[u8]) -> Result<(), ValueFault>
        requires { is_allowed self.old.rule ≡ true }
        ensures ok { OnOk result (HasTaken self.old.rule self.old.names text.now self.new.rule self.new.names) }
        ensures bad { (place : ℕ) → IsErrOf result (ValueFault.Bad place) → IsBadAt (Fits self.old.rule self.old.names) text.now place }
    {
        match cut(text, b'=') {
            Some((name, value)) => self.take_named(alloc, text, name, value),
            None => Err(self.bad_name(text)),
        }
    }

    /// Reads one part, which has a name and a value.
    fn take_named(
        &mut self,
        alloc: Global,
        text: &[u8],
        name: &[u8],
        value: &[u8],
    ) -> Result<(), ValueFault>
        requires allowed { is_allowed self.old.rule ≡ true }
        requires cuts { cut 61 text.now ≡ Some (name.now, value.now) }
        ensures ok { OnOk result (HasTaken self.old.rule self.old.names text.now self.new.rule self.new.names) }
        ensures bad { (place : ℕ) → IsErrOf result (ValueFault.Bad place) → IsBadAt (Fits self.old.rule self.old.names) text.now place }
    {
        match part_named(name) {
            Some(part) if is_free(&self.rule, &self.names, part) => {
                self.take_value(alloc, text, name, value, part)
            }
            Some(_) => Err(self.bad_name(text)),
            None => self.take_own(alloc, text, name),
        }
    }

    /// Reads the value of a part that may come.
    fn take_value(
        &mut self,
        alloc: Global,
        text: &[u8],
        name: &[u8],
        value: &[u8],
        part: RulePart,
    ) -> Result<(), ValueFault>
        requires allowed { is_allowed self.old.rule ≡ true }
        requires cuts { cut 61 text.now ≡ Some (name.now, value.now) }
        requires named { part_named (raised_all name.now) ≡ Some part }
        requires free { is_free self.old.rule self.old.names part ≡ true }
        ensures ok { OnOk result (HasTaken self.old.rule self.old.names text.now self.new.rule self.new.names) }
        ensures bad { (place : ℕ) → IsErrOf result (ValueFault.Bad place) → IsBadAt (Fits self.old.rule self.old.names) text.now place }
    {
        self.add_name(alloc, name_of(part))?;
        match read_value(alloc, &self.rule, part, value) {
            Ok(value) => {
                put(&mut self.rule, value);
                Ok(())
            }
            Err(ValueFault::Bad { place }) => Err(ValueFault::Bad {
                place: (text.len() - value.len()) as u64 + place,
            }),
            Err(ValueFault::NoMemory) => Err(ValueFault::NoMemory),
        }
    }

    /// Keeps the name of a part of others' own.
    fn take_own(&mut self, alloc: Global, text: &[u8], name: &[u8]) -> Result<(), ValueFault>
        requires allowed { is_allowed self.old.rule ≡ true }
        requires cuts { (value : List ℕ) × (cut 61 text.now ≡ Some (name.now, value)) }
        requires unknown { part_named (raised_all name.now) ≡ None }
        ensures ok { OnOk result (HasTaken self.old.rule self.old.names text.now self.new.rule self.new.names) }
        ensures bad { (place : ℕ) → IsErrOf result (ValueFault.Bad place) → IsBadAt (Fits self.old.rule self.old.names) text.now place }
    {
        if !is_own(name) {
            return Err(self.bad_name(text));
        }
        let upper = raised_copy(alloc, name)?;
        if has_come(&self.names, upper.as_slice()) {
            return Err(self.bad_name(text));
        }
        self.names.insert(upper, true)?;
        Ok(())
    }

    /// Keeps a name.
    fn add_name(&mut self, alloc: Global, name: &[u8]) -> Result<(), NoMemory>
        ensures rule { self.new.rule ≡ self.old.rule }
        ensures names { OnOk result (self.new.names ≡ with_value self.old.names name.now true) }
    {
        let name = Octets::of(alloc, name)?;
        self.names.insert(name, true)?;
        Ok(())
    }

    /// The fault of a text whose name may not come.
    fn bad_name(&self, text: &[u8]) -> ValueFault
        ensures { result ≡ ValueFault.Bad (name_place self.now.rule self.now.names text.now) }
    {
        ValueFault::Bad {
            place: name_place(&self.rule, &self.names, text),
        }
    }
}

/// A copy of a text with its ASCII letters in upper case.
fn raised_copy(alloc: Global, text: &[u8]) -> Result<Octets, NoMemory>
    ensures { IfOk result (λ octets. octets ≡ raised_all text.now) }
{
    match text
        .iter()
        .map(|octet| raised(*octet))
        .collect::<Vec<u8>>(alloc)
    {
        Ok(octets) => Ok(Octets::from_vec(octets)),
        Err(_) => Err(NoMemory),
    }
}
