//! Tests of texts (RFC 4791, 9.7.5) under the collations i;ascii-casemap and i;octet (RFC 4790, 9.2
//! and 9.3).

ghost use Rattle.std.specs.Prelude.{◌≡◌, IfOk};
ghost use Rattle.cal_base.specs.Texts.Text.{raised_all};
ghost use Rattle.cal_model.specs.Filters.TextTests as spec;
ghost use Rattle.cal_model.specs.Values.ValueTexts.{unescaped};

use cal_base::{NoMemory, Octets, raised_all};
use cal_model::{Collation, TextMatch};
use ical_values::unescape;
use memchr::memmem::Finder;
use std::alloc::Global;
use std::marker::Model;

/// A text-match whose text is ready to be looked for. Contracts see the text-match.
#[derive(Drop)]
pub struct TextTest<'f> {
    test: &'f TextMatch,
    /// Looks for the text as its collation compares it.
    finder: Finder<'static>,
}

impl<'f> Model for TextTest<'f> {
    ghost use Rattle.std.specs.Prelude.{◌≡◌};
    ghost use Rattle.cal_model.specs.declared.filter.TextMatch.{TextMatch as Test};
    ghost use Rattle.cal_model.specs.Filters.TextTests.{collated};

    ghost Value = { Test };

    ghost view = { λ t. t.test.now };

    ghost invariant = { λ t. t.finder ≡ collated t.test.now.collation t.test.now.text };
}

/// The text of a value made ready for many tests: without its escapes, and that folded beside.
/// Contracts see the value.
#[derive(Drop)]
pub struct ReadyText<'a> {
    value: &'a Octets,
    /// The value without its escapes.
    plain: Octets,
    /// The same with its ASCII letters in upper case.
    folded: Octets,
}

impl<'a> Model for ReadyText<'a> {
    ghost use Rattle.std.specs.Prelude.{◌≡◌, ℕ, List};
    ghost use Rattle.cal_base.specs.Texts.Text.{raised_all};
    ghost use Rattle.cal_model.specs.Values.ValueTexts.{unescaped};

    ghost Value = { List ℕ };

    ghost view = { λ t. t.value.now };

    ghost invariant = { λ t. (t.plain ≡ unescaped t.value.now) × (t.folded ≡ raised_all (unescaped t.value.now)) };
}

impl<'a> ReadyText<'a> {
    /// The text of a value made ready, in twice the octets of the value at most.
    pub fn of(alloc: Global, value: &'a Octets) -> Result<ReadyText<'a>, NoMemory>
        ensures { IfOk result (λ text. text ≡ value.now) }
    {
        let plain = unescape(alloc, value.as_slice())?;
        let folded = raised_all(alloc, plain.as_slice())?;
        Ok(ReadyText {
            value,
            plain,
            folded,
        })
    }
}

impl<'f> TextTest<'f> {
    /// A text-match made ready.
    pub fn of(alloc: Global, test: &'f TextMatch) -> Result<TextTest<'f>, NoMemory>
        ensures { IfOk result (λ ready. ready ≡ test.now) }
    {
        let text = collated(alloc, test.collation, test.text.as_slice())?;
        match Finder::new(text.as_slice()).into_owned(alloc) {
            Ok(finder) => Ok(TextTest { test, finder }),
            Err(_) => Err(NoMemory),
        }
    }

    /// Whether a value passes: its text without escapes has the text within it, or lacks it where
    /// the test is negated.
    pub fn passes(&self, alloc: Global, value: &[u8]) -> Result<bool, NoMemory>
        ensures { IfOk result (λ passes. passes ≡ spec.text_passes self.now value.now) }
    {
        let plain = unescape(alloc, value)?;
        let found = self.finds(alloc, plain.as_slice())?;
        Ok(found != self.test.negate)
    }

    /// Whether a value passes whose text was made ready. It takes no memory.
    pub fn passes_ready(&self, text: &ReadyText) -> bool
        ensures { result ≡ spec.text_passes self.now text.now }
    {
        self.finds_ready(text) != self.test.negate
    }

    /// Whether the text stands in one that was made ready.
    fn finds_ready(&self, text: &ReadyText) -> bool
        ensures { result ≡ spec.stands_in (spec.collated self.now.collation self.now.text) (spec.collated self.now.collation (unescaped text.now)) }
    {
        match self.test.collation {
            Collation::Octet => has_within(&self.finder, text.plain.as_slice()),
            Collation::AsciiCasemap => has_within(&self.finder, text.folded.as_slice()),
        }
    }

    /// Whether the text stands in a plain text.
    fn finds(&self, alloc: Global, plain: &[u8]) -> Result<bool, NoMemory>
        ensures { IfOk result (λ found. found ≡ spec.stands_in (spec.collated self.now.collation self.now.text) (spec.collated self.now.collation plain.now)) }
    {
        match self.test.collation {
            Collation::Octet => Ok(has_within(&self.finder, plain)),
            Collation::AsciiCasemap => {
                let folded = raised_all(alloc, plain)?;
                Ok(has_within(&self.finder, folded.as_slice()))
            }
        }
    }
}

/// Whether a text has another one within it.
fn has_within(finder: &Finder<'static>, text: &[u8]) -> bool
    ensures { result ≡ spec.stands_in finder.now text.now }
{
    finder.find(text).is_some()
}

/// A text as a collation compares it.
fn collated(alloc: Global, collation: Collation, text: &[u8]) -> Result<Octets, NoMemory>
    ensures { IfOk result (λ octets. octets ≡ spec.collated collation text.now) }
{
    match collation {
        Collation::Octet => Octets::of(alloc, text),
        Collation::AsciiCasemap => raised_all(alloc, text),
    }
}
