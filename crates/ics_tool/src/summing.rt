//! What a file has, in one line.
ghost use Rattle.std.specs.Prelude.{◌≡◌, ◌<◌, ◌^◌, length, IfOk};
ghost use Rattle.cal_model.specs.Objects.ObjectFacts.{IsRead};
ghost use Rattle.ics_tool.specs.Answers.{IsAnswer};
ghost use Rattle.ics_tool.specs.Listings as spec;
ghost use Rattle.ics_tool.specs.RowTexts as texts;

use crate::answer::{Listed, refusal};
use crate::lines::put_number;
use crate::listing::rows_counted;
use cal_base::{NoMemory, Octets};
use cal_model::{Kind, Object};
use cal_object::read_object;
use rrule_sets::Counted;
use std::alloc::Global;

/// The word for a kind, and a space.
fn kind_word(kind: Kind) -> &'static [u8]
    ensures { result.now ≡ texts.kind_word kind }
{
    match kind {
        Kind::Event => b"event ",
        Kind::Todo => b"todo ",
        Kind::Journal => b"journal ",
        Kind::FreeBusy => b"freebusy ",
    }
}

/// The line about an object that has so many rows.
fn summary_text(alloc: Global, object: &Object, count: u32) -> Result<Octets, NoMemory>
    ensures { IfOk result (λ text. text ≡ texts.summary_line object.now.kind object.now.uid count) }
{
    let mut out = Octets::of(alloc, kind_word(object.kind))?;
    out.extend_from_slice(object.uid.as_slice())?;
    out.push(b' ')?;
    put_number(count, &mut out)?;
    out.push(b'\n')?;
    Ok(out)
}

/// What is told of an object.
fn object_summary(alloc: Global, object: &Object) -> Listed
    requires read { IsRead object.now }
    requires few { length object.now.components < 2 ^ 32 }
    ensures { IsAnswer (spec.object_summary object.now) result }
{
    match rows_counted(alloc, object) {
        Counted::Within(count) => match summary_text(alloc, object, count) {
            Ok(text) => Listed::Text(text),
            Err(NoMemory) => Listed::NoMemory,
        },
        Counted::Over => Listed::TooMany,
        Counted::NoMemory => Listed::NoMemory,
    }
}

/// What a file has, in one line: the kind of its object, its UID and how many rows it has. It is never
/// refused for a zone.
pub fn summary(alloc: Global, octets: &[u8]) -> Listed
    requires { length octets.now < 2 ^ 32 }
    ensures { IsAnswer (spec.file_summary octets.now) result }
{
    match read_object(alloc, octets) {
        Ok(object) => object_summary(alloc, &object),
        Err(fault) => refusal(fault),
    }
}
