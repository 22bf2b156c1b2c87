//! The moments at which a class opens and closes, in order, and what they say of the class of a moment.

ghost use Rattle.std.specs.Prelude.{◌≡◌, ◌∷◌, [], ◌++◌, IfOk, OnOk};
ghost use Rattle.std.specs.List.Sorted.{IsPermutation, IsSortedByKey};
ghost use Rattle.std.specs.Ordering.{int_cmp};
ghost use Rattle.freebusy.specs.declared.ends.Span.{Span};
ghost use Rattle.freebusy.specs.Ends as spec;

use crate::busy::BusyRow;
use cal_base::{List, NoMemory};
use cal_model::Class;
use std::alloc::{AllocError, Global};

/// The moments at which a class opens, and those at which it closes, each in rising order. It is open at
/// a moment where it has opened more often than closed.
#[derive(Drop)]
pub(crate) struct Ends {
    pub(crate) starts: List<i64>,
    pub(crate) ends: List<i64>,
}

/// The ends of each class.
#[derive(Drop)]
pub(crate) struct Classes {
    pub(crate) busy: Ends,
    pub(crate) unavailable: Ends,
    pub(crate) tentative: Ends,
}

/// A stretch of seconds: from `start` on, up to `end`.
#[derive(Clone, Copy)]
struct Span {
    start: i64,
    end: i64,
}

/// Whether a time is of a class and covers some second.
fn is_of(class: Class, row: &BusyRow) -> bool
    ensures { result ≡ spec.is_of class row.now }
{
    row.class == class && row.start < row.end
}

/// The times of a class, as they come.
fn spans_of(alloc: Global, rows: &[BusyRow], class: Class) -> Result<Vec<Span>, AllocError>
    ensures { IfOk result (λ v. v.items ≡ spec.spans_of class rows.now) }
{
    rows.iter()
        .filter(|row| is_of(class, row))
        .map(|row| Span {
            start: row.start,
            end: row.end,
        })
        .collect(alloc)
}

/// Times by their starts. Takes no memory.
fn by_start(spans: Vec<Span>) -> Vec<Span>
    ensures same { IsPermutation spans.items result.items }
    ensures rising { IsSortedByKey (λ (span : Span). span.start) int_cmp result.items }
{
    let mut spans = spans;
    spans.sort_unstable_by_key(|span| span.start);
    spans
}

/// A stretch, lengthened by one that starts in it.
fn lengthened(span: Span, next: &Span) -> Span
    ensures { result ≡ spec.lengthened span next.now }
{
    Span {
        start: span.start,
        end: next.end.max(span.end),
    }
}

/// Puts the ends of a stretch behind others.
fn put_span(span: Span, found: &mut Ends) -> Result<(), NoMemory>
    ensures starts { OnOk result (found.new.starts ≡ found.old.starts ++ span.start ∷ []) }
    ensures ends { OnOk result (found.new.ends ≡ found.old.ends ++ span.end ∷ []) }
{
    found.starts.push(span.start)?;
    found.ends.push(span.end)
}

/// The ends of the stretches that some times cover, which come by their starts: times that meet are one
/// stretch.
fn joined(alloc: Global, spans: &[Span]) -> Result<Ends, NoMemory>
    requires { spec.AreInOrder spans.now }
    ensures { IfOk result (λ found. spec.AreEndsOf spans.now found) }
{
    let mut found = Ends {
        starts: List::new(alloc),
        ends: List::new(alloc),
    };
    let Some((first, others)) = spans.split_first() else {
        return Ok(found);
    };
    let mut span = *first;
    let mut rest = others;
    'stretches: while let Some((next, behind)) = rest.split_first() {
        if next.start <= span.end {
            span = lengthened(span, next);
        } else {
            put_span(span, &mut found)?;
            span = *next;
        }
        rest = behind;
    }
    put_span(span, &mut found)?;
    Ok(found)
}

/// The ends of a class.
fn class_ends(alloc: Global, rows: &[BusyRow], class: Class) -> Result<Ends, NoMemory>
    ensures { IfOk result (λ found. spec.AreEndsOf (spec.spans_of class rows.now) found) }
{
    match spans_of(alloc, rows, class) {
        Ok(spans) => {
            let spans = by_start(spans);
            joined(alloc, spans.as_slice())
        }
        Err(_) => Err(NoMemory),
    }
}

/// The ends of each class.
pub(crate) fn classes_of(alloc: Global, rows: &List<BusyRow>) -> Result<Classes, NoMemory>
    ensures { IfOk result (λ found. spec.AreClassesOf rows.now found) }
{
    let busy = class_ends(alloc, rows.as_slice(), Class::Busy)?;
    let unavailable = class_ends(alloc, rows.as_slice(), Class::Unavailable)?;
    let tentative = class_ends(alloc, rows.as_slice(), Class::Tentative)?;
    Ok(Classes {
        busy,
        unavailable,
        tentative,
    })
}
