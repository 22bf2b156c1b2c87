//! The local times of a zone as spans in rising order: a conversion then costs one search, however
//! close onsets lie.
ghost use Rattle.std.specs.Prelude.{ℕ, pos, ◌+ℤ◌, neg_ℤ, ◌<ℤ◌, ◌≤ℤ◌, int_le, ◌&&◌, ◌==◌, ◌≡◌, ◌<◌, ◌≤◌, ◌+◌, ◌-◌, ◌++◌, [], ◌∷◌, All, true, false, length, map, slice_index_or, AllPairs, IfOk, IfSome, IfNone};
ghost use Rattle.std.specs.List.{AllWithin};
ghost use Rattle.cal_model.specs.declared.local_span.Span.{Span};
ghost use Rattle.cal_model.specs.Instances.Starts.{ascending};
ghost use Rattle.cal_model.specs.Conversions.LocalSpans as spec;
ghost use Rattle.cal_model.specs.TimeZones.TableBounds.{IsTable, IsDigits, IsOffset};

use crate::zone::ZoneTable;
use crate::zone_time::{has_local, leads_past, stretch_offset};
use cal_base::{List, NoMemory};
use std::alloc::Global;

/// What some stretches of a zone's time make of a local time.
#[derive(Clone, Copy)]
pub enum Found {
    /// The offset of the first of them that has it.
    Shown(i32),
    /// None has it, and this is the offset before the first onset that leads past it.
    Skipped(i32),
    /// None has it, and none leads past it.
    Nowhere,
}

/// What holds from a local time on, up to the next span.
#[derive(Clone, Copy)]
pub struct Span {
    /// The digits in seconds from 1970.
    pub from: i64,
    pub found: Found,
}

/// Of what earlier and later stretches make of a local time, what both together make of it.
fn best(first: Found, second: Found) -> Found
    ensures { result ≡ spec.best first second }
{
    match first {
        Found::Shown(_) => first,
        Found::Nowhere => second,
        Found::Skipped(_) => match second {
            Found::Shown(_) => second,
            _ => first,
        },
    }
}

/// How many spans begin at or before a local time.
#[tactic(auto, using(crate::proofs::Conversions::SpanLemmas::spans_partitioned))]
fn spans_until(spans: &[Span], local: i64) -> usize
    requires { AllPairs (λ (a b : Span). a.from <ℤ b.from) spans.now }
    ensures bound { result ≤ length spans.now }
    ensures before { AllWithin (λ (p : Span). int_le p.from local ≡ true) spans.now 0 result }
    ensures after { AllWithin (λ (p : Span). int_le p.from local ≡ false) spans.now result (length spans.now) }
{
    spans.partition_point(|p| p.from <= local)
}

/// What a span says.
fn found_of(spans: &[Span], k: usize) -> Found
    requires { k < length spans.now }
    ensures { (d : Span) → result ≡ (slice_index_or spans.now k d).found }
{
    spans[k].found
}

/// What the last span at or before a local time says.
#[tactic(auto, using(crate::proofs::Conversions::SpanLemmas::value_at_none))]
pub fn value_at(spans: &[Span], local: i64) -> Found
    requires { AllPairs (λ (a b : Span). a.from <ℤ b.from) spans.now }
    ensures { result ≡ spec.value_at spans.now local }
{
    let n = spans_until(spans, local);
    if n == 0 {
        return Found::Nowhere;
    }
    found_of(spans, n - 1)
}

/// The instant of a local time by what was found of it.
pub fn instant_by(found: Found, local: i64) -> i64
    requires { IsDigits local }
    ensures { result ≡ spec.instant_by local found }
{
    match found {
        Found::Shown(offset) => local - offset as i64,
        Found::Skipped(offset) => local - offset as i64,
        Found::Nowhere => local,
    }
}

/// Whether what was found is that the local time is shown.
pub fn is_shown(found: Found) -> bool
    ensures { result ≡ spec.is_shown found }
{
    matches!(found, Found::Shown(_))
}

/// The numbers of a list in rising order, each once.
fn rising(numbers: List<i64>) -> Result<List<i64>, NoMemory>
    ensures { IfOk result (λ r. r ≡ ascending numbers) }
{
    let mut items = numbers.into_vec();
    if items.sort().is_err() {
        return Err(NoMemory);
    }
    items.dedup();
    Ok(List::from_vec(items))
}

/// A span for each border: what both lists of spans say there together.
fn joined_at(
    alloc: Global,
    first: &[Span],
    second: &[Span],
    borders: &[i64],
) -> Result<List<Span>, NoMemory>
    requires first { AllPairs (λ (a b : Span). a.from <ℤ b.from) first.now }
    requires second { AllPairs (λ (a b : Span). a.from <ℤ b.from) second.now }
    ensures { IfOk result (λ r. r ≡ map (spec.span_at (λ p. spec.best (spec.value_at first.now p) (spec.value_at second.now p))) borders.now) }
{
    let mut spans = List::new(alloc);
    for p in borders {
        let found = best(value_at(first, *p), value_at(second, *p));
        spans.push(Span { from: *p, found })?;
    }
    Ok(spans)
}

/// The borders of two lists of spans behind some others.
fn with_borders(borders: List<i64>, spans: &[Span]) -> Result<List<i64>, NoMemory>
    ensures { IfOk result (λ r. r ≡ borders ++ map (λ (p : Span). p.from) spans.now) }
{
    let mut all = borders;
    for p in spans {
        all.push(p.from)?;
    }
    Ok(all)
}

/// The least digits.
const LOWEST: i64 = -200_000_000_000_000;

/// Whether digits may lie within a day of an instant.
fn is_near(at: i64) -> bool
    ensures { result ≡ (int_le (neg_ℤ (pos 300_000_000_000_000)) at && int_le at (pos 300_000_000_000_000)) }
{
    -300_000_000_000_000 <= at && at <= 300_000_000_000_000
}

/// Whether these are digits.
fn are_digits(local: i64) -> bool
    ensures { result ≡ (int_le (neg_ℤ (pos 200_000_000_000_000)) local && int_le local (pos 200_000_000_000_000)) }
{
    -200_000_000_000_000 <= local && local <= 200_000_000_000_000
}

/// A moment by an offset.
fn sum_of(at: i64, offset: i32) -> i64
    requires low { neg_ℤ (pos 300_000_000_000_000) ≤ℤ at }
    requires high { at ≤ℤ pos 300_000_000_000_000 }
    requires offset { IsOffset offset }
    ensures { result ≡ at +ℤ offset }
{
    at + offset as i64
}

/// The local time at which an offset begins or ends to hold; none where it lies beyond all digits.
fn border_of(at: i64, offset: i32) -> Option<i64>
    requires { IsOffset offset }
    ensures some { IfSome result (λ b. (b ≡ at +ℤ offset) × IsDigits b) }
    ensures none { IfNone result (spec.IsBeyond (at +ℤ offset)) }
{
    if is_near(at) {
        let border = sum_of(at, offset);
        if are_digits(border) {
            return Some(border);
        }
        return None;
    }
    None
}

/// A list of borders with one more.
fn pushed(borders: List<i64>, border: i64) -> Result<List<i64>, NoMemory>
    ensures { IfOk result (λ r. r ≡ borders ++ border ∷ []) }
{
    let mut all = borders;
    all.push(border)?;
    Ok(all)
}

/// A list of borders with that at which a stretch begins.
fn with_begin(borders: List<i64>, table: &ZoneTable, k: usize) -> Result<List<i64>, NoMemory>
    requires table { IsTable table.now }
    requires within { k ≤ length table.now.onsets }
    ensures { IfOk result (λ r. spec.IsWith borders r (k == 0) (spec.begin_border table.now k)) }
{
    if k == 0 {
        return Ok(borders);
    }
    match border_of(
        table.onsets.as_slice()[k - 1].at.0,
        stretch_offset(table, k),
    ) {
        Some(border) => {
            let all = pushed(borders, border)?;
            Ok(all)
        }
        None => Ok(borders),
    }
}

/// A list of borders with that at which a stretch ends.
fn with_end(borders: List<i64>, table: &ZoneTable, k: usize) -> Result<List<i64>, NoMemory>
    requires table { IsTable table.now }
    requires within { k ≤ length table.now.onsets }
    ensures { IfOk result (λ r. spec.IsWith borders r (k == length table.now.onsets) (spec.end_border table.now k)) }
{
    if k == table.onsets.len() {
        return Ok(borders);
    }
    match border_of(table.onsets.as_slice()[k].at.0, stretch_offset(table, k)) {
        Some(border) => {
            let all = pushed(borders, border)?;
            Ok(all)
        }
        None => Ok(borders),
    }
}

/// Whether the onset at which a stretch begins leads past a local time.
fn leads_up(table: &ZoneTable, local: i64, k: usize) -> bool
    requires near { IsDigits local }
    requires within { k ≤ length table.now.onsets }
    ensures { result ≡ spec.leads_up table.now local k }
{
    if k == 0 {
        return false;
    }
    leads_past(&table.onsets.as_slice()[k - 1], local)
}

/// What one stretch makes of a local time.
fn found_in(table: &ZoneTable, local: i64, k: usize) -> Found
    requires near { IsDigits local }
    requires within { k ≤ length table.now.onsets }
    ensures { result ≡ spec.found_in table.now local k }
{
    if has_local(table, local, k) {
        return Found::Shown(stretch_offset(table, k));
    }
    if leads_up(table, local, k) {
        return Found::Skipped(stretch_offset(table, k - 1));
    }
    Found::Nowhere
}

/// A span for each border: what one stretch makes of it.
fn stretch_at(
    alloc: Global,
    table: &ZoneTable,
    k: usize,
    borders: &[i64],
) -> Result<List<Span>, NoMemory>
    requires within { k ≤ length table.now.onsets }
    requires digits { All IsDigits borders.now }
    ensures { IfOk result (λ r. r ≡ map (spec.span_at (λ p. spec.found_in table.now p k)) borders.now) }
{
    let mut spans = List::new(alloc);
    for p in borders {
        let found = found_in(table, *p, k);
        spans.push(Span { from: *p, found })?;
    }
    Ok(spans)
}

/// The lowest digits alone.
fn lowest_border(alloc: Global) -> Result<List<i64>, NoMemory>
    ensures { IfOk result (λ r. r ≡ spec.lowest ∷ []) }
{
    let mut borders = List::new(alloc);
    borders.push(LOWEST)?;
    Ok(borders)
}

/// The borders of a stretch.
fn stretch_borders(alloc: Global, table: &ZoneTable, k: usize) -> Result<List<i64>, NoMemory>
    requires table { IsTable table.now }
    requires within { k ≤ length table.now.onsets }
    ensures { IfOk result (λ r. spec.HasBordersOf table.now k r) }
{
    let lowest = lowest_border(alloc)?;
    let begun = with_begin(lowest, table, k)?;
    let ended = with_end(begun, table, k)?;
    Ok(ended)
}

/// The spans of one stretch.
fn stretch_spans(alloc: Global, table: &ZoneTable, k: usize) -> Result<List<Span>, NoMemory>
    requires table { IsTable table.now }
    requires within { k ≤ length table.now.onsets }
    ensures { IfOk result (λ r. spec.IsSpans table.now k 1 r) }
{
    let borders = stretch_borders(alloc, table, k)?;
    let sorted = rising(borders)?;
    let spans = stretch_at(alloc, table, k, sorted.as_slice())?;
    Ok(spans)
}

/// The spans of two parts together.
fn joined(alloc: Global, first: &[Span], second: &[Span]) -> Result<List<Span>, NoMemory>
    requires first { AllPairs (λ (a b : Span). a.from <ℤ b.from) first.now }
    requires second { AllPairs (λ (a b : Span). a.from <ℤ b.from) second.now }
    ensures { IfOk result (λ r. spec.IsJoined first.now second.now r) }
{
    let lowest = lowest_border(alloc)?;
    let some = with_borders(lowest, first)?;
    let all = with_borders(some, second)?;
    let sorted = rising(all)?;
    let spans = joined_at(alloc, first, second, sorted.as_slice())?;
    Ok(spans)
}

/// The spans of the stretches from one to another: those of both halves, joined. Of n stretches this
/// takes n log² n steps.
pub fn spans_between(
    alloc: Global,
    table: &ZoneTable,
    first: usize,
    last: usize,
) -> Result<List<Span>, NoMemory>
    requires table { IsTable table.now }
    requires order { first ≤ last }
    requires within { last ≤ length table.now.onsets }
    ensures { IfOk result (λ r. spec.IsSpans table.now first (last - first + 1) r) }
{
    if first == last {
        let alone = stretch_spans(alloc, table, first)?;
        return Ok(alone);
    }
    let middle = first + (last - first) / 2;
    let earlier = spans_between(alloc, table, first, middle)?;
    let later = spans_between(alloc, table, middle + 1, last)?;
    let both = joined(alloc, earlier.as_slice(), later.as_slice())?;
    Ok(both)
}
