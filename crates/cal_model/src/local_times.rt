//! Many conversions in one zone (RFC 5545, 3.3.5 and 3.6.5).
ghost use Rattle.std.specs.Prelude.{ℕ, ◌≡◌, ◌+◌, length, IfOk, IfSome};
ghost use Rattle.std.specs.Bool.{OnTrue, OnFalse};
ghost use Rattle.std.proofs.Props.{props};
ghost use Rattle.cal_model.specs.Values.LocalTimes.{local_seconds};
ghost use Rattle.cal_model.specs.Conversions.LocalSpans.{IsSpansOf, IsSpansOf-prop, IsTable-prop};
ghost use Rattle.cal_model.specs.TimeZones.TableBounds.{IsTable, IsDigits};
ghost use Rattle.cal_model.specs.TimeZones.Zones as spec;

use crate::local_span::{Span, instant_by, is_shown, spans_between, value_at};
use crate::zone::{Onset, ZoneTable};
use crate::zone_time;
use crate::zone_time::seconds_of;
use cal_base::{List, NoMemory};
use cal_moment::{Local, Utc};
use std::alloc::Global;

/// How many onsets a group has. Where no group lies within two days, no more than two groups lie near
/// any time, and to look at each of their onsets is cheaper than to make spans.
const GROUP: usize = 16;

/// In seconds: the onsets that matter to a local time lie at most a day from its digits.
const TWO_DAYS: i64 = 172_800;

/// Whether a group of onsets and the one behind it lie within two days.
fn is_crowded(onsets: &[Onset]) -> bool {
    let mut next = GROUP;
    'groups: while next < onsets.len() {
        if onsets[next].at.0 <= onsets[next - GROUP].at.0.saturating_add(TWO_DAYS) {
            return true;
        }
        next += GROUP;
    }
    false
}

/// The spans of a zone whose onsets lie close together.
fn spans_of(alloc: Global, table: &ZoneTable) -> Result<Option<List<Span>>, NoMemory>
    requires { IsTable table.now }
    ensures { IfOk result (λ spans. IfSome spans (IsSpansOf table.now)) }
{
    let onsets = table.onsets.as_slice();
    if is_crowded(onsets) {
        let spans = spans_between(alloc, table, 0, onsets.len())?;
        return Ok(Some(spans));
    }
    Ok(None)
}

/// The instant of a local time, by the spans of its zone.
fn instant_in(table: &ZoneTable, spans: &[Span], local: i64) -> i64
    requires table { IsTable table.now }
    requires spans { IsSpansOf table.now spans.now }
    requires near { IsDigits local }
    ensures { result ≡ spec.instant_of table.now local }
{
    instant_by(value_at(spans, local), local)
}

/// Whether some instant has a local time, by the spans of its zone.
fn exists_in(table: &ZoneTable, spans: &[Span], local: i64) -> bool
    requires table { IsTable table.now }
    requires spans { IsSpansOf table.now spans.now }
    requires near { IsDigits local }
    ensures { result ≡ spec.exists_in table.now local }
{
    is_shown(value_at(spans, local))
}

/// The local times of a zone, for many conversions in it. They are made once from its table; then each
/// conversion costs a search and a few steps, however close the onsets lie. For one conversion there
/// are the functions `to_utc` and `exists` over the table itself, which look at each onset within a
/// day.
#[derive(Drop)]
pub struct LocalTimes<'a> {
    /// The zone.
    pub table: &'a ZoneTable,
    /// Only where onsets lie close together.
    spans: Option<List<Span>>,
    pub ghost zone: { IsTable table.now } by { IsTable-prop table.now },
    ghost right: { ∥ IfSome spans (IsSpansOf table.now) ∥₁ },
}

impl<'a> LocalTimes<'a> {
    /// The local times of a zone. Of n onsets that lie close together this takes n log² n steps, and
    /// of others n.
    pub fn of(alloc: Global, table: &'a ZoneTable) -> Result<LocalTimes<'a>, NoMemory>
        requires { IsTable table.now }
        ensures { IfOk result (λ times. times.table.now ≡ table.now) }
    {
        let spans = spans_of(alloc, table)?;
        Ok(LocalTimes { table, spans })
    }

    /// Whether some instant has this local time.
    pub fn exists(&self, local: Local) -> bool
        ensures value { result ≡ spec.exists_in self.now.table.now (local_seconds local) }
        ensures shown { OnTrue result (spec.IsShown self.now.table.now (local_seconds local)) }
        ensures skipped { OnFalse result (spec.IsSkipped self.now.table.now (local_seconds local)) }
    {
        match &self.spans {
            Some(spans) => exists_in(self.table, spans.as_slice(), seconds_of(local)),
            None => zone_time::exists(self.table, local),
        }
    }

    /// The instant of a local time: the least that has it, so the first of two; and of a time that a
    /// gap skips, the instant by the offset before the gap.
    pub fn to_utc(&self, local: Local) -> Utc
        ensures value { result.0 ≡ spec.instant_of self.now.table.now (local_seconds local) }
        ensures meaning { spec.IsInstantOf self.now.table.now (local_seconds local) result.0 }
    {
        match &self.spans {
            Some(spans) => Utc(instant_in(self.table, spans.as_slice(), seconds_of(local))),
            None => zone_time::to_utc(self.table, local),
        }
    }
}
