//! Zone conversion (RFC 5545, 3.3.5 and 3.6.5).

ghost use Rattle.std.specs.Prelude.{ℕ, pos, ◌+ℤ◌, ◌-ℤ◌, ◌≡◌, ◌<◌, ◌≤◌, length, true, false, int_le, slice_index_or, IfSome, IfNone};
ghost use Rattle.std.specs.Bool.{OnTrue, OnFalse};
ghost use Rattle.std.specs.List.{AllWithin};
ghost use Rattle.cal_model.specs.declared.zone.Onset.{Onset};
ghost use Rattle.cal_model.specs.Values.LocalTimes.{local_seconds};
ghost use Rattle.cal_model.specs.Conversions.Stretches as stretches;
ghost use Rattle.cal_model.specs.TimeZones.TableBounds.{IsRising, IsTable, IsDigits};
ghost use Rattle.cal_model.specs.TimeZones.Zones as spec;

use crate::zone::{Onset, ZoneTable};
use cal_moment::{Local, Utc};

/// How many onsets lie at or before an instant.
#[tactic(auto, using(crate::proofs::TimeZones::Onsets::is_partitioned))]
fn onsets_until(onsets: &[Onset], at: i64) -> usize
    requires { IsRising onsets.now }
    ensures bound { result ≤ length onsets.now }
    ensures before { AllWithin (λ (o : Onset). int_le o.at.0 at ≡ true) onsets.now 0 result }
    ensures after { AllWithin (λ (o : Onset). int_le o.at.0 at ≡ false) onsets.now result (length onsets.now) }
{
    onsets.partition_point(|o| o.at.0 <= at)
}

/// The offset of an onset.
fn offset_of(onsets: &[Onset], k: usize) -> i32
    requires { k < length onsets.now }
    ensures { (d : Onset) → result ≡ (slice_index_or onsets.now k d).offset }
{
    onsets[k].offset
}

/// The offset of the latest onset at or before an instant, or the offset before all of them.
#[tactic(auto, using(crate::proofs::TimeZones::Onsets::offset_among_none, crate::proofs::TimeZones::Onsets::offset_among_last), unfolding(crate::specs::TimeZones::Zones::offset_at))]
pub fn offset_at(table: &ZoneTable, at: Utc) -> i32
    requires { IsRising table.now.onsets }
    ensures value { result ≡ spec.offset_at table.now at.0 }
    ensures meaning { spec.IsOffsetAt table.now at.0 result }
{
    let onsets = table.onsets.as_slice();
    let n = onsets_until(onsets, at.0);
    if n == 0 {
        return table.before;
    }
    offset_of(onsets, n - 1)
}

/// The digits of a local moment in seconds from 1970.
pub(crate) fn seconds_of(local: Local) -> i64
    ensures value { result ≡ local_seconds local }
    ensures near { IsDigits result }
{
    local.day as i64 * 86_400 + local.second as i64
}

/// The offset that holds in a stretch.
pub fn stretch_offset(table: &ZoneTable, k: usize) -> i32
    requires { k ≤ length table.now.onsets }
    ensures { result ≡ stretches.offset_of_stretch table.now k }
{
    if k == 0 {
        return table.before;
    }
    table.onsets.as_slice()[k - 1].offset
}

/// Whether an instant lies in a stretch.
fn is_in_stretch(onsets: &[Onset], k: usize, at: i64) -> bool
    requires { k ≤ length onsets.now }
    ensures { result ≡ stretches.is_in_stretch onsets.now k at }
{
    (k == 0 || onsets[k - 1].at.0 <= at) && (k == onsets.len() || at < onsets[k].at.0)
}

/// The instant that the offset of a stretch makes of a local time.
fn instant_by(table: &ZoneTable, local: i64, k: usize) -> i64
    requires near { IsDigits local }
    requires within { k ≤ length table.now.onsets }
    ensures { result ≡ local -ℤ stretches.offset_of_stretch table.now k }
{
    local - stretch_offset(table, k) as i64
}

/// Whether a stretch has a moment with this local time.
#[tactic(auto, unfolding(crate::specs::Conversions::Stretches::has_local))]
pub fn has_local(table: &ZoneTable, local: i64, k: usize) -> bool
    requires near { IsDigits local }
    requires within { k ≤ length table.now.onsets }
    ensures { result ≡ stretches.has_local table.now local k }
{
    is_in_stretch(table.onsets.as_slice(), k, instant_by(table, local, k))
}

/// How many onsets lie a day or more before a local time: no offset makes it one of an earlier
/// stretch.
fn onsets_before(onsets: &[Onset], local: i64) -> usize
    requires rising { IsRising onsets.now }
    requires near { IsDigits local }
    ensures bound { result ≤ length onsets.now }
    ensures before { AllWithin (λ (o : Onset). int_le o.at.0 (local -ℤ pos 86400) ≡ true) onsets.now 0 result }
{
    onsets_until(onsets, local - 86_400)
}

/// How many onsets lie at most a day after a local time: no offset makes it one of a later stretch.
fn onsets_near(onsets: &[Onset], local: i64) -> usize
    requires rising { IsRising onsets.now }
    requires near { IsDigits local }
    ensures bound { result ≤ length onsets.now }
    ensures after { AllWithin (λ (o : Onset). int_le o.at.0 (local +ℤ pos 86400) ≡ false) onsets.now result (length onsets.now) }
{
    onsets_until(onsets, local + 86_400)
}

/// The first stretch that has a moment with this local time.
fn first_stretch(table: &ZoneTable, local: i64) -> Option<usize>
    requires table { IsTable table.now }
    requires near { IsDigits local }
    ensures within { IfSome result (λ k. k ≤ length table.now.onsets) }
    ensures there { IfSome result (λ k. stretches.has_local table.now local k ≡ true) }
    ensures first { IfSome result (λ k. (j : ℕ) → j < k → stretches.has_local table.now local j ≡ false) }
    ensures none { IfNone result ((j : ℕ) → j ≤ length table.now.onsets → stretches.has_local table.now local j ≡ false) }
{
    let onsets = table.onsets.as_slice();
    let last = onsets_near(onsets, local);
    for k in onsets_before(onsets, local)..last {
        if has_local(table, local, k) {
            return Some(k);
        }
    }
    if has_local(table, local, last) {
        Some(last)
    } else {
        None
    }
}

/// Whether some instant has this local time.
#[tactic(auto, using(crate::proofs::Conversions::StretchLemmas::exists_in_stretch, crate::proofs::Conversions::StretchLemmas::exists_in_none))]
fn exists_at(table: &ZoneTable, local: i64) -> bool
    requires table { IsTable table.now }
    requires near { IsDigits local }
    ensures { result ≡ spec.exists_in table.now local }
{
    first_stretch(table, local).is_some()
}

/// Whether the local time from an onset on is past this one.
pub fn leads_past(onset: &Onset, local: i64) -> bool
    requires near { IsDigits local }
    ensures { result ≡ stretches.leads_past local onset.now }
{
    let by_its_offset = local - onset.offset as i64;
    by_its_offset < onset.at.0
}

/// The first onset from which on the local time is past this one.
fn first_past(table: &ZoneTable, local: i64) -> Option<usize>
    requires table { IsTable table.now }
    requires near { IsDigits local }
    ensures within { IfSome result (λ k. k < length table.now.onsets) }
    ensures there { IfSome result (λ k. stretches.leads_past local (slice_index_or table.now.onsets k stretches.no_onset) ≡ true) }
    ensures first { IfSome result (λ k. AllWithin (λ (o : Onset). stretches.leads_past local o ≡ false) table.now.onsets 0 k) }
    ensures none { IfNone result (AllWithin (λ (o : Onset). stretches.leads_past local o ≡ false) table.now.onsets 0 (length table.now.onsets)) }
{
    let onsets = table.onsets.as_slice();
    for k in onsets_before(onsets, local)..onsets.len() {
        if leads_past(&onsets[k], local) {
            return Some(k);
        }
    }
    None
}

/// The instant of a local time that a gap skips: by the offset before the gap.
fn after_gap(table: &ZoneTable, local: i64) -> i64
    requires table { IsTable table.now }
    requires near { IsDigits local }
    requires skipped { spec.IsSkipped table.now local }
    ensures { spec.IsInstantOf table.now local result }
{
    match first_past(table, local) {
        Some(gap) => instant_by(table, local, gap),
        None => instant_by(table, local, 0),
    }
}

/// The instant of a local time.
fn instant_at(table: &ZoneTable, local: i64) -> i64
    requires table { IsTable table.now }
    requires near { IsDigits local }
    ensures { spec.IsInstantOf table.now local result }
{
    match first_stretch(table, local) {
        Some(k) => instant_by(table, local, k),
        None => after_gap(table, local),
    }
}

/// Whether some instant has this local time.
#[tactic(auto, using(crate::proofs::TimeZones::ConversionLaws::OnTrue_exists_in, crate::proofs::TimeZones::ConversionLaws::OnFalse_exists_in))]
pub fn exists(table: &ZoneTable, local: Local) -> bool
    requires { IsTable table.now }
    ensures value { result ≡ spec.exists_in table.now (local_seconds local) }
    ensures shown { OnTrue result (spec.IsShown table.now (local_seconds local)) }
    ensures skipped { OnFalse result (spec.IsSkipped table.now (local_seconds local)) }
{
    exists_at(table, seconds_of(local))
}

/// The instant of a local time: the least that has it, so the first of two; and of a time that a
/// gap skips, the instant by the offset before the gap.
pub fn to_utc(table: &ZoneTable, local: Local) -> Utc
    requires { IsTable table.now }
    ensures value { result.0 ≡ spec.instant_of table.now (local_seconds local) }
    ensures meaning { spec.IsInstantOf table.now (local_seconds local) result.0 }
{
    Utc(instant_at(table, seconds_of(local)))
}
