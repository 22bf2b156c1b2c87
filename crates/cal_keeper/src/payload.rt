//! The payload of a record, written field by field.
ghost use Rattle.std.specs.Prelude.{◌≡◌, ◌+◌, ◌<◌, ◌≤◌, ◌^◌, ◌++◌, ◌∷◌, [], length, All, flat_map, is_ok, IfOk, OnErr, ℤ, pos};
ghost use Rattle.std.specs.Int.{w16, w32, w64, to_be_bytes};
ghost use Rattle.cal_base.specs.World.Outside.{Rose};
ghost use Rattle.cal_journal.specs.KeptEntries.{kept_entry};
ghost use Rattle.cal_model.specs.History.KeptChanges.{kept_change};
ghost use Rattle.cal_keeper.specs.Steps.WriteRuns.{Puts};
ghost use Rattle.cal_keeper.specs.declared.principals.PrincipalCounts.{PrincipalCounts};
ghost use Rattle.cal_keeper.specs.Files.Payloads as spec;

use crate::disk::Disk;
use crate::writing::{put, put_long, put_name, put_two};
use cal_base::{Failed, Octets};
use cal_journal::Entry;
use cal_model::{Change, Grant, PropSet, Who};

/// The number of a change's kind.
pub(crate) fn kind_of(change: &Change) -> u8
    ensures { result ≡ spec.kind_of (kept_change change.now) }
{
    match change {
        Change::Put(_) => 1,
        Change::DeleteObject(_) => 2,
        Change::DeleteCalendar(_, _) => 3,
        Change::Make(_, _, _, _) => 4,
        Change::Patch(_, _, _, _) => 5,
        Change::Acl(_, _, _, _) => 6,
    }
}

/// The number of the user whose home a change is in.
pub(crate) fn home_of(change: &Change) -> u32
    ensures { result ≡ spec.home_of (kept_change change.now) }
{
    match change {
        Change::Put(stored) => stored.path.home,
        Change::DeleteObject(stored) => stored.path.home,
        Change::DeleteCalendar(home, _) => *home,
        Change::Make(home, _, _, _) => *home,
        Change::Patch(home, _, _, _) => *home,
        Change::Acl(home, _, _, _) => *home,
    }
}

/// The name of the calendar that a change is in.
pub(crate) fn calendar_of(change: &Change) -> &[u8]
    ensures { result.now ≡ spec.calendar_of (kept_change change.now) }
{
    match change {
        Change::Put(stored) => stored.path.calendar.as_slice(),
        Change::DeleteObject(stored) => stored.path.calendar.as_slice(),
        Change::DeleteCalendar(_, name) => name.as_slice(),
        Change::Make(_, name, _, _) => name.as_slice(),
        Change::Patch(_, name, _, _) => name.as_slice(),
        Change::Acl(_, name, _, _) => name.as_slice(),
    }
}

/// Writes what all kinds have in front.
fn put_shared<D: Disk>(disk: &mut D, place: u64, entry: &Entry) -> Result<u64, Failed>
    requires from_1970 { entry.now.moment ≡ pos (spec.seconds_of entry.now.moment) }
    requires name { length (spec.calendar_of (kept_change entry.now.change)) < 256 }
    ensures never_falls { D.faults disk.old ≤ D.faults disk.new }
    ensures failed { OnErr result (Rose (D.faults disk.old) (D.faults disk.new)) }
    ensures puts { Puts place (spec.shared_text (kept_entry entry.now)) (is_ok result) (D.past disk.old) (D.past disk.new) }
    ensures end { IfOk result (λ end. end ≡ place + length (spec.shared_text (kept_entry entry.now))) }
    ensures few { IfOk result (λ end. end ≤ 2 ^ 62) }
{
    let moment = entry.moment as u64;
    let at = put_two(
        disk,
        place,
        &[kind_of(&entry.change)],
        &entry.who.to_be_bytes(),
    )?;
    let at = put_two(disk, at, &moment.to_be_bytes(), &entry.status.to_be_bytes())?;
    let at = put(disk, at, &home_of(&entry.change).to_be_bytes())?;
    put_name(disk, at, calendar_of(&entry.change))
}

/// Writes a value that may be absent.
fn put_value<D: Disk>(disk: &mut D, place: u64, value: &Option<Octets>) -> Result<u64, Failed>
    requires { length (spec.value_text value.now) < 2 ^ 32 }
    ensures never_falls { D.faults disk.old ≤ D.faults disk.new }
    ensures failed { OnErr result (Rose (D.faults disk.old) (D.faults disk.new)) }
    ensures puts { Puts place (spec.value_text value.now) (is_ok result) (D.past disk.old) (D.past disk.new) }
    ensures end { IfOk result (λ end. end ≡ place + length (spec.value_text value.now)) }
    ensures few { IfOk result (λ end. end ≤ 2 ^ 62) }
{
    match value {
        None => put(disk, place, &[0]),
        Some(value) => {
            let at = put(disk, place, &[1])?;
            put_long(disk, at, value.as_slice())
        }
    }
}

/// Writes a property with its value, or to be removed.
fn put_set<D: Disk>(disk: &mut D, place: u64, set: &PropSet) -> Result<u64, Failed>
    requires { length (spec.set_text set.now) < 2 ^ 32 }
    ensures never_falls { D.faults disk.old ≤ D.faults disk.new }
    ensures failed { OnErr result (Rose (D.faults disk.old) (D.faults disk.new)) }
    ensures puts { Puts place (spec.set_text set.now) (is_ok result) (D.past disk.old) (D.past disk.new) }
    ensures end { IfOk result (λ end. end ≡ place + length (spec.set_text set.now)) }
    ensures few { IfOk result (λ end. end ≤ 2 ^ 62) }
{
    let at = put_long(disk, place, set.name.space.as_slice())?;
    let at = put_long(disk, at, set.name.name.as_slice())?;
    put_value(disk, at, &set.value)
}

/// Whom a grant is for, as a kind and a number.
fn who_parts(who: Who) -> (u8, u32)
    ensures { result.0 ∷ to_be_bytes w32 result.1 ≡ spec.who_text who }
{
    match who {
        Who::Everyone => (0, 0),
        Who::Owner => (1, 0),
        Who::Principal(user) => (2, user),
        Who::Group(group) => (3, group),
    }
}

/// Writes a grant.
fn put_grant<D: Disk>(disk: &mut D, place: u64, grant: Grant) -> Result<u64, Failed>
    ensures never_falls { D.faults disk.old ≤ D.faults disk.new }
    ensures failed { OnErr result (Rose (D.faults disk.old) (D.faults disk.new)) }
    ensures puts { Puts place (spec.grant_text grant) (is_ok result) (D.past disk.old) (D.past disk.new) }
    ensures end { IfOk result (λ end. end ≡ place + 7) }
    ensures few { IfOk result (λ end. end ≤ 2 ^ 62) }
{
    let (kind, number) = who_parts(grant.who);
    let at = put_two(disk, place, &[kind], &number.to_be_bytes())?;
    put(disk, at, &grant.held.0.to_be_bytes())
}

/// Writes settings behind the size and their number.
fn put_sets<D: Disk>(disk: &mut D, place: u64, size: u32, sets: &[PropSet]) -> Result<u64, Failed>
    requires short { length (flat_map spec.set_text sets.now) < 2 ^ 32 }
    requires few { length sets.now < 2 ^ 32 }
    ensures never_falls { D.faults disk.old ≤ D.faults disk.new }
    ensures failed { OnErr result (Rose (D.faults disk.old) (D.faults disk.new)) }
    ensures puts { Puts place (spec.sets_text size sets.now) (is_ok result) (D.past disk.old) (D.past disk.new) }
    ensures end { IfOk result (λ end. end ≡ place + length (spec.sets_text size sets.now)) }
    ensures few { IfOk result (λ end. end ≤ 2 ^ 62) }
{
    let count = sets.len() as u32;
    let at = put_two(disk, place, &size.to_be_bytes(), &count.to_be_bytes())?;
    put_each_set(disk, at, sets)
}

/// Writes settings one behind the other.
fn put_each_set<D: Disk>(disk: &mut D, place: u64, sets: &[PropSet]) -> Result<u64, Failed>
    requires short { length (flat_map spec.set_text sets.now) < 2 ^ 32 }
    requires within { place ≤ 2 ^ 62 }
    ensures never_falls { D.faults disk.old ≤ D.faults disk.new }
    ensures failed { OnErr result (Rose (D.faults disk.old) (D.faults disk.new)) }
    ensures puts { Puts place (flat_map spec.set_text sets.now) (is_ok result) (D.past disk.old) (D.past disk.new) }
    ensures end { IfOk result (λ end. end ≡ place + length (flat_map spec.set_text sets.now)) }
    ensures few { IfOk result (λ end. end ≤ 2 ^ 62) }
{
    let mut at = place;
    'setting: for set in sets {
        at = put_set(disk, at, set)?;
    }
    Ok(at)
}

/// Writes grants behind the size and their number.
fn put_grants<D: Disk>(disk: &mut D, place: u64, size: u32, grants: &[Grant]) -> Result<u64, Failed>
    requires { length grants.now < 256 }
    ensures never_falls { D.faults disk.old ≤ D.faults disk.new }
    ensures failed { OnErr result (Rose (D.faults disk.old) (D.faults disk.new)) }
    ensures puts { Puts place (spec.grants_text size grants.now) (is_ok result) (D.past disk.old) (D.past disk.new) }
    ensures end { IfOk result (λ end. end ≡ place + length (spec.grants_text size grants.now)) }
    ensures few { IfOk result (λ end. end ≤ 2 ^ 62) }
{
    let at = put_two(disk, place, &size.to_be_bytes(), &[grants.len() as u8])?;
    put_each_grant(disk, at, grants)
}

/// Writes grants one behind the other.
fn put_each_grant<D: Disk>(disk: &mut D, place: u64, grants: &[Grant]) -> Result<u64, Failed>
    requires { place ≤ 2 ^ 62 }
    ensures never_falls { D.faults disk.old ≤ D.faults disk.new }
    ensures failed { OnErr result (Rose (D.faults disk.old) (D.faults disk.new)) }
    ensures puts { Puts place (flat_map spec.grant_text grants.now) (is_ok result) (D.past disk.old) (D.past disk.new) }
    ensures end { IfOk result (λ end. end ≡ place + length (flat_map spec.grant_text grants.now)) }
    ensures few { IfOk result (λ end. end ≤ 2 ^ 62) }
{
    let mut at = place;
    'granting: for grant in grants {
        at = put_grant(disk, at, *grant)?;
    }
    Ok(at)
}

/// Writes what a change's kind has behind the calendar's name.
fn put_own<D: Disk>(disk: &mut D, place: u64, change: &Change) -> Result<u64, Failed>
    requires short { length (spec.own_text (kept_change change.now)) < 2 ^ 32 }
    requires form { (counts : PrincipalCounts) × spec.ChangeHasForm counts (kept_change change.now) }
    requires within { place ≤ 2 ^ 62 }
    ensures never_falls { D.faults disk.old ≤ D.faults disk.new }
    ensures failed { OnErr result (Rose (D.faults disk.old) (D.faults disk.new)) }
    ensures puts { Puts place (spec.own_text (kept_change change.now)) (is_ok result) (D.past disk.old) (D.past disk.new) }
    ensures end { IfOk result (λ end. end ≡ place + length (spec.own_text (kept_change change.now))) }
    ensures few { IfOk result (λ end. end ≤ 2 ^ 62) }
{
    match change {
        Change::Put(stored) => {
            let at = put_name(disk, place, stored.path.object.as_slice())?;
            put_long(disk, at, stored.octets.as_slice())
        }
        Change::DeleteObject(stored) => put_name(disk, place, stored.path.object.as_slice()),
        Change::DeleteCalendar(_, _) => Ok(place),
        Change::Make(_, _, sets, size) => put_sets(disk, place, *size, sets.as_slice()),
        Change::Patch(_, _, sets, size) => put_sets(disk, place, *size, sets.as_slice()),
        Change::Acl(_, _, grants, size) => put_grants(disk, place, *size, grants.as_slice()),
    }
}

/// Writes an entry's payload.
pub(crate) fn put_payload<D: Disk>(disk: &mut D, place: u64, entry: &Entry) -> Result<u64, Failed>
    requires { (counts : PrincipalCounts) × spec.HasForm counts (kept_entry entry.now) }
    ensures never_falls { D.faults disk.old ≤ D.faults disk.new }
    ensures failed { OnErr result (Rose (D.faults disk.old) (D.faults disk.new)) }
    ensures puts { Puts place (spec.payload_of (kept_entry entry.now)) (is_ok result) (D.past disk.old) (D.past disk.new) }
    ensures end { IfOk result (λ end. end ≡ place + length (spec.payload_of (kept_entry entry.now))) }
    ensures few { IfOk result (λ end. end ≤ 2 ^ 62) }
{
    let at = put_shared(disk, place, entry)?;
    put_own(disk, at, &entry.change)
}
