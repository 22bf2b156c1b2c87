//! A disk in memory, for tests and for runs whose every stop is looked at.
ghost use Rattle.std.specs.Prelude.{◌≡◌, ℕ, ◌+◌, ◌-◌, ◌<◌, ◌≤◌, ◌^◌, ◌++◌, ◌∷◌, [], length, take, drop, min, Option, Some, IfSome, IfOk, IsTrue, IsErr, OnOk, OnErr};
ghost use Rattle.cal_base.specs.World.Memory.{no_calls, is_listed};
ghost use Rattle.cal_keeper.specs.Disks.CrashModel.{reading, with_piece};
ghost use Rattle.cal_keeper.specs.Disks.MemoryDisks.{past_of, past_told, octets_of, octets_after, past_up_to, past_below, last_synced, stopped_image, StopMayLeave, current_octets, disk_after_fault, disk_after_success, disk_after, wrote_now};
ghost use Rattle.cal_keeper.specs.Disks.PossibleImages.{possible_told};

use crate::disk::Disk;
use cal_base::{Failed, FailingCalls, List, NoMemory, Octets, ReservedList};
use std::alloc::Global;
use std::marker::Model;

/// The furthest place at which a read or a write may end.
const FURTHEST: u64 = 1 << 62;

/// What a call did to the file.
#[derive(Drop)]
pub enum Done {
    /// The piece was written whole at the place.
    Wrote(u64, Octets),
    /// All was brought to the disk.
    Synced,
}

/// A call that did something to the file, with its number.
#[derive(Drop)]
pub struct Step {
    /// The number of the call.
    pub call: u64,
    /// What it did.
    pub done: Done,
}

/// A disk in memory, which keeps what each of its calls did. A call fails where its number is listed,
/// where it would end past 2^62, and where there is no memory for it; a call that failed did nothing.
#[derive(Drop)]
pub struct MemoryDisk {
    alloc: Global,
    /// The octets that it began with, all of them on the disk.
    first: Octets,
    /// The octets as they read, once something was written.
    current: Option<Vec<u8>>,
    steps: ReservedList<Step>,
    calls: FailingCalls,
}

impl Model for MemoryDisk {
    ghost use Rattle.cal_keeper.specs.Disks.MemoryDisks.{DiskState, AreCurrent};

    ghost Value = { DiskState };

    ghost view = { λ d. record { first = d.first; steps = d.steps.items; calls = d.calls } };

    ghost invariant = { λ d. AreCurrent d.first d.steps.items d.current };
}

impl MemoryDisk {
    /// A disk whose file has these octets, all of them on the disk, and of whose calls those with the
    /// numbers in `failing` fail. Calls are counted from 0.
    pub fn new(alloc: Global, octets: Octets, failing: List<u64>) -> MemoryDisk
        ensures { result ≡ record { first = octets; steps = []; calls = no_calls failing } }
    {
        MemoryDisk {
            alloc,
            first: octets,
            current: None,
            steps: ReservedList::new(alloc),
            calls: FailingCalls::new(failing),
        }
    }

    /// How many calls there were.
    pub fn calls(&self) -> u64
        ensures { result ≡ self.now.calls.made }
    {
        self.calls.made()
    }

    /// What a stop within a call may leave: with the octets of that call and of all before it, as far as
    /// they did not fail, or as the last sync before it brought them to the disk.
    pub fn stopped(&self, call: u64, written: bool) -> Result<Octets, NoMemory>
        requires { call < self.now.calls.made }
        ensures image { IfOk result (λ image. image ≡ stopped_image self.now call written) }
        ensures left { IfOk result (λ image. StopMayLeave self.now call image) }
    {
        let octets = if written {
            written_up_to(
                self.alloc,
                self.first.as_slice(),
                self.steps.as_slice(),
                call,
            )
        } else {
            synced_below(
                self.alloc,
                self.first.as_slice(),
                self.steps.as_slice(),
                call,
            )
        };
        match octets {
            Ok(octets) => Ok(Octets::from_vec(octets)),
            Err(NoMemory) => Err(NoMemory),
        }
    }

    /// The octets as they read.
    pub fn octets(&self) -> &[u8]
        ensures { result.now ≡ octets_of self.now }
    {
        current_or(&self.current, self.first.as_slice())
    }
}

/// The first octets, or those that came after them.
fn current_or<'a>(current: &'a Option<Vec<u8>>, first: &'a [u8]) -> &'a [u8]
    ensures { result.now ≡ current_octets first.now current.now }
{
    match current {
        Some(octets) => octets.as_slice(),
        None => first,
    }
}

/// Octets with a piece written over those at a place.
fn laid(alloc: Global, octets: &[u8], place: u64, piece: &[u8]) -> Result<Vec<u8>, NoMemory>
    ensures { IfOk result (λ next. next.items ≡ with_piece place piece.now octets.now) }
{
    let mut next = copy_of(alloc, octets)?;
    if piece.is_empty() {
        return Ok(next);
    }
    if next.resize(place as usize, 0).is_err() {
        return Err(NoMemory);
    }
    if next.extend_from_slice(piece).is_err() {
        return Err(NoMemory);
    }
    if next
        .extend_from_slice(behind(octets, place as usize, piece.len()))
        .is_err()
    {
        return Err(NoMemory);
    }
    Ok(next)
}

/// What stands from a place on.
fn from_place(octets: &[u8], place: u64) -> &[u8]
    ensures { result.now ≡ drop place octets.now }
{
    if place < octets.len() as u64 {
        &octets[place as usize..]
    } else {
        &[]
    }
}

/// What stands behind a piece at a place.
fn behind(octets: &[u8], place: usize, count: usize) -> &[u8]
    ensures { result.now ≡ drop (place + count) octets.now }
{
    if place < octets.len() && count < octets.len() - place {
        &octets[place + count..]
    } else {
        &[]
    }
}

/// Copies as many octets as there are and fit.
fn copy_front(from: &[u8], into: &mut [u8]) -> usize
    ensures count { result ≡ min (length into.old) (length from.now) }
    ensures octets { into.new ≡ take result from.now ++ drop result into.old }
{
    let n = from.len().min(into.len());
    into[..n].copy_from_slice(&from[..n]);
    n
}

impl Disk for MemoryDisk {
    ghost faults = { λ d. d.calls.faults };

    ghost past = { λ d. past_told d };

    ghost possible = { λ d. possible_told d };

    fn len(&mut self) -> Result<u64, Failed>
        ensures listed { IsTrue (is_listed self.old.calls) → IsErr result }
        ensures fault { OnErr result (self.new ≡ disk_after_fault self.old) }
        ensures counted { IfOk result (λ n. n ≡ length (octets_of self.old)) }
        ensures few { IfOk result (λ n. n ≤ 2 ^ 62) }
        ensures after { OnOk result (self.new ≡ disk_after_success self.old) }
        ensures never_falls { self.old.calls.faults ≤ self.new.calls.faults }
    {
        let n = self.octets().len() as u64;
        if self.calls.is_listed() || FURTHEST < n {
            return Err(self.calls.fail());
        }
        self.calls.succeed();
        Ok(n)
    }

    fn read_at(&mut self, place: u64, into: &mut [u8]) -> Result<usize, Failed>
        ensures listed { IsTrue (is_listed self.old.calls) → IsErr result }
        ensures fault { OnErr result (self.new ≡ disk_after_fault self.old) }
        ensures place_kept { OnErr result (into.new ≡ into.old) }
        ensures counted { IfOk result (λ n. n ≡ min (length into.old) (length (octets_of self.old) - place)) }
        ensures octets { IfOk result (λ n. into.new ≡ take n (drop place (octets_of self.old)) ++ drop n into.old) }
        ensures few { IfOk result (λ n. place + n ≤ 2 ^ 62) }
        ensures after { OnOk result (self.new ≡ disk_after_success self.old) }
        ensures never_falls { self.old.calls.faults ≤ self.new.calls.faults }
    {
        if self.calls.is_listed() || ends_past(place, into.len()) {
            return Err(self.calls.fail());
        }
        let n = copy_front(from_place(self.octets(), place), into);
        self.calls.succeed();
        Ok(n)
    }

    fn write_at(&mut self, place: u64, piece: &[u8]) -> Result<(), Failed>
        ensures listed { IsTrue (is_listed self.old.calls) → IsErr result }
        ensures fault { OnErr result (self.new ≡ disk_after_fault self.old) }
        ensures few { OnOk result (place + length piece.now ≤ 2 ^ 62) }
        ensures after { OnOk result (self.new ≡ disk_after (wrote_now place piece.now) self.old) }
        ensures never_falls { self.old.calls.faults ≤ self.new.calls.faults }
    {
        if self.calls.is_listed() || ends_past(place, piece.len()) {
            return Err(self.calls.fail());
        }
        let Ok(next) = laid(self.alloc, self.octets(), place, piece) else {
            return Err(self.calls.fail());
        };
        let Ok(copy) = Octets::of(self.alloc, piece) else {
            return Err(self.calls.fail());
        };
        if self.steps.reserve(1).is_err() {
            return Err(self.calls.fail());
        }
        self.steps.push(Step {
            call: self.calls.made(),
            done: Done::Wrote(place, copy),
        });
        self.current = Some(next);
        self.calls.succeed();
        Ok(())
    }

    fn sync(&mut self) -> Result<(), Failed>
        ensures listed { IsTrue (is_listed self.old.calls) → IsErr result }
        ensures fault { OnErr result (self.new ≡ disk_after_fault self.old) }
        ensures after { OnOk result (self.new ≡ disk_after Done.Synced self.old) }
        ensures never_falls { self.old.calls.faults ≤ self.new.calls.faults }
    {
        if self.calls.is_listed() || self.steps.reserve(1).is_err() {
            return Err(self.calls.fail());
        }
        self.steps.push(Step {
            call: self.calls.made(),
            done: Done::Synced,
        });
        self.calls.succeed();
        Ok(())
    }
}

/// The octets after all writes up to a call.
fn written_up_to(
    alloc: Global,
    first: &[u8],
    steps: &[Step],
    call: u64,
) -> Result<Vec<u8>, NoMemory>
    ensures { IfOk result (λ octets. octets.items ≡ reading (past_up_to call first.now steps.now)) }
{
    let mut octets = copy_of(alloc, first)?;
    'writing: for step in steps {
        if step.call <= call {
            octets = stepped(alloc, octets, &step.done)?;
        }
    }
    Ok(octets)
}

/// The octets after the last sync below a call.
fn synced_below(alloc: Global, first: &[u8], steps: &[Step], call: u64) -> Result<Vec<u8>, NoMemory>
    ensures { IfOk result (λ octets. octets.items ≡ last_synced (past_below call first.now steps.now)) }
{
    let mut octets = copy_of(alloc, first)?;
    let mut synced = copy_of(alloc, first)?;
    'syncing: for step in steps {
        if step.call < call {
            octets = stepped(alloc, octets, &step.done)?;
            if let Done::Synced = &step.done {
                synced = copy_of(alloc, octets.as_slice())?;
            }
        }
    }
    Ok(synced)
}

/// The octets after a call.
fn stepped(alloc: Global, octets: Vec<u8>, done: &Done) -> Result<Vec<u8>, NoMemory>
    ensures { IfOk result (λ next. next.items ≡ octets_after octets.items done.now) }
{
    match done {
        Done::Wrote(place, piece) => laid(alloc, octets.as_slice(), *place, piece.as_slice()),
        Done::Synced => Ok(octets),
    }
}

/// A copy.
fn copy_of(alloc: Global, octets: &[u8]) -> Result<Vec<u8>, NoMemory>
    ensures { IfOk result (λ copy. copy.items ≡ octets.now) }
{
    match Vec::from_slice(alloc, octets) {
        Ok(copy) => Ok(copy),
        Err(_) => Err(NoMemory),
    }
}

/// Whether a read or a write of so many octets at a place would end past 2^62.
fn ends_past(place: u64, count: usize) -> bool
    ensures { (¬ IsTrue result) → place + count ≤ 2 ^ 62 }
{
    FURTHEST < place || FURTHEST - place < count as u64
}
