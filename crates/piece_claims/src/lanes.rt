//! The open origins of each window of the horizon.
ghost use Rattle.std.specs.Prelude.{◌≡◌, ◌≢◌, ℕ, ◌+◌, ◌<◌, ◌≤◌, ◌^◌, length, replicate, false, [], ◌∷◌, OnOk, IfOk, MatchOption, pos, negsuc, ◌+ℤ◌, ◌≤ℤ◌};
ghost use Rattle.piece_claims.specs.Boards.{is_open_if, pair_at};
ghost use Rattle.piece_claims.specs.Lanes.{AreLanes, AreEmptyTo, AreSameLanes, AreSwept, IsNext, IsRefreshed, IsRefreshedAt};
ghost use Rattle.piece_claims.specs.Out.{pairs_out};

use crate::claimed::is_out;
use cal_base::NoMemory;
use number_set::NumberSet;
use piece_index::Index;
use std::alloc::Global;
use std::marker::Model;

/// How many windows the horizon has.
pub(crate) const WINDOWS: usize = 13;

/// The place of a window in the horizon, where it lies there.
pub(crate) fn place_in(first: i32, window: i32) -> Option<usize>
    ensures { MatchOption result ((k : ℕ) → k < 13 → window ≢ (first +ℤ pos k)) (λ place. (place < 13) × (window ≡ (first +ℤ pos place))) }
{
    let place = i64::from(window) - i64::from(first);
    if place < 0 || place >= WINDOWS as i64 {
        return None;
    }
    Some(place as usize)
}

/// Whether the pair of an object that is alive, or is not, is open.
pub(crate) fn is_open_at(
    alive: bool,
    index: &Index,
    out: &[(u64, i32)],
    origin: u64,
    window: i32,
) -> bool
    ensures { result ≡ is_open_if alive index.now.pieces (pairs_out out.now) (pair_at origin window) }
{
    if !alive {
        return false;
    }
    if is_out(out, origin, window) {
        return false;
    }
    index.get(origin, window).is_none()
}

/// Finds out anew in which windows an object is open. Takes no memory.
pub(crate) fn refresh(
    lanes: &mut [NumberSet],
    first: i32,
    alive: bool,
    index: &Index,
    out: &[(u64, i32)],
    origin: u64,
)
    requires lanes { AreLanes lanes.old (origin + 1) }
    requires low { negsuc (2 ^ 30) ≤ℤ first }
    requires high { first ≤ℤ pos (2 ^ 30) }
    ensures lanes { IsRefreshed lanes.old lanes.new first origin (λ window. is_open_if alive index.now.pieces (pairs_out out.now) (pair_at origin window)) }
{
    for k in 0..WINDOWS {
        let window = first + k as i32;
        let open = is_open_at(alive, index, out, origin, window);
        lanes[k].put(origin, open);
    }
}

/// Makes room for so many origins in each set.
fn grow_all(sets: &mut [NumberSet], bound: u64) -> Result<(), NoMemory>
    requires { length sets.old ≡ 13 }
    ensures ok { OnOk result (AreLanes sets.new bound) }
    ensures same { AreSameLanes sets.old sets.new }
{
    for k in 0..WINDOWS {
        sets[k].grow(bound)?;
    }
    Ok(())
}

/// The least origin of the first set that has one, and its window.
fn least_open(lanes: &[NumberSet], first: i32) -> Option<(u64, i32)>
    requires lanes { length lanes.now ≡ 13 }
    requires low { negsuc (2 ^ 30) ≤ℤ first }
    requires high { first ≤ℤ pos (2 ^ 30) }
    ensures { MatchOption result (AreEmptyTo lanes.now 13) (λ p. IsNext lanes.now first p.0 p.1) }
{
    for k in 0..WINDOWS {
        if let Some(origin) = lanes[k].least() {
            return Some((origin, first + k as i32));
        }
    }
    None
}

/// The open origins of each window, in the order of the windows.
#[derive(Drop)]
pub(crate) struct Lanes {
    sets: Vec<NumberSet>,
}

impl Model for Lanes {
    ghost use Rattle.std.specs.Prelude.{◌≡◌, Bool, List, length};

    ghost Value = { List (List Bool) };

    ghost view = { λ l. l.sets.items };

    ghost invariant = { λ l. length l.sets.items ≡ 13 };
}

/// So many sets without a number, each with the bound 1.
fn empty_sets(alloc: Global) -> Result<Vec<NumberSet>, NoMemory>
    ensures { IfOk result (λ v. v.items ≡ replicate 13 (false ∷ [])) }
{
    let mut sets = Vec::new(alloc);
    while sets.len() < WINDOWS {
        let set = NumberSet::new(alloc)?;
        if sets.push(set).is_err() {
            return Err(NoMemory);
        }
    }
    Ok(sets)
}

impl Lanes {
    /// No origin is open, and there is room for one.
    pub(crate) fn new(alloc: Global) -> Result<Lanes, NoMemory>
        ensures { IfOk result (λ l. l ≡ replicate 13 (false ∷ [])) }
    {
        let sets = empty_sets(alloc)?;
        Ok(Lanes { sets })
    }

    /// Finds out anew in which windows, from the first one on, an object is open. Takes no memory.
    pub(crate) fn refresh(
        &mut self,
        first: i32,
        alive: bool,
        index: &Index,
        out: &[(u64, i32)],
        origin: u64,
    )
        requires lanes { AreLanes self.old (origin + 1) }
        requires low { negsuc (2 ^ 30) ≤ℤ first }
        requires high { first ≤ℤ pos (2 ^ 30) }
        ensures lanes { IsRefreshed self.old self.new first origin (λ window. is_open_if alive index.now.pieces (pairs_out out.now) (pair_at origin window)) }
    {
        refresh(&mut self.sets, first, alive, index, out, origin);
    }

    /// Finds out anew whether an object is open in a window. Takes no memory.
    pub(crate) fn refresh_at(
        &mut self,
        first: i32,
        alive: bool,
        index: &Index,
        out: &[(u64, i32)],
        origin: u64,
        window: i32,
    )
        requires { AreLanes self.old (origin + 1) }
        ensures { IsRefreshedAt self.old self.new first origin window (is_open_if alive index.now.pieces (pairs_out out.now) (pair_at origin window)) }
    {
        let Some(place) = place_in(first, window) else {
            return;
        };
        let open = is_open_at(alive, index, out, origin, window);
        self.sets[place].put(origin, open);
    }

    /// The first open pair: the least origin of the first window that has one.
    pub(crate) fn next(&self, first: i32) -> Option<(u64, i32)>
        requires low { negsuc (2 ^ 30) ≤ℤ first }
        requires high { first ≤ℤ pos (2 ^ 30) }
        ensures { MatchOption result (AreEmptyTo self.now 13) (λ p. IsNext self.now first p.0 p.1) }
    {
        least_open(&self.sets, first)
    }

    /// Makes room for so many origins. Where there is room already this takes no memory; without
    /// memory the sets are as they were.
    pub(crate) fn grow(&mut self, bound: u64) -> Result<(), NoMemory>
        ensures ok { OnOk result (AreLanes self.new bound) }
        ensures same { AreSameLanes self.old self.new }
    {
        grow_all(&mut self.sets, bound)
    }
}

/// Finds out anew in which windows each of so many objects is open, where from there on none is.
/// Takes no memory.
pub(crate) fn refresh_all(
    lanes: &mut Lanes,
    first: i32,
    live: &NumberSet,
    index: &Index,
    out: &[(u64, i32)],
    entries: u64,
)
    requires lanes { AreLanes lanes.old entries }
    requires low { negsuc (2 ^ 30) ≤ℤ first }
    requires high { first ≤ℤ pos (2 ^ 30) }
    ensures lanes { AreSwept lanes.old lanes.new first live.now index.now.pieces (pairs_out out.now) entries }
{
    for origin in 0..entries {
        let alive = live.contains(origin);
        lanes.refresh(first, alive, index, out, origin);
    }
}
