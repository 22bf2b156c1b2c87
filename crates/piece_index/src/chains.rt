//! The nodes of an index: a chain of all by age, and a chain of each object's nodes.
//!
//! A new node is the first of both chains, so an object's nodes stand in its chain in the order in
//! which they stand in the chain by age: both are read off one list, the newest first.
ghost use Rattle.std.specs.Prelude.{◌≡◌, ℕ, ◌+◌, ◌≤◌, Option, None, Some, [], ◌∷◌, ◌==◌, if◌then◌else◌, IsSome, IfErr, IfOk, OnOk, MatchOption, map, filter, length};
ghost use Rattle.std.specs.Option.{option_copied};
ghost use Rattle.std.specs.Ordering.{int_eq};
ghost use Rattle.slab.specs.Slab.{slab_len};
ghost use Rattle.piece_index.specs.Nodes.{next};
ghost use Rattle.piece_index.specs.Walks.{IsWalked, rows_of_window, entries_from};
ghost use Rattle.cal_model.specs.Pieces.PieceLists.{rows_at, rows_in, newest_within, is_piece_of, is_other_piece};
ghost use Rattle.piece_index.specs.Entries.{pieces_of, IsOneOut};
ghost use Rattle.std.specs.List.{last_or};
ghost use Rattle.piece_index.specs.Chains.{first, past, IsApart};
ghost use Rattle.piece_index.specs.Entries.{is_of, keys, keys_of, piece_of, removed, or_else};
ghost use Rattle.piece_index.specs.Firsts.{first_at};

use crate::links::{link, unlink};
use crate::node::Node;
use cal_base::{Arc, List, NoMemory, Steps};
use cal_model::{Piece, Row};
use slab::Slab;
use std::alloc::Global;
use std::collections::BTreeMap;
use std::marker::Model;
use std::sync::ledger::Ledger;

/// Nodes that contracts see as their numbers and pieces, the newest first.
#[derive(Drop)]
pub(crate) struct Chains {
    nodes: Slab<Node>,
    /// The newest node of each object that has one.
    firsts: BTreeMap<u64, usize>,
    newest: Option<usize>,
    oldest: Option<usize>,
}

impl Model for Chains {
    ghost use Rattle.std.specs.Prelude.{ℕ, List};
    ghost use Rattle.cal_model.specs.declared.piece.Piece.{Piece};

    ghost Value = { List (ℕ × Piece) };

    ghost use Rattle.piece_index.specs.Entries.{IsIndexed, entries_of};
    ghost use Rattle.piece_index.specs.Firsts.{first_at};

    ghost view = { λ c. entries_of c.nodes c.newest };

    ghost invariant = { λ c. IsIndexed c.nodes (first_at c.firsts) c.newest c.oldest (entries_of c.nodes c.newest) };
}

/// A number, or what lies past it where it is `key`.
fn past_key(key: usize, beyond: Option<usize>, at: Option<usize>) -> Option<usize>
    ensures { result ≡ past key beyond at }
{
    match at {
        Some(number) if number == key => beyond,
        other => other,
    }
}

/// A number, or `key` where there is none.
fn or_key(at: Option<usize>, key: usize) -> Option<usize>
    ensures { result ≡ or_else at key }
{
    match at {
        Some(number) => Some(number),
        None => Some(key),
    }
}

/// Where `key` is the first of an object, the first is from now on what lies past it. Takes no
/// memory.
fn move_first(firsts: &mut BTreeMap<u64, usize>, origin: u64, key: usize, next: Option<usize>)
    ensures { (o : ℕ) → first_at firsts.new o ≡ (if o == origin then past key next (first_at firsts.old o) else first_at firsts.old o) }
{
    let Some(first) = firsts.get_mut(&origin) else {
        return;
    };
    if *first != key {
        return;
    }
    match next {
        Some(next) => *first = next,
        None => {
            firsts.remove(&origin);
        }
    }
}

/// Whether a node's piece is of a window.
fn is_of_window(node: &Node, window: i32) -> bool
    ensures { result ≡ int_eq node.now.piece.window window }
{
    node.piece.window == window
}

/// The rows of the first piece of a window, from a node on along its object's chain. Takes no memory.
fn rows_from(nodes: &Slab<Node>, first: Option<usize>, window: i32) -> Option<&Arc<List<Row>>>
    requires { IsWalked (next nodes.now) (slab_len nodes.now) first }
    ensures { option_copied result ≡ rows_of_window window (entries_from nodes.now first) }
{
    let mut at = first;
    while let Some(key) = at {
        let Some(node) = nodes.get(key) else {
            return None;
        };
        if is_of_window(node, window) {
            return Some(&node.piece.rows);
        }
        at = node.next;
    }
    None
}

/// A piece again, with its rows shared.
fn share(piece: &Piece) -> Result<Piece, NoMemory>
    ensures { IfOk result (λ shared. shared ≡ piece.now) }
{
    Ok(Piece {
        origin: piece.origin,
        window: piece.window,
        rows: Arc::try_clone(&piece.rows)?,
    })
}

/// The pieces from a node on along its object's chain, with their rows shared.
fn pieces_from(
    alloc: Global,
    nodes: &Slab<Node>,
    first: Option<usize>,
) -> Result<List<Piece>, NoMemory>
    requires { IsWalked (next nodes.now) (slab_len nodes.now) first }
    ensures { IfOk result (λ pieces. pieces ≡ map (λ (e : ℕ × Piece). e.1) (entries_from nodes.now first)) }
{
    let mut pieces = List::new(alloc);
    let mut at = first;
    'nodes: while let Some(key) = at {
        let Some(node) = nodes.get(key) else {
            return Ok(pieces);
        };
        pieces.push(share(&node.piece)?)?;
        at = node.next;
    }
    Ok(pieces)
}

impl Chains {
    /// No nodes. It takes no memory yet.
    pub(crate) fn new(alloc: Global) -> Chains
        ensures { result ≡ [] }
    {
        Chains {
            nodes: Slab::new(alloc),
            firsts: BTreeMap::new(alloc),
            newest: None,
            oldest: None,
        }
    }

    /// The newest node of an object.
    pub(crate) fn first_of(&self, origin: u64) -> Option<usize>
        ensures key { result ≡ first (keys_of origin self.now) }
        ensures apart { IsApart (keys self.now) }
    {
        self.firsts.get(&origin).copied()
    }

    /// The oldest node.
    pub(crate) fn oldest(&self) -> Option<usize>
        ensures key { result ≡ last_or None (keys self.now) }
        ensures apart { IsApart (keys self.now) }
    {
        self.oldest
    }

    /// The rows of an object's piece in a window. Takes no memory.
    pub(crate) fn find(&self, origin: u64, window: i32) -> Option<&Arc<List<Row>>>
        ensures { option_copied result ≡ rows_at origin window (map (λ (e : ℕ × Piece). e.1) self.now) }
    {
        let first = self.firsts.get(&origin).copied();
        rows_from(&self.nodes, first, window)
    }

    /// The pieces of an object, the newest first, with their rows shared.
    pub(crate) fn pieces_of(&self, alloc: Global, origin: u64) -> Result<List<Piece>, NoMemory>
        ensures { IfOk result (λ pieces. pieces ≡ map (λ (e : ℕ × Piece). e.1) (filter (is_of origin) self.now)) }
    {
        let first = self.firsts.get(&origin).copied();
        pieces_from(alloc, &self.nodes, first)
    }

    /// Takes a node out. Takes no memory.
    pub(crate) fn take_out(&mut self, key: usize) -> Option<Piece>
        requires { IsSome (piece_of key self.old) }
        ensures value { result ≡ piece_of key self.old }
        ensures rest { self.new ≡ removed key self.old }
    {
        let Some(node) = unlink(&mut self.nodes, key) else {
            return None;
        };
        let Node {
            piece,
            older,
            newer,
            previous: _previous,
            next,
        } = node;
        self.newest = past_key(key, older, self.newest);
        self.oldest = past_key(key, newer, self.oldest);
        move_first(&mut self.firsts, piece.origin, key, next);
        Some(piece)
    }

    /// Puts a piece in as the newest. It takes its memory first.
    pub(crate) fn put(&mut self, piece: Piece) -> Result<(), Piece>
        ensures ok { OnOk result ((k : ℕ) × (self.new ≡ (k, piece) ∷ self.old)) }
        ensures err { IfErr result (λ back. (back ≡ piece) × (self.new ≡ self.old)) }
    {
        if self.nodes.reserve(1).is_err() {
            return Err(piece);
        }
        let Ok(first) = self.firsts.insert(piece.origin, self.nodes.vacant_key()) else {
            return Err(piece);
        };
        let node = Node {
            piece,
            older: self.newest,
            newer: None,
            previous: None,
            next: first,
        };
        let key = link(&mut self.nodes, node);
        self.newest = Some(key);
        self.oldest = or_key(self.oldest, key);
        Ok(())
    }

    /// Takes the oldest piece out. Takes no memory.
    pub(crate) fn take_oldest(&mut self) -> Option<Piece>
        ensures { MatchOption result ((pieces_of self.old ≡ []) × (self.new ≡ self.old)) (λ piece. pieces_of self.old ≡ piece ∷ pieces_of self.new) }
    {
        let Some(key) = self.oldest() else {
            return None;
        };
        self.take_out(key)
    }

    /// Takes the newest piece of an object out. Takes no memory.
    pub(crate) fn take_first_of(&mut self, origin: u64) -> Option<Piece>
        ensures { MatchOption result ((filter (is_piece_of origin) (pieces_of self.old) ≡ []) × (self.new ≡ self.old)) (λ piece. IsOneOut piece (pieces_of self.old) (pieces_of self.new) × (piece.origin ≡ origin)) }
    {
        let Some(key) = self.first_of(origin) else {
            return None;
        };
        self.take_out(key)
    }

    /// Takes pieces out from the old end until the rows are no more than the budget, and tells how
    /// many are left. Takes no memory.
    pub(crate) fn shrink(&mut self, rows: u128, budget: u64) -> u64
        requires { rows ≡ rows_in (pieces_of self.old) }
        ensures pieces { pieces_of self.new ≡ newest_within budget (pieces_of self.old) }
        ensures rows { result ≡ rows_in (pieces_of self.new) }
        ensures fits { result ≤ budget }
    {
        let mut left = rows;
        while left > u128::from(budget) {
            match self.take_oldest() {
                Some(piece) => left -= u128::from(piece.row_count()),
                None => unreachable!(),
            }
        }
        left as u64
    }

    /// Takes the pieces of an object out, with one step for each, and tells how many rows are left.
    /// Takes no memory.
    pub(crate) fn drop_of<L: Ledger>(&mut self, origin: u64, rows: u64, steps: &mut Steps<L>) -> u64
        requires { rows ≡ rows_in (pieces_of self.old) }
        ensures pieces { pieces_of self.new ≡ filter (is_other_piece origin) (pieces_of self.old) }
        ensures rows { result ≡ rows_in (pieces_of self.new) }
        ensures fits { result ≤ rows }
        ensures cost { steps.new ≡ steps.old + length (filter (is_piece_of origin) (pieces_of self.old)) }
    {
        let mut left = rows;
        while let Some(piece) = self.take_first_of(origin) {
            left -= piece.row_count();
            steps.tick();
        }
        left
    }
}
