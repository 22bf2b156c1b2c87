//! The set, over its tree of flags.
ghost use Rattle.std.specs.Prelude.{◌≡◌, ℕ, ◌+◌, ◌-◌, ◌<◌, ◌≤◌, ◌^◌, true, false, [], ◌∷◌, ◌++◌, length, drop, slice_set, replicate, IfOk, OnOk, OnErr, IsOk, MatchOption};
ghost use Rattle.number_set.specs.Sets.{has, IsLeast};
ghost use Rattle.number_set.specs.Trees.{doubled, AreSums};

use crate::tree::{first_leaf, sum_all, sum_up};
use cal_base::NoMemory;
use std::alloc::Global;
use std::marker::Model;

/// A set of numbers below a bound, which contracts see as a list of flags: the number `n` is in it
/// where the flag at `n` is set.
#[derive(Drop)]
pub struct NumberSet {
    /// The flags of the numbers are the second half, and node `j` is set where node `2j` or node
    /// `2j + 1` is.
    nodes: Vec<bool>,
    /// How many flags there are: 2 to the power of the height.
    width: usize,
    height: u64,
}

impl Model for NumberSet {
    ghost use Rattle.std.specs.Prelude.{Bool, List, drop};
    ghost use Rattle.number_set.specs.Trees.{IsTree};

    ghost Value = { List Bool };

    ghost view = { λ s. drop s.width s.nodes.items };

    ghost invariant = { λ s. IsTree s.nodes.items s.width s.height };
}

/// The least width from one on that has a bound, and its height.
fn width_for(width: usize, height: u64, bound: usize) -> (usize, u64)
    requires power { width ≡ doubled height }
    requires fits { width < 2 ^ 62 }
    requires bound { bound ≤ 2 ^ 62 }
    ensures power { result.0 ≡ doubled result.1 }
    ensures wide { bound ≤ result.0 }
    ensures grows { width ≤ result.0 }
    ensures fits { result.0 < 2 ^ 63 }
{
    let mut wide = width;
    let mut high = height;
    while wide < bound {
        wide *= 2;
        high += 1;
    }
    (wide, high)
}

/// The nodes of a tree of a greater width with the same leaves at its beginning.
fn wider(alloc: Global, leaves: &[bool], width: usize) -> Result<Vec<bool>, NoMemory>
    requires grows { length leaves.now ≤ width }
    requires fits { width < 2 ^ 63 }
    ensures size { IfOk result (λ v. length v.items ≡ width + width) }
    ensures sums { IfOk result (λ v. AreSums v.items) }
    ensures leaves { IfOk result (λ v. drop width v.items ≡ leaves.now ++ replicate (width - length leaves.now) false) }
{
    let mut nodes = Vec::new(alloc);
    if nodes.resize(width, false).is_err() {
        return Err(NoMemory);
    }
    if nodes.extend_from_slice(leaves).is_err() {
        return Err(NoMemory);
    }
    if nodes.resize(2 * width, false).is_err() {
        return Err(NoMemory);
    }
    sum_all(&mut nodes, width);
    Ok(nodes)
}

impl NumberSet {
    /// The empty set, with the bound 1.
    pub fn new(alloc: Global) -> Result<NumberSet, NoMemory>
        ensures { IfOk result (λ s. s ≡ false ∷ []) }
    {
        let Ok(nodes) = vec![in alloc; false; 2] else {
            return Err(NoMemory);
        };
        Ok(NumberSet {
            nodes,
            width: 1,
            height: 0,
        })
    }

    /// The bound: each number below it can be in the set.
    pub fn bound(&self) -> u64
        ensures { result ≡ length self.now }
    {
        self.width as u64
    }

    /// Makes the bound at least so great, by doubling it. Where it is so already this takes no
    /// memory; without memory the set stays as it was.
    pub fn grow(&mut self, bound: u64) -> Result<(), NoMemory>
        ensures ok { OnOk result (bound ≤ length self.new) }
        ensures grown { self.new ≡ self.old ++ replicate (length self.new - length self.old) false }
        ensures longer { length self.old ≤ length self.new }
        ensures succeeds { bound ≤ length self.old → IsOk result × (self.new ≡ self.old) }
        ensures err { OnErr result (self.new ≡ self.old) }
    {
        if bound <= self.width as u64 {
            return Ok(());
        }
        if bound > 1 << 62 {
            return Err(NoMemory);
        }
        let (width, height) = width_for(self.width, self.height, bound as usize);
        let nodes = wider(*self.nodes.allocator(), &self.nodes[self.width..], width)?;
        self.nodes = nodes;
        self.width = width;
        self.height = height;
        Ok(())
    }

    /// Whether a number is in the set.
    pub fn contains(&self, number: u64) -> bool
        ensures { result ≡ has self.now number }
    {
        if number >= self.width as u64 {
            return false;
        }
        self.nodes[self.width + number as usize]
    }

    /// Puts a number below the bound in, or takes it out. Takes no memory.
    pub fn put(&mut self, number: u64, member: bool)
        requires { number < length self.old }
        ensures { self.new ≡ slice_set self.old number member }
    {
        let leaf = self.width + number as usize;
        self.nodes[leaf] = member;
        sum_up(&mut self.nodes, self.width, leaf);
    }

    /// Puts a number below the bound in. Takes no memory.
    pub fn insert(&mut self, number: u64)
        requires { number < length self.old }
        ensures { self.new ≡ slice_set self.old number true }
    {
        self.put(number, true);
    }

    /// Takes a number below the bound out. Takes no memory.
    pub fn remove(&mut self, number: u64)
        requires { number < length self.old }
        ensures { self.new ≡ slice_set self.old number false }
    {
        self.put(number, false);
    }

    /// The least number of the set.
    pub fn least(&self) -> Option<u64>
        ensures { MatchOption result ((n : ℕ) → has self.now n ≡ false) (λ n. IsLeast n self.now) }
    {
        if !self.nodes[1] {
            return None;
        }
        let leaf = first_leaf(&self.nodes, self.height);
        Some((leaf - self.width) as u64)
    }
}
