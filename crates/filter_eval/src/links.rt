//! The items of a list with one key, found without a look at the others.

ghost use Rattle.std.specs.Prelude.{◌≡◌, ℕ, ◌+◌, ◌<◌, ◌^◌, List, length, get_or, IfOk};
ghost use Rattle.filter_eval.specs.Links.{AreLinked, AreLinks, IsNext};

use cal_base::NoMemory;
use std::alloc::Global;

/// From the front of a list to the first item of each key that is looked for, and from each item to
/// the next one of its key.
#[derive(Drop)]
pub struct Links {
    /// The place of the first item of each key, or the end of the list.
    firsts: Vec<usize>,
    /// The place of the next item of the key of each, or the end of the list.
    nexts: Vec<usize>,
}

impl Links {
    /// The links of the items with these keys, of which those below a bound are looked for.
    pub fn of(alloc: Global, keys: &[u32], bound: usize) -> Result<Links, NoMemory>
        ensures { IfOk result (λ links. AreLinks links keys.now) }
    {
        let mut firsts = ends_of(alloc, keys.len(), bound)?;
        let mut nexts = ends_of(alloc, keys.len(), keys.len())?;
        link(keys, firsts.as_mut_slice(), nexts.as_mut_slice());
        Ok(Links { firsts, nexts })
    }

    /// The place at which the items of a key begin.
    pub fn first(&self, key: usize) -> usize
        ensures { (keys : List ℕ) → AreLinks self.now keys → IsNext keys key 0 result }
    {
        if key < self.firsts.len() {
            self.firsts[key]
        } else {
            0
        }
    }

    /// The place behind an item at which those of its key go on.
    pub fn next(&self, place: usize) -> usize
        requires { place < 2 ^ 63 }
        ensures { (keys : List ℕ) → AreLinks self.now keys → place < length keys → IsNext keys (get_or keys place 0) (place + 1) result }
    {
        if place < self.nexts.len() {
            self.nexts[place]
        } else {
            place + 1
        }
    }
}

/// So many places, each the end of a list.
fn ends_of(alloc: Global, end: usize, size: usize) -> Result<Vec<usize>, NoMemory>
    ensures size { IfOk result (λ ends. length ends.items ≡ size) }
    ensures ends { IfOk result (λ ends. (key : ℕ) → key < size → get_or ends.items key 0 ≡ end) }
{
    match vec![in alloc; end; size] {
        Ok(ends) => Ok(ends),
        Err(_) => Err(NoMemory),
    }
}

/// Links the items, from the last to the first.
fn link(keys: &[u32], firsts: &mut [usize], nexts: &mut [usize])
    requires size { length nexts.old ≡ length keys.now }
    requires ends { (key : ℕ) → key < length firsts.old → get_or firsts.old key 0 ≡ length keys.now }
    ensures { AreLinked keys.now firsts.new nexts.new 0 }
{
    let mut from = keys.len();
    'items: while from > 0 {
        from -= 1;
        link_one(keys, from, firsts, nexts);
    }
}

/// Links an item with those behind it, which are linked.
fn link_one(keys: &[u32], place: usize, firsts: &mut [usize], nexts: &mut [usize])
    requires size { length nexts.old ≡ length keys.now }
    requires within { place < length keys.now }
    requires behind { AreLinked keys.now firsts.old nexts.old (place + 1) }
    ensures size { length nexts.new ≡ length keys.now }
    ensures linked { AreLinked keys.now firsts.new nexts.new place }
{
    let key = keys[place] as usize;
    if key < firsts.len() {
        nexts[place] = firsts[key];
        firsts[key] = place;
    } else {
        nexts[place] = place + 1;
    }
}
