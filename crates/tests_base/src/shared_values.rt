//! Values that are shared until they are changed, where there is memory.

use cal_base::{Arc, List, NameMap, NoMemory, Octets, Shared};
use std::alloc::Global;

type Texts = Shared<NameMap<Arc<Octets>>>;

/// Puts a text under a name into a map that may be shared.
fn put(alloc: Global, map: &mut Texts, name: &[u8], text: &[u8]) -> Result<(), NoMemory> {
    let name = Octets::of(alloc, name)?;
    let text = Arc::new(alloc, Octets::of(alloc, text)?)?;
    match map.make_own(alloc) {
        Ok(own) => own.insert(name, text),
        Err(NoMemory) => Err(NoMemory),
    }
}

/// Whether a map has a text at a name.
fn has(map: &Texts, name: &[u8], text: &[u8]) -> bool {
    match map.get(name) {
        Some(found) => found.as_slice() == text,
        None => false,
    }
}

/// A map with two texts.
fn two_texts(alloc: Global) -> Result<Texts, NoMemory> {
    let mut map = Shared::new(alloc, NameMap::new(alloc))?;
    put(alloc, &mut map, b"b", b"two")?;
    put(alloc, &mut map, b"a", b"one")?;
    Ok(map)
}

/// Whether a map that was looked at has three texts behind two changes, and the look the two old ones.
fn keeps_its_look(alloc: Global, map: &mut Texts) -> Result<bool, NoMemory> {
    let look = map.look()?;
    put(alloc, map, b"c", b"three")?;
    put(alloc, map, b"a", b"other")?;
    let old = look.len() == 2 && has(&look, b"a", b"one") && has(&look, b"b", b"two");
    let new = map.len() == 3 && has(map, b"a", b"other") && has(map, b"c", b"three");
    Ok(old && new && has(map, b"b", b"two"))
}

fn a_look_is_kept(alloc: Global) -> Result<bool, NoMemory> {
    let mut map = two_texts(alloc)?;
    keeps_its_look(alloc, &mut map)
}

/// Whether a value is lent to be changed in place while it has one owner, and only then.
fn is_lent_where_it_is_alone(alloc: Global) -> Result<bool, NoMemory> {
    let mut list = Shared::new(alloc, List::<u8>::new(alloc))?;
    let before = list.own().is_some();
    let look = list.look()?;
    let beside = list.own().is_none();
    let shared = look.is_empty();
    drop(look);
    Ok(before && beside && shared && list.own().is_some())
}

#[test]
fn a_look_stays_as_it_was(rt: HostRuntime) {
    assert!(rt; a_look_is_kept(rt.alloc()) == Ok(true));
}

#[test]
fn what_has_one_owner_is_changed_in_place(rt: HostRuntime) {
    assert!(rt; is_lent_where_it_is_alone(rt.alloc()) == Ok(true));
}
