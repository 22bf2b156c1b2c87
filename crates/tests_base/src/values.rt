//! Lists, texts, stacks, shared values, maps, content lines and trees: each call succeeds where there
//! is memory.

use crate::wanted::{Wanted, with};
use cal_base::{
    Arc, Line, List, Name, NameMap, NoMemory, Node, Octets, Param, ReservedList, SharedList, Stack,
    Word,
};
use std::alloc::Global;

/// Puts 5, 7, 8 and 9 into a list.
fn put_four_numbers(list: &mut List<u32>) -> Result<(), NoMemory> {
    list.reserve(3)?;
    list.push(5)?;
    list.push(7)?;
    list.extend_from_slice(&[8, 9])
}

fn are_four_numbers(list: &List<u32>) -> bool {
    let found = list.len() == 4 && !list.is_empty() && list[1] == 7;
    found && list.get(3).copied() == Some(9) && list.get(4).is_none()
}

fn sum_of(list: &List<u32>) -> u64 {
    let mut sum = 0u64;
    for item in list {
        sum = sum.wrapping_add(*item as u64);
    }
    sum
}

/// Whether both ends are taken, and then all but the first of the rest.
fn ends_are_taken(list: &mut List<u32>) -> bool {
    let last = list.pop();
    let first = list.pop_front();
    list.truncate(1);
    last == Some(9) && first == Some(5) && list.as_slice() == [7].as_slice()
}

/// Whether a list and a copy of it are the four numbers, and each is its own.
fn are_apart(list: &mut List<u32>, copy: &List<u32>) -> bool {
    let are_same = are_four_numbers(list) && copy == list;
    let is_copied = sum_of(copy) == 29 && copy.iter().rev().next().copied() == Some(9);
    are_same && is_copied && ends_are_taken(list) && copy != list
}

fn are_lists(alloc: Global) -> Result<bool, NoMemory> {
    let mut list = List::new(alloc);
    put_four_numbers(&mut list)?;
    let copy = list.clone()?;
    let same = are_apart(&mut list, &copy);
    let again = List::from_vec(copy.into_vec());
    Ok(same && again.len() == 4)
}

#[test]
fn lists(rt: HostRuntime) {
    assert!(rt; are_lists(rt.alloc()) == Ok(true));
}

/// Whether octets and words are kept, and names in upper case.
fn are_kept(alloc: Global) -> Result<bool, NoMemory> {
    let octets = Octets::of(alloc, b"Stand-up")?;
    let word = Word::of(alloc, "--users")?;
    let name = Name::of(alloc, b"x-Zulu@[`{z")?;
    let copy = name.clone()?;
    let same = octets.as_slice() == b"Stand-up".as_slice() && word.as_str() == "--users";
    Ok(same && name.as_slice() == b"X-ZULU@[`{Z".as_slice() && copy == name)
}

#[test]
fn texts_are_kept(rt: HostRuntime) {
    assert!(rt; are_kept(rt.alloc()) == Ok(true));
}

/// Whether the last item that was put on a stack comes first.
fn last_comes_first(alloc: Global) -> bool {
    let mut stack = Stack::new(alloc);
    let pushed = [stack.push(5u8), stack.push(7), stack.push(9)];
    let seen = stack.at(0).copied() == Some(9) && stack.at(2).copied() == Some(5);
    let is_all = stack.at(3).is_none();
    let last = stack.pop();
    pushed == [Ok(()), Ok(()), Ok(())] && seen && is_all && last == Some(9) && stack.len() == 2
}

#[test]
fn a_stack_gives_the_last_first(rt: HostRuntime) {
    assert!(rt; last_comes_first(rt.alloc()));
}

fn room_is_kept_in(alloc: Global) -> Result<bool, NoMemory> {
    let mut list = ReservedList::new(alloc);
    let none = list.room() == 0;
    list.reserve(3)?;
    let three = 3 <= list.room();
    list.push(1u8);
    let two = 2 <= list.room();
    list.extend_from_slice(&[2, 3]);
    let same = list.len() == 3 && list.as_slice() == [1, 2, 3].as_slice();
    let list = list.into_list();
    Ok(none && three && two && same && list.as_slice() == [1, 2, 3].as_slice())
}

#[test]
fn room_is_kept(rt: HostRuntime) {
    assert!(rt; room_is_kept_in(rt.alloc()) == Ok(true));
}

fn is_shared(alloc: Global) -> Result<bool, NoMemory> {
    let first = Arc::new(alloc, Octets::of(alloc, b"one")?)?;
    let second = Arc::try_clone(&first)?;
    Ok(second.as_slice() == b"one".as_slice())
}

/// Whether a second owner of an empty list finds nothing in it.
fn none_is_shared() -> Result<bool, NoMemory> {
    let none = SharedList::try_clone(&SharedList::<u8>::new())?;
    Ok(none.len() == 0)
}

/// A second owner of a list of three octets, whose first owner is gone.
fn second_owner(alloc: Global) -> Result<SharedList<u8>, NoMemory> {
    let first = SharedList::of(alloc, Octets::of(alloc, b"one")?)?;
    SharedList::try_clone(&first)
}

fn outlives_its_first_owner(alloc: Global) -> bool {
    match second_owner(alloc) {
        Ok(second) => second.as_slice() == b"one".as_slice() && second.len() == 3,
        Err(NoMemory) => false,
    }
}

#[test]
fn values_are_shared(rt: HostRuntime) {
    assert!(rt; is_shared(rt.alloc()) == Ok(true));
    assert!(rt; none_is_shared() == Ok(true));
    assert!(rt; outlives_its_first_owner(rt.alloc()));
}

/// Four names, the last of which is given twice.
const NAMES: &[(&str, u32)] = &[
    ("two.ics", 2),
    ("one.ics", 1),
    ("onE.ics", 3),
    ("one", 4),
    ("one.ics", 5),
];

fn put_names(alloc: Global, map: &mut NameMap<u32>) -> Result<(), NoMemory> {
    for (name, value) in NAMES {
        map.insert(Octets::of(alloc, name.as_bytes())?, *value)?;
    }
    Ok(())
}

/// Whether the last value of each name is kept, and the names are in their order, one behind the other.
fn is_in_order(map: &NameMap<u32>) -> bool {
    let mut wanted = Wanted::new(b"onE.icsoneone.icstwo.ics");
    for pair in map.iter() {
        wanted.put(pair.0.as_slice());
    }
    let last = map.get(b"one.ics").copied() == Some(5) && map.get(b"three.ics").is_none();
    wanted.is_whole() && last && map.len() == 4
}

/// Whether that is what stands next above a name.
fn is_above(map: &NameMap<u32>, name: &str, next: &str, value: u32) -> bool {
    match map.next_above(name.as_bytes()) {
        Some((found, held)) => found == next.as_bytes() && *held == value,
        None => false,
    }
}

/// Each name from the empty one on, and the one behind a name that is not there.
const ABOVE: &[(&str, &str, u32)] = &[
    ("", "onE.ics", 3),
    ("onE.ics", "one", 4),
    ("one", "one.ics", 5),
    ("one.ics", "two.ics", 2),
    ("three.ics", "two.ics", 2),
];

/// Whether a value is changed in its place, and a name is taken out once.
fn is_changed(map: &mut NameMap<u32>) -> bool {
    if let Some(value) = map.get_mut(b"two.ics") {
        *value = 22;
    }
    let first = map.remove(b"one");
    let second = map.remove(b"one");
    first == Some(4) && second == None && map.len() == 3 && is_above(map, "one.ics", "two.ics", 22)
}

#[test]
fn maps_keep_the_order_of_names(rt: HostRuntime) {
    let mut map = NameMap::new(rt.alloc());
    assert!(rt; put_names(rt.alloc(), &mut map) == Ok(()) && is_in_order(&map));
    for (name, next, value) in ABOVE {
        assert!(rt; is_above(&map, name, next, *value));
    }
    assert!(rt; map.next_above(b"two.ics").is_none());
    assert!(rt; is_changed(&mut map));
}

fn one_param(alloc: Global) -> Result<Param, NoMemory> {
    let name = Name::of(alloc, b"value")?;
    let values = with(List::new(alloc), Octets::of(alloc, b"text"))?;
    Ok(Param { name, values })
}

// UID:one
fn uid_line(alloc: Global) -> Result<Line, NoMemory> {
    let name = Name::of(alloc, b"uid")?;
    let value = Octets::of(alloc, b"one")?;
    let raw = Octets::of(alloc, b"uid;value=text:one")?;
    let params = with(List::new(alloc), one_param(alloc))?;
    Ok(Line {
        name,
        params,
        value,
        raw,
    })
}

fn one_event(alloc: Global) -> Result<Node, NoMemory> {
    let name = Name::of(alloc, b"vevent")?;
    let lines = with(List::new(alloc), uid_line(alloc))?;
    Ok(Node {
        name,
        lines,
        children: List::new(alloc),
    })
}

fn one_calendar(alloc: Global) -> Result<Node, NoMemory> {
    let name = Name::of(alloc, b"vcalendar")?;
    let children = with(List::new(alloc), one_event(alloc))?;
    Ok(Node {
        name,
        lines: List::new(alloc),
        children,
    })
}

fn holds_one_event(calendar: &Node) -> bool {
    let [event] = calendar.children.as_slice() else {
        return false;
    };
    let [line] = event.lines.as_slice() else {
        return false;
    };
    line.name.as_slice() == b"UID".as_slice()
}

fn is_made(alloc: Global) -> bool {
    match one_calendar(alloc) {
        Ok(calendar) => holds_one_event(&calendar),
        Err(NoMemory) => false,
    }
}

#[test]
fn trees_are_made(rt: HostRuntime) {
    assert!(rt; is_made(rt.alloc()));
}
