//! The properties of a calendar as settings change them (RFC 4918, 9.2).
ghost use Rattle.std.specs.Prelude.{◌≡◌, ◌+◌, ◌<◌, ◌≤◌, length, IfOk, OnOk, OnErr, vec_len, vec_capacity, slice_get};
ghost use Rattle.std.specs.BTreeMap.{is_at};
ghost use Rattle.cal_model.specs.State.PropertyTexts.{prop_order, with_text, without_text};
ghost use Rattle.cal_model.specs.Access.Privileges.{same_name};
ghost use Rattle.cal_model.specs.Properties.Settings.{is_kinds, texts_after, texts_after_all};
ghost use Rattle.cal_model.specs.Properties.PropertyTable.{row_of, in_caldav};
ghost use Rattle.collections.specs.Settings.{place_in, is_named_at, Changes};

use cal_base::{List, NoMemory, Octets, Stack};
use cal_model::{PropName, PropSet, copy_setting};
use std::alloc::Global;
use std::cmp::Ordering;
use std::mem::replace;

const CALDAV: &[u8] = b"urn:ietf:params:xml:ns:caldav";

/// Compares the names of two properties: by namespace, then by local name.
pub(crate) fn compare_names(a: &PropName, b: &PropName) -> Ordering
    ensures { result ≡ prop_order a.now b.now }
{
    match Ord::cmp(&a.space.as_slice(), &b.space.as_slice()) {
        Ordering::Equal => Ord::cmp(&a.name.as_slice(), &b.name.as_slice()),
        other => other,
    }
}

/// Whether two properties have one name.
pub(crate) fn is_same_name(a: &PropName, b: &PropName) -> bool
    ensures { result ≡ is_at (prop_order a.now) b.now }
{
    compare_names(a, b) == Ordering::Equal
}

/// Whether a property is that of a local name in the namespace of CalDAV.
pub(crate) fn is_caldav_name(name: &PropName, local: &[u8]) -> bool
    ensures { result ≡ same_name name.now (in_caldav local.now) }
{
    name.space.as_slice() == CALDAV && name.name.as_slice() == local
}

/// Whether a property is the list of a calendar's kinds (RFC 4791, 5.2.3).
pub(crate) fn is_kinds_name(name: &PropName) -> bool
    ensures { result ≡ is_kinds (row_of name.now).setting }
{
    is_caldav_name(name, b"supported-calendar-component-set")
}

/// How many properties stand before the first that is not below a name.
fn place_of(items: &[PropSet], name: &PropName) -> usize
    ensures place { result ≡ place_in items.now name.now }
    ensures within { result ≤ length items.now }
{
    for at in 0..items.len() {
        if compare_names(name, &items[at].name) != Ordering::Greater {
            return at;
        }
    }
    items.len()
}

/// Whether the property at a place has a name.
fn has_name_at(items: &[PropSet], at: usize, name: &PropName) -> bool
    ensures { result ≡ is_named_at (slice_get items.now at) name.now }
{
    match items.get(at) {
        Some(item) => is_same_name(name, &item.name),
        None => false,
    }
}

/// Sets a property, in the place of its old value or where the order wants it. There has to be room
/// for one more, so it takes no memory.
fn set_text(items: &mut Vec<PropSet>, name: PropName, value: Octets)
    requires room { vec_len items.old < vec_capacity items.old }
    ensures texts { Changes (λ texts. with_text texts name value) items.old.items items.new.items }
    ensures len { vec_len items.new ≤ vec_len items.old + 1 }
    ensures capacity { vec_capacity items.old ≤ vec_capacity items.new }
{
    let at = place_of(items.as_slice(), &name);
    if has_name_at(items.as_slice(), at, &name) {
        items[at].value = Some(value);
    } else {
        let set = PropSet {
            name,
            value: Some(value),
        };
        let _inserted = items.insert(at, set);
    }
}

/// Removes a property, if it is there. Takes no memory.
fn remove_text(items: &mut Vec<PropSet>, name: &PropName)
    ensures texts { Changes (λ texts. without_text texts name.now) items.old.items items.new.items }
    ensures len { vec_len items.new ≤ vec_len items.old }
    ensures capacity { vec_capacity items.old ≤ vec_capacity items.new }
{
    let at = place_of(items.as_slice(), name);
    if has_name_at(items.as_slice(), at, name) {
        let _removed = items.remove(at);
    }
}

/// Carries a setting out. There has to be room for one more, so it takes no memory.
fn set_one(items: &mut Vec<PropSet>, set: PropSet)
    requires room { vec_len items.old < vec_capacity items.old }
    ensures texts { Changes (λ texts. texts_after texts set) items.old.items items.new.items }
    ensures len { vec_len items.new ≤ vec_len items.old + 1 }
    ensures capacity { vec_capacity items.old ≤ vec_capacity items.new }
{
    if is_kinds_name(&set.name) {
        return;
    }
    let PropSet { name, value } = set;
    match value {
        Some(value) => set_text(items, name, value),
        None => remove_text(items, &name),
    }
}

/// Carries settings out in their order. There has to be room for so many more, so it takes no memory.
fn set_each(items: &mut Vec<PropSet>, sets: Stack<PropSet>)
    requires room { vec_len items.old + length sets ≤ vec_capacity items.old }
    ensures { Changes (λ texts. texts_after_all texts sets) items.old.items items.new.items }
{
    let mut left = sets;
    while let Some(set) = left.pop() {
        set_one(items, set);
    }
}

/// Copies of settings, the first on top.
fn copies_of(alloc: Global, sets: &[PropSet]) -> Result<Stack<PropSet>, NoMemory>
    ensures { IfOk result (λ copies. copies ≡ sets.now) }
{
    let mut copies = Stack::new(alloc);
    for behind in 0..sets.len() {
        let copy = copy_setting(alloc, &sets[sets.len() - 1 - behind])?;
        copies.push(copy)?;
    }
    Ok(copies)
}

/// Carries settings out in their order. The memory is taken first: without it nothing changes.
pub(crate) fn set_texts(
    alloc: Global,
    texts: &mut List<PropSet>,
    sets: &[PropSet],
) -> Result<(), NoMemory>
    ensures ok { OnOk result (Changes (λ them. texts_after_all them sets.now) texts.old texts.new) }
    ensures err { OnErr result (texts.new ≡ texts.old) }
{
    let copies = copies_of(alloc, sets)?;
    let mut items = replace(texts, List::new(alloc)).into_vec();
    let room = items.reserve(copies.len());
    if room.is_ok() {
        set_each(&mut items, copies);
    }
    *texts = List::from_vec(items);
    match room {
        Ok(()) => Ok(()),
        Err(_) => Err(NoMemory),
    }
}
