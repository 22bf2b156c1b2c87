//! What no clause says: that a store, and a state for looks to share, are made where there is memory, and
//! what they have at the start.

use cal_base::Arc;
use cal_journal::{Journal, replay};
use cal_model::CalendarData;
use collections::{ShownState, Store};
use privileges::read_users;
use std::alloc::Global;
use std::test::Fail;

/// Two users, each with the SHA-256 of `abc`.
const USERS: &[u8] =
    b"user alice ba7816bf8f01cfea414140de5dae2223b00361a396177a9cb410ff61f20015ad\n\
    user bob ba7816bf8f01cfea414140de5dae2223b00361a396177a9cb410ff61f20015ad\n";

const NAME: &[u8] = b"calendar";

/// A store of the two users.
fn opened(alloc: Global) -> Result<Store, Fail> {
    let users = read_users(alloc, USERS)?;
    Ok(Store::new(alloc, Arc::new(alloc, users)?)?)
}

/// Whether a calendar is that of the start in the home of a user: its displayname alone is set.
fn is_first(data: &CalendarData, home: u32) -> bool {
    let displayed = match data.texts.get(0) {
        Some(set) => match &set.value {
            Some(value) => {
                set.name.space.as_slice() == b"DAV:".as_slice()
                    && set.name.name.as_slice() == b"displayname".as_slice()
                    && value.as_slice() == NAME
            }
            None => false,
        },
        None => false,
    };
    displayed
        && data.texts.len() == 1
        && data.owner == home
        && data.kinds == 15
        && data.zone.is_none()
        && data.acl.grants.is_empty()
}

/// Whether a home has that calendar, found by its name and from the empty name, and no other.
fn has_its_calendar(store: &Store, home: u32) -> bool {
    let Some(data) = store.calendar(home, NAME) else {
        return false;
    };
    let Some((name, next)) = store.calendar_after(home, b"") else {
        return false;
    };
    let is_last = store.calendar_after(home, NAME).is_none() && store.calendar_count(home) == 1;
    is_last && name == NAME && is_first(data, home) && is_first(next, home)
}

/// Whether each home has its calendar, and nothing is charged.
fn is_at_start(store: &Store) -> bool {
    for home in 0u32..2 {
        if !has_its_calendar(store, home) || store.used(home) != 0 {
            return false;
        }
    }
    store.users().len() == 2
}

/// Whether no home has an object or a UID.
fn has_no_objects(store: &Store) -> bool {
    for home in 0u32..3 {
        let none = store.object(home, NAME, b"a.ics").is_none()
            && store.object_after(home, NAME, b"").is_none()
            && store.uid_holder(home, NAME, b"a").is_none();
        if !none {
            return false;
        }
    }
    true
}

/// Whether there is no third home, and no calendar of another name.
fn has_no_other_calendars(store: &Store) -> bool {
    store.calendar(2, NAME).is_none()
        && store.calendar_after(2, b"").is_none()
        && store.calendar(0, b"calendar2").is_none()
        && store.calendar(1, b"").is_none()
        && store.used(2) == 0
        && store.calendar_count(2) == 0
}

#[test]
fn each_home_has_its_calendar(rt: HostRuntime) -> Result<(), Fail> {
    let store = opened(rt.alloc())?;
    assert!(rt; is_at_start(&store));
    Ok(())
}

#[test]
fn nothing_else_is_there(rt: HostRuntime) -> Result<(), Fail> {
    let store = opened(rt.alloc())?;
    assert!(rt; has_no_other_calendars(&store) && has_no_objects(&store));
    Ok(())
}

/// The state that a journal without entries leads to.
fn replayed(alloc: Global) -> Result<Store, Fail> {
    let users = read_users(alloc, USERS)?;
    let store = Store::new(alloc, Arc::new(alloc, users)?)?;
    Ok(replay(&Journal::new(alloc), store)?)
}

/// A journal without entries leads to the start.
#[test]
fn no_entries_lead_to_the_start(rt: HostRuntime) -> Result<(), Fail> {
    let store = replayed(rt.alloc())?;
    assert!(rt; is_at_start(&store) && has_no_objects(&store));
    Ok(())
}

/// Whether a look at the state of the start shows the calendars of the two homes, and no object.
fn shows_the_start(alloc: Global) -> Result<bool, Fail> {
    let users = read_users(alloc, USERS)?;
    let shown = ShownState::new(alloc, Arc::new(alloc, users)?)?;
    let look = shown.look()?;
    let calendar = match look.calendar(1, NAME) {
        Some(data) => is_first(data, 1),
        None => false,
    };
    let others = look.calendar(2, NAME).is_some() || look.calendar_after(0, NAME).is_some();
    Ok(calendar && !others && look.object_after(0, NAME, b"").is_none())
}

#[test]
fn a_look_shows_the_start(rt: HostRuntime) -> Result<(), Fail> {
    assert!(rt; shows_the_start(rt.alloc())?);
    Ok(())
}
