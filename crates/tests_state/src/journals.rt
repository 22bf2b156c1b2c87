//! What no clause says: that a journal takes entries where there is memory.

use cal_base::{Arc, NoMemory, Octets};
use cal_journal::{Entry, Journal};
use cal_model::Change;
use std::alloc::Global;
use std::test::Fail;

/// The entry of a request that deletes a calendar, made by a user at a moment.
fn deletion(alloc: Global, who: u32, moment: i64) -> Result<Entry, NoMemory> {
    let name = Arc::new(alloc, Octets::of(alloc, b"calendar".as_slice())?)?;
    Ok(Entry {
        session: 7,
        who,
        moment,
        change: Change::DeleteCalendar(who, name),
        status: 204,
    })
}

/// Puts the entry of a number behind the others, and tells whether there was room for it.
fn push(alloc: Global, journal: &mut Journal, number: u32) -> Result<bool, NoMemory> {
    let entry = deletion(alloc, number, i64::from(number) * 60)?;
    journal.reserve()?;
    let had_room = journal.spare() >= 1;
    journal.push(entry);
    Ok(had_room && journal.len() == u64::from(number) + 1)
}

/// Whether a journal takes forty entries, through several growths of its room.
fn takes_forty(alloc: Global, journal: &mut Journal) -> Result<bool, NoMemory> {
    for number in 0u32..40 {
        if !push(alloc, journal, number)? {
            return Ok(false);
        }
    }
    Ok(true)
}

/// Whether an entry is that of a number.
fn is_of_number(entry: &Entry, number: u32) -> bool {
    let is_made = entry.who == number && entry.moment == i64::from(number) * 60;
    let is_kept = entry.session == 7 && entry.status == 204;
    is_made
        && is_kept
        && matches!(&entry.change, Change::DeleteCalendar(home, _) if *home == number)
}

/// Whether a journal has the forty entries in their order, and no other.
fn has_forty(journal: &Journal) -> bool {
    for number in 0u32..40 {
        match journal.at(u64::from(number)) {
            Some(entry) if is_of_number(entry, number) => {}
            _ => return false,
        }
    }
    journal.at(40).is_none() && journal.at(u64::MAX).is_none()
}

#[test]
fn entries_are_kept_in_order(rt: HostRuntime) -> Result<(), Fail> {
    let mut journal = Journal::new(rt.alloc());
    assert!(rt; journal.len() == 0 && journal.spare() == 0 && journal.at(0).is_none());
    assert!(rt; takes_forty(rt.alloc(), &mut journal)?);
    assert!(rt; has_forty(&journal));
    Ok(())
}
