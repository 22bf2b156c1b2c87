//! Doors and connections in other threads, over any door.

use crate::outside::link;
use crate::wanted::with;
use cal_base::{Door, List, MemoryDoor, NoMemory, send_all};
use std::alloc::{AllocError, Global};
use std::sync::Wait;
use std::test::Fail;
use std::thread;
use std::thread::Threads;

/// How many of so many connections of a door were greeted. Each is let go at once, and the door at
/// the end.
fn greeted<D: Door, R: Wait>(rt: &R, mut door: D, most: u64) -> u64 {
    let mut count = 0u64;
    for _ in 0..most {
        if let Ok(mut link) = door.accept(rt) {
            if send_all(&mut link, b"hello").is_ok() {
                count = count.saturating_add(1);
            }
        }
    }
    count
}

/// The same of several doors, each in a thread of its own.
fn greeted_by_each<D: Door, R: Threads + Wait + Sync>(
    rt: &R,
    doors: Vec<D>,
) -> Result<Vec<u64>, AllocError> {
    thread::map_vec(rt, doors, &|door: D| -> u64 { greeted(rt, door, 3) })
}

/// The connections of a door, each greeted in a thread of its own.
fn greeted_apart<D: Door, R: Threads + Wait + Sync>(
    rt: &R,
    alloc: Global,
    mut door: D,
    most: u64,
) -> Result<Vec<bool>, AllocError> {
    let mut links = Vec::new(alloc);
    for _ in 0..most {
        if let Ok(link) = door.accept(rt) {
            links.push(link)?;
        }
    }
    thread::map_vec(
        rt,
        links,
        &|mut link: D::Link| -> bool { send_all(&mut link, b"hello").is_ok() },
    )
}

/// A door of two links, of which the second takes nothing.
fn door(alloc: Global) -> Result<MemoryDoor, NoMemory> {
    let links = with(List::new(alloc), link(alloc, b"", 9))?;
    let links = with(links, link(alloc, b"", 0))?;
    Ok(MemoryDoor::new(links, 0, List::new(alloc)))
}

fn two_doors(alloc: Global) -> Result<List<MemoryDoor>, NoMemory> {
    let doors = with(List::new(alloc), door(alloc))?;
    with(doors, door(alloc))
}

#[test]
fn doors_serve_in_threads(rt: HostRuntime) -> Result<(), Fail> {
    let doors = two_doors(rt.alloc())?;
    let counts = greeted_by_each(&rt, doors.into_vec())?;
    assert!(rt; counts.as_slice() == [1, 1].as_slice());
    Ok(())
}

#[test]
fn links_are_served_in_threads(rt: HostRuntime) -> Result<(), Fail> {
    let door = door(rt.alloc())?;
    let greeted = greeted_apart(&rt, rt.alloc(), door, 3)?;
    assert!(rt; greeted.as_slice() == [true, false].as_slice());
    Ok(())
}
