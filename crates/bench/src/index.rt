//! The index of pieces.
ghost use Rattle.std.specs.Prelude.{◌≡◌, ◌<◌};

use cal_base::{Arc, List, NoMemory, Steps};
use cal_model::{Piece, Row, RowKind};
use piece_index::Index;
use std::alloc::Global;
use std::io;
use std::marker::Brand;
use std::sync::ledger::{Blank, Ledger};

/// A piece of so many rows.
fn piece(alloc: Global, origin: u64, window: i32, count: i64) -> Result<Piece, NoMemory> {
    let mut rows = List::new(alloc);
    for start in 0..count {
        rows.push(Row {
            id: start,
            start,
            end: start,
            component: 0,
            id_kind: RowKind::Instant,
            kind: RowKind::Instant,
        })?;
    }
    Ok(Piece {
        origin,
        window,
        rows: Arc::new(alloc, rows)?,
    })
}

/// Adds the pieces of some objects, each of so many windows.
fn fill(
    alloc: Global,
    index: &mut Index,
    objects: u64,
    windows: i32,
    count: i64,
) -> Result<(), NoMemory> {
    for origin in 0..objects {
        for window in 0..windows {
            let piece = piece(alloc, origin, window, count)?;
            if index.get(piece.origin, piece.window).is_none() {
                index.add(piece);
            }
        }
    }
    Ok(())
}

/// How many of these windows of the objects are there.
fn find(index: &Index, objects: u64, windows: i32) -> u64 {
    let mut found = 0u64;
    for origin in 0..objects {
        for window in 0..windows {
            if index.get(origin, window).is_some() {
                found = found.wrapping_add(1);
            }
        }
    }
    found
}

fn drop_counted<L: Ledger>(index: &mut Index, objects: u64, blank: Blank)
    requires name { L.name ≡ blank.name }
    requires parts { L.parts ≡ blank.parts }
    requires some { 0 < blank.parts }
{
    let mut steps = Steps::<L>::open(blank);
    for origin in 0..objects {
        index.drop_object(origin, &mut steps);
    }
}

/// Drops each object's pieces.
fn drop_all(index: &mut Index, objects: u64) {
    drop_counted::<Brand>(index, objects, Blank::new(1));
}

/// Adds the pieces, and finds or drops them as the word says. Tells how many were found.
fn work(
    alloc: Global,
    index: &mut Index,
    word: &str,
    objects: u64,
    windows: i32,
    count: i64,
) -> u64 {
    if fill(alloc, index, objects, windows, count).is_err() {
        return 0;
    }
    match word {
        "find" => find(index, objects, windows),
        "drop" => {
            drop_all(index, objects);
            0
        }
        _ => 0,
    }
}

/// Adds pieces of so many objects and windows of each, with so many rows a piece, and then finds each
/// piece or drops each object, as the word says. Prints how many were found, and how many rows are left.
pub fn measure(
    rt: &HostRuntime,
    word: &str,
    objects: u32,
    windows: u16,
    count: u16,
) -> io::Result<()> {
    let mut index = Index::new(rt.alloc(), 1 << 40);
    let (objects, windows, count) = (u64::from(objects), i32::from(windows), i64::from(count));
    let found = work(rt.alloc(), &mut index, word, objects, windows, count);
    println!(rt; "{} {}", found, index.rows())
}
