//! What no clause says: that each call succeeds where there is memory. And worked examples.
ghost use Rattle.std.specs.Prelude.{◌≡◌, ◌<◌};

use crate::plain_list::PlainList;
use cal_base::{Arc, List, NoMemory, Steps};
use cal_model::{Piece, Row, RowKind};
use piece_index::{Added, Index};
use std::alloc::Global;
use std::marker::Brand;
use std::sync::ledger::{Blank, Ledger};
use std::test::Fail;

/// How adding a piece went.
#[derive(Clone, Copy, PartialEq, Eq, Debug)]
enum Adding {
    Done,
    Full,
    NoMemory,
    /// There is a piece of that object and window already.
    IsThere,
}

fn answer_of(added: &Added) -> Adding {
    match added {
        Added::Done => Adding::Done,
        Added::Full(_) => Adding::Full,
        Added::NoMemory(_) => Adding::NoMemory,
    }
}

fn rows(alloc: Global, count: i64) -> Result<Arc<List<Row>>, NoMemory> {
    let mut rows = List::new(alloc);
    for start in 0..count {
        rows.push(Row {
            id: start,
            start,
            end: start,
            component: 0,
            id_kind: RowKind::Instant,
            kind: RowKind::Instant,
        })?;
    }
    Arc::new(alloc, rows)
}

/// Adds a piece of so many rows, where there is none of its object and window yet.
fn add(
    alloc: Global,
    index: &mut Index,
    origin: u64,
    window: i32,
    count: i64,
) -> Result<Adding, NoMemory> {
    let rows = rows(alloc, count)?;
    if index.get(origin, window).is_some() {
        return Ok(Adding::IsThere);
    }
    let added = index.add(Piece {
        origin,
        window,
        rows,
    });
    Ok(answer_of(&added))
}

/// The same, to the plain list.
fn add_plainly(
    alloc: Global,
    list: &mut PlainList,
    origin: u64,
    window: i32,
    count: i64,
) -> Result<Adding, NoMemory> {
    let rows = rows(alloc, count)?;
    if list.get(origin, window).is_some() {
        return Ok(Adding::IsThere);
    }
    let added = list.add(Piece {
        origin,
        window,
        rows,
    });
    Ok(answer_of(&added))
}

fn drop_counted<L: Ledger>(index: &mut Index, list: &mut PlainList, origin: u64, blank: Blank)
    requires name { L.name ≡ blank.name }
    requires parts { L.parts ≡ blank.parts }
    requires some { 0 < blank.parts }
{
    let mut steps = Steps::<L>::open(blank);
    index.drop_object(origin, &mut steps);
    list.drop_object(origin, &mut steps);
}

/// Drops an object's pieces from both.
fn drop_object(index: &mut Index, list: &mut PlainList, origin: u64) {
    drop_counted::<Brand>(index, list, origin, Blank::new(1));
}

/// The same of the index alone.
fn drop_from(alloc: Global, index: &mut Index, origin: u64) {
    drop_object(index, &mut PlainList::new(alloc, 0), origin);
}

/// How many rows the piece of an object and a window has, if it is there.
type Held = (u64, i32, Option<usize>);

/// Whether the index holds those pieces.
fn holds(index: &Index, wanted: &[Held]) -> bool {
    for (origin, window, count) in wanted {
        if index.get(*origin, *window).map(|rows| rows.len()) != *count {
            return false;
        }
    }
    true
}

/// Whether pieces of these objects, windows and counts of rows are all added to the index.
fn are_added(
    alloc: Global,
    index: &mut Index,
    pieces: &[(u64, i32, i64)],
) -> Result<bool, NoMemory> {
    for (origin, window, count) in pieces {
        if add(alloc, index, *origin, *window, *count)? != Adding::Done {
            return Ok(false);
        }
    }
    Ok(true)
}

/// The oldest piece goes for the third one, and then the second with its object.
fn keeps_three_rows(alloc: Global, index: &mut Index) -> Result<bool, NoMemory> {
    let are_added = are_added(alloc, index, &[(1, 0, 2), (2, 0, 1), (3, 0, 1)])?;
    let are_kept = holds(index, &[(1, 0, None), (2, 0, Some(1)), (3, 0, Some(1))]);
    drop_from(alloc, index, 2);
    let is_left = holds(index, &[(1, 0, None), (2, 0, None), (3, 0, Some(1))]);
    Ok(are_added && are_kept && is_left && index.rows() == 1)
}

#[test]
fn a_budget_of_three_rows(rt: HostRuntime) -> Result<(), Fail> {
    let mut index = Index::new(rt.alloc(), 3);
    assert!(rt; keeps_three_rows(rt.alloc(), &mut index)?);
    Ok(())
}

/// Three of five pieces go with their object, and leave room for ten rows but four.
fn loses_an_object(alloc: Global, index: &mut Index) -> Result<bool, NoMemory> {
    let pieces = [(7, 1, 2), (8, 1, 2), (7, 2, 2), (9, 1, 2), (7, 3, 2)];
    let is_full = are_added(alloc, index, &pieces)? && index.rows() == 10;
    drop_from(alloc, index, 7);
    Ok(is_full && index.rows() == 4)
}

/// A piece of eight rows takes the place of the oldest, one of eleven finds none, and one of ten takes
/// all.
fn makes_room(alloc: Global, index: &mut Index) -> Result<bool, NoMemory> {
    let is_added = add(alloc, index, 5, 1, 8)? == Adding::Done && index.rows() == 10;
    let gone = holds(
        index,
        &[(7, 1, None), (8, 1, None), (7, 2, None), (7, 3, None)],
    );
    let kept = holds(index, &[(9, 1, Some(2)), (5, 1, Some(8))]);
    let is_full = add(alloc, index, 6, 1, 11)? == Adding::Full;
    let is_alone = add(alloc, index, 6, 1, 10)? == Adding::Done
        && holds(index, &[(9, 1, None), (5, 1, None), (6, 1, Some(10))]);
    Ok(is_added && gone && kept && is_full && is_alone)
}

#[test]
fn an_object_goes_and_the_oldest_makes_room(rt: HostRuntime) -> Result<(), Fail> {
    let mut index = Index::new(rt.alloc(), 10);
    assert!(rt; loses_an_object(rt.alloc(), &mut index)?);
    assert!(rt; makes_room(rt.alloc(), &mut index)?);
    Ok(())
}

/// The objects and windows of the calls below.
const PLACES: [(u64, i32); 9] = [
    (1, -1),
    (1, 0),
    (1, 1),
    (2, -1),
    (2, 0),
    (2, 1),
    (3, -1),
    (3, 0),
    (3, 1),
];

/// Whether the index and the list hold pieces of as many rows, in all and at each place.
fn hold_the_same(index: &Index, list: &PlainList) -> bool {
    for (origin, window) in PLACES {
        let held = index.get(origin, window).map(|rows| rows.len());
        let held_plainly = list.get(origin, window).map(|rows| rows.len());
        if held != held_plainly {
            return false;
        }
    }
    index.rows() == list.rows()
}

/// An object, a window and how many rows; then the object that is dropped, or 0.
type Call = (u64, i32, i64, u64);

const CALLS: [Call; 17] = [
    (1, 0, 4, 0),
    (2, 0, 0, 0),
    (1, 1, 4, 0),
    (3, -1, 3, 0),
    (1, 0, 1, 0),
    (2, 1, 2, 0),
    (2, -1, 13, 0),
    (3, 0, 0, 0),
    (1, -1, 5, 2),
    (2, 0, 1, 0),
    (3, 1, 12, 0),
    (1, 1, 1, 3),
    (3, 1, 1, 0),
    (1, 0, 1, 0),
    (1, -1, 1, 1),
    (2, 1, 8, 4),
    (2, -1, 4, 0),
];

/// How a call went; none where the index and the list answer apart, or hold other pieces behind it.
fn answer_alike(
    alloc: Global,
    index: &mut Index,
    list: &mut PlainList,
    call: Call,
) -> Result<Option<Adding>, NoMemory> {
    let (origin, window, count, dropped) = call;
    let added = add(alloc, index, origin, window, count)?;
    let added_plainly = add_plainly(alloc, list, origin, window, count)?;
    drop_object(index, list, dropped);
    if added == added_plainly && hold_the_same(index, list) {
        Ok(Some(added))
    } else {
        Ok(None)
    }
}

/// How many of the calls added a piece; none where one was answered apart.
fn added_alike(
    alloc: Global,
    index: &mut Index,
    list: &mut PlainList,
) -> Result<Option<u32>, NoMemory> {
    let mut done = 0u32;
    for call in CALLS {
        match answer_alike(alloc, index, list, call)? {
            Some(Adding::Done) => done = done.wrapping_add(1),
            Some(_) => {}
            None => return Ok(None),
        }
    }
    Ok(Some(done))
}

#[test]
fn the_index_answers_as_the_plain_list(rt: HostRuntime) -> Result<(), Fail> {
    let mut index = Index::new(rt.alloc(), 12);
    let mut list = PlainList::new(rt.alloc(), 12);
    let done = added_alike(rt.alloc(), &mut index, &mut list)?;
    assert!(rt; done == Some(15) && index.rows() == 12);
    Ok(())
}
