//! The keeping of claims.
ghost use Rattle.std.specs.Prelude.{◌≡◌, ◌<◌, ◌≤◌, length, IfOk};

use cal_base::{Arc, List, NoMemory, Steps};
use cal_model::{Row, RowKind};
use piece_claims::Claims;
use std::alloc::Global;
use std::io;
use std::marker::Brand;
use std::sync::ledger::{Blank, Ledger};

/// So many rows.
fn rows_of(alloc: Global, count: u16) -> Result<Arc<List<Row>>, NoMemory>
    ensures { IfOk result (λ rows. length rows ≤ 4_000_000) }
{
    let mut rows = List::new(alloc);
    for start in 0..count {
        rows.push(Row {
            id: i64::from(start),
            start: i64::from(start),
            end: i64::from(start),
            component: 0,
            id_kind: RowKind::Instant,
            kind: RowKind::Instant,
        })?;
    }
    Arc::new(alloc, rows)
}

/// Claims for so many objects.
fn objects_of(alloc: Global, objects: u64) -> Result<Claims, NoMemory> {
    let mut claims = Claims::new(alloc)?;
    claims.at(1_700_000_000);
    for _ in 0..objects {
        claims.reserve()?;
        claims.made();
    }
    Ok(claims)
}

/// Claims and publishes a pair, and tells whether it did.
fn publish_next<L: Ledger>(
    alloc: Global,
    claims: &mut Claims,
    count: u16,
    steps: &mut Steps<L>,
) -> bool {
    let Some((origin, window)) = claims.claim() else {
        return false;
    };
    let Ok(rows) = rows_of(alloc, count) else {
        return false;
    };
    claims.publish(origin, window, rows, steps).is_ok()
}

/// Publishes all pieces, at most so many, and ends half of the objects.
fn run<L: Ledger>(
    alloc: Global,
    claims: &mut Claims,
    most: u64,
    count: u16,
    blank: Blank,
) -> (u64, u64)
    requires name { L.name ≡ blank.name }
    requires parts { L.parts ≡ blank.parts }
    requires some { 0 < blank.parts }
{
    let mut steps = Steps::<L>::open(blank);
    let mut published = 0u64;
    for _ in 0..most {
        if !publish_next(alloc, claims, count, &mut steps) {
            break;
        }
        published = published.wrapping_add(1);
    }
    let before = claims.row_count();
    for origin in 0..claims.entries() / 2 {
        if origin < claims.entries() {
            claims.ended(origin, &mut steps);
        }
    }
    (published, before)
}

/// The same, with steps that nobody reads.
fn run_all(alloc: Global, claims: &mut Claims, most: u64, count: u16) -> (u64, u64) {
    run::<Brand>(alloc, claims, most, count, Blank::new(1))
}

/// Claims and publishes each open pair of so many objects, with so many rows a piece, and ends the
/// first half of the objects. Prints how many pieces were published, and how many rows there are
/// before and after.
pub fn measure(rt: &HostRuntime, objects: u32, count: u16) -> io::Result<()> {
    let objects = u64::from(objects);
    let Ok(mut claims) = objects_of(rt.alloc(), objects) else {
        return println!(rt; "no memory");
    };
    let (published, before) = run_all(rt.alloc(), &mut claims, objects * 13, count);
    println!(rt; "{} {} {}", published, before, claims.row_count())
}
