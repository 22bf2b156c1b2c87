//! Busy times that are gathered for the runs of one range.

ghost use Rattle.std.specs.Prelude.{◌≡◌, ◌⊎◌, [], ◌∷◌, ◌+◌, ◌*◌, ◌≤◌, IfOk, OnErr, OnOk, length, map};
ghost use Rattle.cal_model.specs.Busy.BusyRuns.{runs as runs_in};
ghost use Rattle.freebusy.specs.Gathering as spec;
ghost use Rattle.freebusy.specs.Gathering.{Gathers};
ghost use Rattle.freebusy.specs.Times.{row_of_run, time_of, time_of_run, times_of};

use crate::busy::{BusyRow, Run, busy_runs};
use cal_base::{List, NoMemory};
use cal_model::Range;
use std::alloc::{AllocError, Global};

/// How many times are gathered beside twice the runs that there were, before these are looked for again.
const MORE: usize = 1_000;

/// Busy times that are gathered for the runs of one range. Whenever they have grown to twice the runs
/// that stood in their place the last time, and 1,000 more, their runs are put in their place. So the
/// memory is in proportion to the most runs that there ever were, and the time in all is that of sorting
/// the times.
#[derive(Drop)]
pub struct Gathered {
    alloc: Global,
    range: Range,
    rows: List<BusyRow>,
    /// How many rows there may be before their runs are put in their place.
    room: usize,
}

/// Runs as times.
fn rows_of(alloc: Global, runs: &[Run]) -> Result<Vec<BusyRow>, AllocError>
    ensures { IfOk result (λ rows. rows.items ≡ map row_of_run runs.now) }
{
    runs.iter()
        .map(|run| BusyRow {
            class: run.class,
            start: run.start.0,
            end: run.end.0,
        })
        .collect(alloc)
}

/// The runs of some times in a range, as times.
fn condensed(alloc: Global, rows: &List<BusyRow>, range: Range) -> Result<List<BusyRow>, NoMemory>
    ensures { IfOk result (λ found. times_of found ≡ runs_in (times_of rows.now) range) }
{
    let found = busy_runs(alloc, rows, range)?;
    match rows_of(alloc, found.as_slice()) {
        Ok(rows) => Ok(List::from_vec(rows)),
        Err(_) => Err(NoMemory),
    }
}

/// How many times there may be where so many runs stand in their place.
fn room_beside(count: usize) -> usize
    ensures { result ≤ 2 * count + 1000 }
{
    count.saturating_mul(2).saturating_add(MORE)
}

impl Gathered {
    /// No times, for the runs of a range. Takes no memory yet.
    pub fn new(alloc: Global, range: Range) -> Gathered
        ensures range { spec.gathered_range result ≡ range }
        ensures times { spec.gathered_times result ≡ [] }
        ensures room { spec.gathered_room result ≡ 1000 }
    {
        Gathered {
            alloc,
            range,
            rows: List::new(alloc),
            room: MORE,
        }
    }

    /// Puts the runs in the place of the times, where there is no room for one more.
    fn condense_when_full(&mut self) -> Result<(), NoMemory>
        ensures ok { OnOk result (spec.HasRoom self.old self.new) }
        ensures err { OnErr result (self.new ≡ self.old) }
    {
        if self.rows.len() < self.room {
            return Ok(());
        }
        let rows = condensed(self.alloc, &self.rows, self.range)?;
        self.room = room_beside(rows.len());
        self.rows = rows;
        Ok(())
    }

    /// Puts a time behind those that were gathered. Without memory the runs stay as they were.
    pub fn push(&mut self, row: BusyRow) -> Result<(), NoMemory>
        ensures gathers { OnOk result (Gathers self.old self.new (time_of row ∷ [])) }
        ensures small { OnOk result (spec.StaysSmall self.old self.new) }
        ensures same { OnErr result (Gathers self.old self.new []) }
    {
        self.condense_when_full()?;
        self.rows.push(row)
    }

    /// The longest runs of one class of the times that were gathered, in order.
    pub fn runs(&self) -> Result<List<Run>, NoMemory>
        ensures { IfOk result (λ found. map time_of_run found ≡ spec.gathered_runs self.now) }
    {
        busy_runs(self.alloc, &self.rows, self.range)
    }
}
