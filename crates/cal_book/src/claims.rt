//! Pieces that are claimed, and what became of them.
ghost use Rattle.std.specs.Prelude.{◌≡◌, ◌<◌, ◌≤◌, ◌^◌, false, length};
ghost use Rattle.cal_model.specs.Instances.Rows.{rows as rows_of, rows_in, has_fine_rule};
ghost use Rattle.cal_model.specs.Refusals.RequestLimits.{instances_limit};

use cal_base::{Arc, List};
use cal_model::{Row, Stored};

/// A claim: the rows of an object in a window of 64 days are to be found. The object is shared, so the
/// book may change meanwhile.
#[derive(Drop)]
pub struct Claim {
    pub stored: Arc<Stored>,
    /// The number of the entry that made the object.
    pub origin: u64,
    pub window: i32,
    ghost few: { length stored.object.components < 2 ^ 32 },
    ghost coarse: { has_fine_rule stored.object ≡ false },
    ghost limited: { length (rows_of stored.object) ≤ instances_limit },
}

/// A claim with the rows of its object in its window.
#[derive(Drop)]
pub struct Expanded {
    pub claim: Claim,
    pub rows: Arc<List<Row>>,
    ghost of_it: { rows ≡ rows_in claim.stored.object claim.window },
}

/// What became of rows that were to be published. The claim has ended.
#[derive(Drop)]
pub enum Publish {
    /// They are kept, or there was such a piece already.
    Published,
    /// The object was replaced or deleted meanwhile: the origin of what is at its path now.
    Stale { now: Option<u64> },
    /// There was no memory to keep them.
    NoMemory,
}
