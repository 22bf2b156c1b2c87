//! Objects that the journal has, shared with who works on them.
ghost use Rattle.std.specs.Prelude.{◌≡◌, IfOk, IsSome, option_map};
ghost use Rattle.std.specs.Option.{option_copied};
ghost use Rattle.cal_model.specs.History.KeptChanges.{kept_change};
ghost use Rattle.cal_model.specs.History.LiveObjects.{live_at, placed_at, placed_by};
ghost use Rattle.cal_model.specs.Refusals.Preconditions.{IsServable};
ghost use Rattle.cal_book.specs.ClaimsOut.{IsMadeAt, placed_of};

use crate::history::History;
use cal_base::{Arc, NoMemory};
use cal_journal::Entry;
use cal_model::{Change, Stored};

/// The object that an entry puts.
fn stored_in(entry: &Entry) -> Option<&Arc<Stored>>
    ensures { placed_by (kept_change entry.now.change) ≡ option_map placed_of (option_copied result) }
{
    match &entry.change {
        Change::Put(stored) => Some(stored),
        _ => None,
    }
}

/// The object that the entry of a number puts.
fn made_by(history: &History, origin: u64) -> Option<&Arc<Stored>>
    ensures { placed_at history.now.journal origin ≡ option_map placed_of (option_copied result) }
{
    match history.entry(origin) {
        Some(entry) => stored_in(entry),
        None => None,
    }
}

/// The object that an entry made and that is still there, shared once more.
pub(crate) fn share(history: &History, origin: u64) -> Result<Arc<Stored>, NoMemory>
    requires live { IsSome (live_at history.now.journal origin) }
    ensures made { IfOk result (λ stored. IsMadeAt history.now.journal origin stored) }
    ensures servable { IfOk result (λ stored. IsServable stored.octets) }
{
    let _entries = history.entries();
    match made_by(history, origin) {
        Some(stored) => Arc::try_clone(stored),
        None => unreachable!(),
    }
}
