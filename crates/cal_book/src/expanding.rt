//! The work that a claim asks for.
ghost use Rattle.std.specs.Prelude.{◌≡◌, ◌+◌, ◌≤◌, IfOk, IfErr};
ghost use Rattle.cal_model.specs.Instances.Rows.{rows_in};
ghost use Rattle.cal_model.specs.Ranges.Cost.{cost};

use crate::claims::{Claim, Expanded};
use cal_base::{Arc, List, NoMemory, Steps};
use cal_model::Row;
use rrule_sets::window_rows;
use std::alloc::Global;
use std::sync::ledger::Ledger;

/// Finds the rows of a claim. It needs no book, so it runs beside other events. Without memory the
/// claim is given back.
pub fn expand<L: Ledger>(
    alloc: Global,
    claim: Claim,
    steps: &mut Steps<L>,
) -> Result<Expanded, (Claim, NoMemory)>
    ensures ok { IfOk result (λ expanded. expanded.claim ≡ claim) }
    ensures err { IfErr result (λ back. back.0 ≡ claim) }
    ensures steps { steps.new ≤ steps.old + cost claim.stored.object claim.window }
{
    match shared_rows(alloc, &claim, steps) {
        Ok(rows) => Ok(Expanded { claim, rows }),
        Err(NoMemory) => Err((claim, NoMemory)),
    }
}

/// The rows of a claim, for those to share who look at them later.
fn shared_rows<L: Ledger>(
    alloc: Global,
    claim: &Claim,
    steps: &mut Steps<L>,
) -> Result<Arc<List<Row>>, NoMemory>
    ensures rows { IfOk result (λ rows. rows ≡ rows_in claim.now.stored.object claim.now.window) }
    ensures steps { steps.new ≤ steps.old + cost claim.now.stored.object claim.now.window }
{
    let rows = window_rows(alloc, &claim.stored.object, claim.window, steps)?;
    Arc::new(alloc, rows)
}
