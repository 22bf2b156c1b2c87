//! Rows in order.
ghost use Rattle.std.specs.Prelude.{◌≡◌, IfOk};
ghost use Rattle.cal_model.specs.Instances.Rows.{in_order};

use cal_base::{List, NoMemory};
use cal_model::Row;

/// The rows of a list by id, then component; of two that agree in both the earlier one first.
pub fn put_in_order(rows: List<Row>) -> Result<List<Row>, NoMemory>
    ensures { IfOk result (λ r. r ≡ in_order rows) }
{
    let mut items = rows.into_vec();
    match items.sort_by_key(|row| (row.id, row.component)) {
        Ok(()) => Ok(List::from_vec(items)),
        Err(_) => Err(NoMemory),
    }
}
