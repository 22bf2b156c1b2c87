//! The rows of components that have no start.
ghost use Rattle.std.specs.Prelude.{◌≡◌, ◌<◌, ◌^◌, ◌++◌, length, option_to_list, IfOk, OnOk};
ghost use Rattle.cal_model.specs.Instances.Rows as spec;
ghost use Rattle.rrule_sets.specs.UndatedRows.{undated_rows_of};

use cal_base::{List, NoMemory};
use cal_model::{Component, Object, Row, RowKind};
use override_merge::starts::own_start;
use std::alloc::Global;

/// The row of a component that has no start.
fn undated_row(component: &Component, number: u32) -> Option<Row>
    ensures { option_to_list result ≡ undated_rows_of number component.now }
{
    match own_start(component) {
        Some(_) => None,
        None => Some(Row {
            id: 0,
            start: 0,
            end: 0,
            component: number,
            id_kind: RowKind::Undated,
            kind: RowKind::Undated,
        }),
    }
}

/// Puts a row, where there is one, behind the others.
fn put_row(row: Option<Row>, out: &mut List<Row>) -> Result<(), NoMemory>
    ensures { OnOk result (out.new ≡ out.old ++ option_to_list row) }
{
    match row {
        Some(row) => out.push(row),
        None => Ok(()),
    }
}

/// The rows of the components that have no start, by component. They lie in no window.
pub fn undated_rows(alloc: Global, object: &Object) -> Result<List<Row>, NoMemory>
    requires { length object.now.components < 2 ^ 32 }
    ensures { IfOk result (λ rows. rows ≡ spec.undated_rows object.now) }
{
    let mut rows = List::new(alloc);
    let mut rest = object.components.as_slice();
    let mut number = 0u32;
    'components: while let Some((component, behind)) = rest.split_first() {
        put_row(undated_row(component, number), &mut rows)?;
        if !behind.is_empty() {
            number += 1;
        }
        rest = behind;
    }
    Ok(rows)
}
