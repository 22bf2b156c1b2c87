//! Lines with some of the items of their value (RFC 4791, 9.6.7).
ghost use Rattle.std.specs.Prelude.{◌≡◌, ℕ, Bool, List, ◌++◌, filter, OnOk};
ghost use Rattle.std.specs.List.{join_with_byte};
ghost use Rattle.cal_base.specs.Lines.ContentLines.{pieces};
ghost use Rattle.cal_base.specs.Lines.LineGrammar.{IsReadLine};
ghost use Rattle.cal_base.specs.Texts.Octets.{comma};
ghost use Rattle.cal_model.specs.Selections.Picks.{header};
ghost use Rattle.shown_lines.specs.Portions.{written_portion};

use crate::portion::{Portion, header, write_made};
use cal_base::{Line, NoMemory, Octets};
use std::alloc::Global;

/// Writes what is shown of a line with some of the items of its value, which are given with commas
/// between them.
pub fn write_items(
    alloc: Global,
    line: &Line,
    items: &[u8],
    portion: Portion,
    out: &mut Octets,
) -> Result<(), NoMemory>
    requires line { IsReadLine line.now }
    requires items { (kept : List ℕ → Bool) × (items.now ≡ join_with_byte comma (filter kept (pieces comma line.now.value))) }
    ensures { OnOk result (out.new ≡ out.old ++ written_portion portion (record line.now { value = items.now; raw = header line.now ++ items.now })) }
{
    if portion == Portion::Nothing {
        return Ok(());
    }
    let header = Octets::of(alloc, header(line))?;
    write_made(header, items, portion, out)
}
