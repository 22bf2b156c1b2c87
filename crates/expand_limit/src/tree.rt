//! Components as they are shown, with all that is in them (RFC 4791, 9.6).
ghost use Rattle.std.specs.Prelude.{◌≡◌, ℕ, suc, List, ◌∷◌, ◌++◌, [], flat_map, OnOk};
ghost use Rattle.cal_base.specs.Lines.LineGrammar.{IsLineText};
ghost use Rattle.cal_base.specs.Lines.WrittenLines.{written};
ghost use Rattle.cal_model.specs.declared.selection.CompPick.{CompPick as Pick};
ghost use Rattle.expand_limit.specs.KeptParts.{IsKept};
ghost use Rattle.expand_limit.specs.ShownTexts.{node_text, seen_nodes};
ghost use Rattle.ical_objects.specs.Printing.{IsPrintable, ArePrintable};

use crate::component_names::is_time_zone;
use crate::kept::{Kept, inner, leaves_out};
use crate::lines::{Options, write_lines};
use cal_base::{Name, NoMemory, Node, Octets};
use ical_lines::write_line;
use std::alloc::Global;

/// Writes the line `BEGIN` or `END` of a component.
pub fn write_mark(alloc: Global, mark: &[u8], name: &Name, out: &mut Octets) -> Result<(), NoMemory>
    requires { IsLineText (mark.now ++ name.now) }
    ensures { OnOk result (out.new ≡ out.old ++ written (mark.now ++ name.now)) }
{
    let mut raw = Octets::of(alloc, mark)?;
    raw.extend_from_slice(name.as_slice())?;
    write_line(raw.as_slice(), out)
}

/// Writes a component in a component of which this is kept.
pub fn write_child(
    alloc: Global,
    options: Options,
    around: Option<&Kept>,
    node: &Node,
    out: &mut Octets,
) -> Result<(), NoMemory>
    requires { (levels : ℕ) × IsPrintable levels node.now }
    ensures { OnOk result ((levels : ℕ) (picks : List Pick) → IsPrintable levels node.now → IsKept (suc levels) around.entry picks → out.new ≡ out.old ++ flat_map (node_text picks options.busy) (seen_nodes options.plain (node.now ∷ []))) }
{
    if options.plain && is_time_zone(node) {
        return Ok(());
    }
    if leaves_out(around, node.name.as_slice()) {
        return Ok(());
    }
    let kept = inner(around, node.name.as_slice());
    write_mark(alloc, b"BEGIN:", &node.name, out)?;
    write_lines(alloc, options, kept, node.lines.as_slice(), out)?;
    'children: for child in node.children.as_slice() {
        write_child(alloc, options, kept, child, out)?;
    }
    write_mark(alloc, b"END:", &node.name, out)
}

/// Writes components in a component of which this is kept.
pub fn write_children(
    alloc: Global,
    options: Options,
    around: Option<&Kept>,
    nodes: &[Node],
    out: &mut Octets,
) -> Result<(), NoMemory>
    requires { (levels : ℕ) × ArePrintable levels nodes.now }
    ensures { OnOk result ((levels : ℕ) (picks : List Pick) → ArePrintable levels nodes.now → IsKept (suc levels) around.entry picks → out.new ≡ out.old ++ flat_map (node_text picks options.busy) (seen_nodes options.plain nodes.now)) }
{
    let mut rest = nodes;
    'children: while let Some((child, behind)) = rest.split_first() {
        write_child(alloc, options, around, child, out)?;
        rest = behind;
    }
    Ok(())
}
