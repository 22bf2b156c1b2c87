//! From a tree to its text.
ghost use Rattle.std.specs.Prelude.{◌≡◌, ℕ, [], ◌∷◌, ◌++◌, flat_map, IfOk, OnOk};
ghost use Rattle.std.specs.List.{AllByRecursion};
ghost use Rattle.cal_base.specs.declared.line.Line.{Line};
ghost use Rattle.cal_base.specs.Lines.WrittenLines.{written, written_line};
ghost use Rattle.cal_base.specs.Lines.ComponentTrees.{printed};
ghost use Rattle.cal_base.specs.Lines.LineGrammar.{IsReadLine, IsLineText, IsBuilt, IsReadAs};
ghost use Rattle.ical_objects.specs.Printing.{IsPrintable, IsOwnLine, AddsLines, lines_of_tree};

use cal_base::{Line, Name, NoMemory, Node, Octets};
use ical_lines::write_line;
use std::alloc::Global;

/// Writes the line `BEGIN` or `END` of a component.
fn write_mark(alloc: Global, mark: &[u8], name: &Name, out: &mut Octets) -> Result<(), NoMemory>
    requires { IsLineText (mark.now ++ name.now) }
    ensures text { OnOk result (out.new ≡ out.old ++ written (mark.now ++ name.now)) }
    ensures lines { OnOk result ((line : Line) → line.raw ≡ mark.now ++ name.now → IsReadLine line → AddsLines out.old (line ∷ []) out.new) }
{
    let mut raw = Octets::of(alloc, mark)?;
    raw.extend_from_slice(name.as_slice())?;
    write_line(raw.as_slice(), out)
}

/// Writes the lines of a component.
fn write_lines(lines: &[Line], out: &mut Octets) -> Result<(), NoMemory>
    requires { AllByRecursion IsOwnLine lines.now }
    ensures text { OnOk result (out.new ≡ out.old ++ flat_map written_line lines.now) }
    ensures lines { OnOk result (AddsLines out.old lines.now out.new) }
{
    'lines: for line in lines {
        write_line(line.raw.as_slice(), out)?;
    }
    Ok(())
}

/// Writes a component: BEGIN, its lines, the components in it, END.
fn write_component(alloc: Global, node: &Node, out: &mut Octets) -> Result<(), NoMemory>
    requires { (levels : ℕ) × IsPrintable levels node.now }
    ensures text { OnOk result (out.new ≡ out.old ++ printed node.now) }
    ensures lines { OnOk result (AddsLines out.old (lines_of_tree node.now) out.new) }
{
    write_mark(alloc, b"BEGIN:", &node.name, out)?;
    write_lines(node.lines.as_slice(), out)?;
    'children: for child in node.children.as_slice() {
        write_component(alloc, child, out)?;
    }
    write_mark(alloc, b"END:", &node.name, out)
}

/// The text of a tree that `build` gives.
///
/// Of each component first its lines stand there, in order, and then the components in it, also
/// where a line stood behind a component. BEGIN and END have the name in upper case and no
/// parameters. What is printed is read as that tree again (RFC 5545, 3.1 and 3.6).
pub fn print(alloc: Global, node: &Node) -> Result<Octets, NoMemory>
    requires { IsBuilt node.now }
    ensures text { IfOk result (λ octets. octets ≡ printed node.now) }
    ensures read_back { IfOk result (λ octets. IsReadAs octets node.now) }
{
    let mut out = Octets::new(alloc);
    write_component(alloc, node, &mut out)?;
    Ok(out)
}
