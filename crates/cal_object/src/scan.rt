//! What is found in all lines of a text before they go into a tree.
ghost use Rattle.std.specs.Prelude.{◌≡◌, ◌-◌, ◌<◌, ◌^◌, ◌++◌, length, None, IfOk, OnOk};
ghost use Rattle.cal_base.specs.Lines.ComponentTrees.{nesting_fault};
ghost use Rattle.cal_object.specs.Scan.{IsScanOf, child_numbers};
ghost use Rattle.cal_object.specs.Children as spec;

use crate::marks::{is_begin, is_end};
use crate::outside::{FoundDate, date_outside};
use crate::own_fault::first_own_fault;
use cal_base::{Line, List, NoMemory};
use std::alloc::Global;

/// What the lines of a text say by themselves, wherever they stand in the tree that they make up.
/// Lines are counted from 0.
#[derive(Drop)]
pub struct Scan {
    /// The first line that cannot stand.
    pub own_fault: Option<u32>,
    /// The lines at which the components within the outermost one begin.
    pub children: List<u32>,
    /// The first date that is too early, or else the first that is too late.
    pub outside: Option<FoundDate>,
}

/// One more where a test holds.
fn counted(count: u32, test: bool) -> u32
    requires { count < 2 ^ 32 - 1 }
    ensures { result ≡ spec.counted count test }
{
    if test { count + 1 } else { count }
}

/// Puts the number of a line behind others where a component within the outermost one begins there.
fn put_child(
    children: &mut List<u32>,
    number: u32,
    line: &Line,
    begins: u32,
    ends: u32,
) -> Result<(), NoMemory>
    ensures { OnOk result (children.new ≡ children.old ++ spec.child_at number begins ends line.now) }
{
    if is_begin(line) && begins.saturating_sub(ends) == 1 {
        children.push(number)?;
    }
    Ok(())
}

/// The numbers of the lines at which the components within the outermost one begin: those of the
/// BEGINs before which one more BEGIN than ENDs has come.
fn child_begins(alloc: Global, lines: &[Line]) -> Result<List<u32>, NoMemory>
    requires { length lines.now < 2 ^ 32 }
    ensures { IfOk result (λ numbers. numbers ≡ child_numbers lines.now) }
{
    let mut children = List::new(alloc);
    let mut begins = 0u32;
    let mut ends = 0u32;
    let mut number = 0u32;
    let mut rest = lines;
    'lines: while let Some((line, behind)) = rest.split_first() {
        put_child(&mut children, number, line, begins, ends)?;
        begins = counted(begins, is_begin(line));
        ends = counted(ends, is_end(line));
        number += 1;
        rest = behind;
    }
    Ok(children)
}

/// Scans lines, each once for each of the three answers. Where they are not nested, the scan says
/// nothing: the fault of nesting is then told by what builds the tree.
pub fn scan_lines(alloc: Global, lines: &[Line]) -> Result<Scan, NoMemory>
    requires { length lines.now < 2 ^ 32 }
    ensures { IfOk result (λ found. nesting_fault lines.now ≡ None → IsScanOf lines.now found) }
{
    Ok(Scan {
        own_fault: first_own_fault(alloc, lines)?,
        children: child_begins(alloc, lines)?,
        outside: date_outside(alloc, lines)?,
    })
}
