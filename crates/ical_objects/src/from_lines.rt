//! From lines to a tree.
ghost use Rattle.std.specs.Prelude.{◌≡◌, ℕ, ◌<◌, ◌^◌, [], ◌∷◌, ◌++◌, bytes_eq, length, None, Some, All, IfOk, IfErr, IsTrue, IsFalse};
ghost use Rattle.cal_base.specs.Lines.ComponentTrees.{is_begin, is_end, component_name, nesting_fault, tree_of};
ghost use Rattle.cal_base.specs.Lines.LineGrammar.{IsReadLine, IsComponent};
ghost use Rattle.cal_base.specs.Lines.Nesting.{fault_from};
ghost use Rattle.ical_objects.specs.Faults.{IsFaultOf};
ghost use Rattle.ical_objects.specs.Building.{IsBehind, IsStep, IsStop, whole_node, ended, openings, tree_with};

use crate::fault::TreeFault;
use crate::open_component::OpenComponent;
use cal_base::{Line, List, Name, NoMemory, Node, Stack};
use std::alloc::Global;

/// How many components may be open.
const DEEPEST: usize = 4;

/// What the lines so far make up.
#[derive(Drop)]
pub enum Progress {
    /// There was no line.
    Nothing,
    /// A component is open, and others around it.
    Within {
        inner: OpenComponent,
        around: Stack<OpenComponent>,
    },
    /// The outermost END has come.
    Whole(Node),
}

fn is_begin(line: &Line) -> bool
    ensures { result ≡ is_begin line.now }
{
    line.name.as_slice() == b"BEGIN".as_slice()
}

fn is_end(line: &Line) -> bool
    ensures { result ≡ is_end line.now }
{
    line.name.as_slice() == b"END".as_slice()
}

/// The component that a BEGIN opens.
fn opened(alloc: Global, number: u32, line: &Line) -> Result<OpenComponent, NoMemory>
    ensures { IfOk result (λ component. component ≡ record { begin = number; name = component_name line.now; lines = []; children = [] }) }
{
    Ok(OpenComponent {
        begin: number,
        name: Name::of(alloc, line.value.as_slice())?,
        lines: List::new(alloc),
        children: List::new(alloc),
    })
}

/// The first line.
#[tactic(auto, using(crate::proofs::BuildSteps::step_first, crate::proofs::BuildSteps::stop_first))]
fn first(alloc: Global, line: &Line) -> Result<Progress, TreeFault>
    ensures step { IfOk result (λ after. IsStep 0 Progress.Nothing line.now after) }
    ensures stop { IfErr result (λ fault. IsStop 0 Progress.Nothing line.now fault) }
{
    if !is_begin(line) {
        return Err(TreeFault::WrongEnd { line: 0 });
    }
    Ok(Progress::Within {
        inner: opened(alloc, 0, line)?,
        around: Stack::new(alloc),
    })
}

/// A BEGIN within a component.
#[tactic(auto, using(crate::proofs::BuildSteps::step_begin, crate::proofs::BuildSteps::stop_begin))]
fn begin(
    alloc: Global,
    inner: OpenComponent,
    mut around: Stack<OpenComponent>,
    number: u32,
    line: &Line,
) -> Result<Progress, TreeFault>
    requires { IsTrue (is_begin line.now) }
    ensures step { IfOk result (λ after. IsStep number (Progress.Within inner around) line.now after) }
    ensures stop { IfErr result (λ fault. IsStop number (Progress.Within inner around) line.now fault) }
{
    if around.len() >= DEEPEST - 1 {
        return Err(TreeFault::TooDeep { line: number });
    }
    around.push(inner)?;
    Ok(Progress::Within {
        inner: opened(alloc, number, line)?,
        around,
    })
}

/// The component whose END has come.
fn whole(component: OpenComponent) -> Node
    ensures { result ≡ whole_node component }
{
    Node {
        name: component.name,
        lines: component.lines,
        children: component.children,
    }
}

/// What is open behind the END of a component.
fn closed(inner: OpenComponent, mut around: Stack<OpenComponent>) -> Result<Progress, NoMemory>
    ensures { IfOk result (λ after. after ≡ ended inner around) }
{
    let node = whole(inner);
    match around.pop() {
        None => Ok(Progress::Whole(node)),
        Some(mut outer) => {
            outer.children.push(node)?;
            Ok(Progress::Within {
                inner: outer,
                around,
            })
        }
    }
}

/// An END within a component.
#[tactic(auto, using(crate::proofs::BuildSteps::step_end, crate::proofs::BuildSteps::stop_end))]
fn end(
    alloc: Global,
    inner: OpenComponent,
    around: Stack<OpenComponent>,
    number: u32,
    line: &Line,
) -> Result<Progress, TreeFault>
    requires no_begin { IsFalse (is_begin line.now) }
    requires end { IsTrue (is_end line.now) }
    ensures step { IfOk result (λ after. IsStep number (Progress.Within inner around) line.now after) }
    ensures stop { IfErr result (λ fault. IsStop number (Progress.Within inner around) line.now fault) }
{
    if !is_end_of(alloc, &inner, line)? {
        return Err(TreeFault::WrongEnd { line: number });
    }
    Ok(closed(inner, around)?)
}

/// Whether a line has the name of the component.
fn is_end_of(alloc: Global, component: &OpenComponent, line: &Line) -> Result<bool, NoMemory>
    ensures { IfOk result (λ same. same ≡ bytes_eq (component_name line.now) component.now.name) }
{
    let name = Name::of(alloc, line.value.as_slice())?;
    Ok(name == component.name)
}

/// A line within a component.
#[tactic(auto, using(crate::proofs::BuildSteps::step_own))]
fn within(
    alloc: Global,
    inner: OpenComponent,
    around: Stack<OpenComponent>,
    number: u32,
    line: Line,
) -> Result<Progress, TreeFault>
    ensures step { IfOk result (λ after. IsStep number (Progress.Within inner around) line after) }
    ensures stop { IfErr result (λ fault. IsStop number (Progress.Within inner around) line fault) }
{
    if is_begin(&line) {
        return begin(alloc, inner, around, number, &line);
    }
    if is_end(&line) {
        return end(alloc, inner, around, number, &line);
    }
    Ok(with_own(inner, around, line)?)
}

/// What is open behind a line of the component itself.
fn with_own(
    mut inner: OpenComponent,
    around: Stack<OpenComponent>,
    line: Line,
) -> Result<Progress, NoMemory>
    ensures { IfOk result (λ after. after ≡ Progress.Within (record inner { lines = inner.lines ++ line ∷ [] }) around) }
{
    inner.lines.push(line)?;
    Ok(Progress::Within { inner, around })
}

/// One line more.
#[tactic(auto, using(crate::proofs::BuildSteps::stop_whole))]
fn with_line(
    alloc: Global,
    progress: Progress,
    number: u32,
    line: Line,
) -> Result<Progress, TreeFault>
    requires { IsBehind number progress }
    ensures step { IfOk result (λ after. IsStep number progress line after) }
    ensures stop { IfErr result (λ fault. IsStop number progress line fault) }
{
    match progress {
        Progress::Nothing => first(alloc, &line),
        Progress::Within { inner, around } => within(alloc, inner, around, number, line),
        Progress::Whole(_) => Err(TreeFault::WrongEnd { line: number }),
    }
}

/// The tree, where no line comes behind.
fn finished(progress: Progress) -> Result<Node, TreeFault>
    ensures whole { IfOk result (λ node. tree_with progress [] ≡ Some node) }
    ensures faultless { IfOk result (λ node. (number : ℕ) → IsBehind number progress → fault_from number (openings progress) [] ≡ None) }
    ensures stop { IfErr result (λ fault. (number : ℕ) → IsBehind number progress → IsFaultOf (fault_from number (openings progress) []) fault) }
{
    match progress {
        Progress::Nothing => Err(TreeFault::Unclosed { line: 0 }),
        Progress::Within { inner, .. } => Err(TreeFault::Unclosed { line: inner.begin }),
        Progress::Whole(node) => Ok(node),
    }
}

/// The tree of lines, each of which is the one that is read from its own text (RFC 5545, 3.4 and
/// 3.6).
///
/// Nothing is copied: each line goes into its component. The first line that has a fault is told,
/// by its number from 0. Parameters of a BEGIN or END are passed over. Memory may be wanting at any
/// line, and no other answer is free.
pub fn build(alloc: Global, lines: List<Line>) -> Result<Node, TreeFault>
    requires few { length lines < 2 ^ 32 }
    requires read { All IsReadLine lines }
    ensures tree { IfOk result (λ node. (nesting_fault lines ≡ None) × (tree_of lines ≡ Some node)) }
    ensures nested { IfOk result (IsComponent lines) }
    ensures fault { IfErr result (IsFaultOf (nesting_fault lines)) }
{
    // Fewer than 2^32 lines: the number of each fits, and so does that of the place behind the last.
    let mut progress = Progress::Nothing;
    let mut number = 0u32;
    'lines: for line in lines.into_vec() {
        progress = with_line(alloc, progress, number, line)?;
        number += 1;
    }
    finished(progress)
}
