//! Components whose texts are made ready for many tests: the value of each line and of each parameter
//! is taken without its escapes and folded once.

ghost use Rattle.std.specs.Prelude.{◌≡◌, IfOk};
ghost use Rattle.std.specs.List.{list_any};
ghost use Rattle.cal_model.specs.Filters.TextTests as spec;
ghost use Rattle.filter_eval.specs.ReadyTexts.{node_of};

use crate::texts::{ReadyText, TextTest};
use cal_base::{Line, List, Name, NoMemory, Node, Octets, Param};
use std::alloc::Global;
use std::marker::Model;

/// A parameter with its values made ready. Contracts see the parameter.
#[derive(Drop)]
pub struct ReadyParam<'a> {
    param: &'a Param,
    values: List<ReadyText<'a>>,
}

impl<'a> Model for ReadyParam<'a> {
    ghost use Rattle.std.specs.Prelude.{◌≡◌};
    ghost use Rattle.cal_base.specs.declared.line.Param.{Param as Parameter};

    ghost Value = { Parameter };

    ghost view = { λ p. p.param.now };

    ghost invariant = { λ p. p.values ≡ p.param.now.values };
}

impl<'a> ReadyParam<'a> {
    /// A parameter made ready.
    pub fn of(alloc: Global, param: &'a Param) -> Result<ReadyParam<'a>, NoMemory>
        ensures { IfOk result (λ ready. ready ≡ param.now) }
    {
        let values = ready_texts(alloc, param.values.as_slice())?;
        Ok(ReadyParam { param, values })
    }

    /// The parameter as it was written.
    pub fn written(&self) -> &'a Param
        ensures { result.now ≡ self.now }
    {
        self.param
    }

    /// Whether some value of it passes.
    pub fn passes(&self, test: &TextTest) -> bool
        ensures { result ≡ spec.param_passes test.now self.now }
    {
        some_passes(test, self.values.as_slice())
    }
}

/// A line with its value and those of its parameters made ready. Contracts see the line.
#[derive(Drop)]
pub struct ReadyLine<'a> {
    line: &'a Line,
    value: ReadyText<'a>,
    params: List<ReadyParam<'a>>,
}

impl<'a> Model for ReadyLine<'a> {
    ghost use Rattle.std.specs.Prelude.{◌≡◌};
    ghost use Rattle.cal_base.specs.declared.line.Line.{Line as ContentLine};

    ghost Value = { ContentLine };

    ghost view = { λ l. l.line.now };

    ghost invariant = { λ l. (l.value ≡ l.line.now.value) × (l.params ≡ l.line.now.params) };
}

impl<'a> ReadyLine<'a> {
    /// A line made ready.
    pub fn of(alloc: Global, line: &'a Line) -> Result<ReadyLine<'a>, NoMemory>
        ensures { IfOk result (λ ready. ready ≡ line.now) }
    {
        let value = ReadyText::of(alloc, &line.value)?;
        let params = ready_params(alloc, line.params.as_slice())?;
        Ok(ReadyLine {
            line,
            value,
            params,
        })
    }

    /// The line as it was written.
    pub fn written(&self) -> &'a Line
        ensures { result.now ≡ self.now }
    {
        self.line
    }

    /// Its parameters.
    pub fn params(&self) -> &[ReadyParam<'a>]
        ensures { result.now ≡ self.now.params }
    {
        self.params.as_slice()
    }

    /// Whether its value passes.
    pub fn passes(&self, test: &TextTest) -> bool
        ensures { result ≡ spec.text_passes test.now self.now.value }
    {
        test.passes_ready(&self.value)
    }
}

/// A component with its lines and the components in it made ready.
#[derive(Drop)]
pub struct ReadyNode<'a> {
    pub name: &'a Name,
    pub lines: List<ReadyLine<'a>>,
    pub children: List<ReadyNode<'a>>,
}

/// A component made ready, in memory in proportion to its octets.
pub fn ready_node<'a>(alloc: Global, node: &'a Node) -> Result<ReadyNode<'a>, NoMemory>
    ensures { IfOk result (λ ready. node_of ready ≡ node.now) }
{
    let lines = ready_lines(alloc, node.lines.as_slice())?;
    let mut children = List::new(alloc);
    'children: for child in node.children.as_slice() {
        children.push(ready_node(alloc, child)?)?;
    }
    Ok(ReadyNode {
        name: &node.name,
        lines,
        children,
    })
}

/// Lines made ready.
fn ready_lines<'a>(alloc: Global, lines: &'a [Line]) -> Result<List<ReadyLine<'a>>, NoMemory>
    ensures { IfOk result (λ ready. ready ≡ lines.now) }
{
    let mut ready = List::new(alloc);
    ready.reserve(lines.len())?;
    'lines: for line in lines {
        ready.push(ReadyLine::of(alloc, line)?)?;
    }
    Ok(ready)
}

/// Parameters made ready.
fn ready_params<'a>(alloc: Global, params: &'a [Param]) -> Result<List<ReadyParam<'a>>, NoMemory>
    ensures { IfOk result (λ ready. ready ≡ params.now) }
{
    let mut ready = List::new(alloc);
    ready.reserve(params.len())?;
    'params: for param in params {
        ready.push(ReadyParam::of(alloc, param)?)?;
    }
    Ok(ready)
}

/// Values made ready.
fn ready_texts<'a>(alloc: Global, values: &'a [Octets]) -> Result<List<ReadyText<'a>>, NoMemory>
    ensures { IfOk result (λ ready. ready ≡ values.now) }
{
    let mut ready = List::new(alloc);
    ready.reserve(values.len())?;
    'values: for value in values {
        ready.push(ReadyText::of(alloc, value)?)?;
    }
    Ok(ready)
}

/// Whether some value passes.
fn some_passes(test: &TextTest, texts: &[ReadyText]) -> bool
    ensures { result ≡ list_any (spec.text_passes test.now) texts.now }
{
    texts.iter().any(|text| test.passes_ready(text))
}
