//! What texts are asked of: the lines of a component and their parameters, as they were written or
//! with their texts made ready.

ghost use Rattle.std.specs.Prelude.{◌≡◌, length, IfOk, IfSome, MatchOption, Some};
ghost use Rattle.std.specs.List.{IsFirstAndRest, slice_get};
ghost use Rattle.cal_base.specs.declared.line.Node.{Node as Tree};
ghost use Rattle.cal_model.specs.Filters.TextTests as spec;
ghost use Rattle.cal_model.specs.Objects.ComponentLines.{children_of, lines_of};
ghost use Rattle.filter_eval.specs.ReadyTexts.{HasTexts, line_in, lines_in, node_of, params_in};

use crate::ready::{ReadyLine, ReadyNode, ReadyParam};
use crate::subject::Spot;
use crate::texts::TextTest;
use cal_base::{Line, NoMemory, Param};
use std::alloc::Global;

/// The parameters of a line.
#[derive(Clone, Copy)]
pub enum Params<'a, 't> {
    Written(&'a [Param]),
    Ready(&'t [ReadyParam<'a>]),
}

/// A line.
#[derive(Clone, Copy)]
pub enum AskedLine<'a, 't> {
    Written(&'a Line),
    Ready(&'t ReadyLine<'a>),
}

/// The lines of a component.
#[derive(Clone, Copy)]
pub enum Lines<'a, 't> {
    Written(&'a [Line]),
    Ready(&'t [ReadyLine<'a>]),
}

impl<'a, 't> AskedLine<'a, 't> {
    /// The line as it was written.
    pub fn written(&self) -> &'a Line
        ensures { result.now ≡ line_in self.now }
    {
        match *self {
            AskedLine::Written(line) => line,
            AskedLine::Ready(line) => line.written(),
        }
    }

    /// Its parameters.
    pub fn params(&self) -> Params<'a, 't>
        ensures { params_in result ≡ (line_in self.now).params }
    {
        match *self {
            AskedLine::Written(line) => Params::Written(line.params.as_slice()),
            AskedLine::Ready(line) => Params::Ready(line.params()),
        }
    }

    /// Whether its value passes. A value that was made ready takes no memory.
    pub fn passes(&self, alloc: Global, test: &TextTest) -> Result<bool, NoMemory>
        ensures { IfOk result (λ passes. passes ≡ spec.text_passes test.now (line_in self.now).value) }
    {
        match *self {
            AskedLine::Written(line) => test.passes(alloc, line.value.as_slice()),
            AskedLine::Ready(line) => Ok(line.passes(test)),
        }
    }
}

impl<'a, 't> Lines<'a, 't> {
    /// Those of the component at a spot.
    pub fn of(spot: &Spot<'a, 't>) -> Lines<'a, 't>
        requires { HasTexts spot.now }
        ensures { lines_in result ≡ lines_of spot.now.node.now }
    {
        match spot.texts {
            Some(texts) => Lines::Ready(texts.lines.as_slice()),
            None => Lines::Written(spot.node.lines.as_slice()),
        }
    }

    /// The first line, and those behind it.
    pub fn split_first(&self) -> Option<(AskedLine<'a, 't>, Lines<'a, 't>)>
        ensures { MatchOption result (length (lines_in self.now) ≡ 0) (λ parts. IsFirstAndRest (lines_in self.now) (line_in parts.0) (lines_in parts.1)) }
    {
        match *self {
            Lines::Written(lines) => split_written(lines),
            Lines::Ready(lines) => split_ready(lines),
        }
    }
}

fn split_written<'a, 't>(lines: &'a [Line]) -> Option<(AskedLine<'a, 't>, Lines<'a, 't>)>
    ensures { MatchOption result (length lines.now ≡ 0) (λ parts. IsFirstAndRest lines.now (line_in parts.0) (lines_in parts.1)) }
{
    match lines.split_first() {
        Some((line, behind)) => Some((AskedLine::Written(line), Lines::Written(behind))),
        None => None,
    }
}

fn split_ready<'a, 't>(lines: &'t [ReadyLine<'a>]) -> Option<(AskedLine<'a, 't>, Lines<'a, 't>)>
    ensures { MatchOption result (length lines.now ≡ 0) (λ parts. IsFirstAndRest lines.now (line_in parts.0) (lines_in parts.1)) }
{
    match lines.split_first() {
        Some((line, behind)) => Some((AskedLine::Ready(line), Lines::Ready(behind))),
        None => None,
    }
}

/// The texts that were made ready of the component at a place in the one at a spot, where they were.
pub fn inner_texts<'a, 't>(spot: &Spot<'a, 't>, place: usize) -> Option<&'t ReadyNode<'a>>
    ensures { (inner : Tree) → HasTexts spot.now → slice_get (children_of spot.now.node.now) place ≡ Some inner → IfSome result (λ texts. node_of texts.now ≡ inner) }
{
    match spot.texts {
        Some(texts) => texts.children.get(place),
        None => None,
    }
}
