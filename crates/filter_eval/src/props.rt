//! Tests of the properties of a component (RFC 4791, 9.7.2).

ghost use Rattle.std.specs.Prelude.{◌≡◌, ◌&&◌, IfOk, map};
ghost use Rattle.std.specs.List.{list_any, list_all};
ghost use Rattle.cal_model.specs.Filters.ComponentRanges.{Site};
ghost use Rattle.cal_model.specs.Filters.Matching as spec;
ghost use Rattle.cal_model.specs.Objects.ComponentLines.{has_name, all_of};
ghost use Rattle.filter_eval.specs.Passing.{line_holds, line_passes};
ghost use Rattle.filter_eval.specs.Places.{IsAt, IsReady, matched_of};
ghost use Rattle.filter_eval.specs.ReadyTexts.{HasTexts, line_in, lines_in};
ghost use Rattle.filter_eval.specs.Tests.{param_filter_of, prop_filter_of, prop_test_of};

use crate::asked::{AskedLine, Lines};
use crate::components::line_is_named;
use crate::dated::some_date_passes;
use crate::params::{ParamTester, all_hold, testers_of};
use crate::subject::{Spot, Subject};
use crate::texts::TextTest;
use cal_base::{Line, List, Name, NoMemory};
use cal_model::{PropFilter, PropTest, Range};
use std::alloc::Global;

/// What is asked of a property.
#[derive(Drop)]
pub enum PropQuestion<'f> {
    Absent,
    Defined,
    Time(Range),
    Text(TextTest<'f>),
}

/// A prop-filter made ready.
#[derive(Drop)]
pub struct PropTester<'f> {
    name: &'f Name,
    question: PropQuestion<'f>,
    params: List<ParamTester<'f>>,
}

impl<'f> PropTester<'f> {
    /// A prop-filter made ready.
    pub fn of(alloc: Global, filter: &'f PropFilter) -> Result<PropTester<'f>, NoMemory>
        ensures { IfOk result (λ tester. prop_filter_of tester ≡ filter.now) }
    {
        let question = question_of(alloc, &filter.test)?;
        let params = testers_of(alloc, filter.params.as_slice())?;
        Ok(PropTester {
            name: &filter.name,
            question,
            params,
        })
    }

    /// Whether a component holds what is asked.
    pub fn holds(&self, alloc: Global, subject: &Subject, spot: &Spot) -> Result<bool, NoMemory>
        requires ready { IsReady subject.now }
        requires texts { HasTexts spot.now }
        ensures { IfOk result (λ holds. (site : Site) → IsAt subject.now.object.now spot.now site → holds ≡ spec.prop_filter_holds (matched_of subject.now) site (prop_filter_of self.now)) }
    {
        let written = spot.node.lines.as_slice();
        let lines = Lines::of(spot);
        match &self.question {
            PropQuestion::Absent => Ok(!has_line(written, self.name)),
            PropQuestion::Defined => some_line_holds(alloc, self.name, &self.params, &lines),
            PropQuestion::Text(test) => {
                some_line_passes(alloc, self.name, test, &self.params, &lines)
            }
            PropQuestion::Time(range) => {
                some_date_passes(alloc, self.name, *range, &self.params, subject, spot)
            }
        }
    }
}

/// What a test of a property asks, made ready.
fn question_of<'f>(alloc: Global, test: &'f PropTest) -> Result<PropQuestion<'f>, NoMemory>
    ensures { IfOk result (λ question. prop_test_of question ≡ test.now) }
{
    match test {
        PropTest::Absent => Ok(PropQuestion::Absent),
        PropTest::Defined => Ok(PropQuestion::Defined),
        PropTest::Time(range) => Ok(PropQuestion::Time(*range)),
        PropTest::Text(text) => match TextTest::of(alloc, text) {
            Ok(text) => Ok(PropQuestion::Text(text)),
            Err(fault) => Err(fault),
        },
    }
}

/// Prop-filters made ready.
pub fn testers_of_props<'f>(
    alloc: Global,
    filters: &'f [PropFilter],
) -> Result<List<PropTester<'f>>, NoMemory>
    ensures { IfOk result (λ testers. map prop_filter_of testers ≡ filters.now) }
{
    let mut testers = List::new(alloc);
    'filters: for filter in filters {
        testers.push(PropTester::of(alloc, filter)?)?;
    }
    Ok(testers)
}

/// Whether a component holds all that is asked.
pub fn all_props_hold(
    alloc: Global,
    testers: &List<PropTester>,
    subject: &Subject,
    spot: &Spot,
) -> Result<bool, NoMemory>
    requires ready { IsReady subject.now }
    requires texts { HasTexts spot.now }
    ensures { IfOk result (λ hold. (site : Site) → IsAt subject.now.object.now spot.now site → hold ≡ list_all (spec.prop_filter_holds (matched_of subject.now) site) (map prop_filter_of testers.now)) }
{
    'testers: for tester in testers.as_slice() {
        let holds = tester.holds(alloc, subject, spot)?;
        if !holds {
            return Ok(false);
        }
    }
    Ok(true)
}

/// Whether some line has a name.
fn has_line(lines: &[Line], name: &Name) -> bool
    ensures { result ≡ list_any (has_name name.now) lines.now }
{
    lines.iter().any(|line| line_is_named(line, name))
}

/// Whether a line has a name and all that is asked of its parameters.
fn named_holds(
    alloc: Global,
    name: &Name,
    params: &List<ParamTester>,
    line: &AskedLine,
) -> Result<bool, NoMemory>
    ensures { IfOk result (λ holds. holds ≡ (has_name name.now (line_in line.now) && line_holds (map param_filter_of params.now) (line_in line.now))) }
{
    if !line_is_named(line.written(), name) {
        return Ok(false);
    }
    all_hold(alloc, params, &line.params())
}

/// Whether some line of a name has all that is asked of its parameters.
fn some_line_holds(
    alloc: Global,
    name: &Name,
    params: &List<ParamTester>,
    lines: &Lines,
) -> Result<bool, NoMemory>
    ensures { IfOk result (λ holds. holds ≡ list_any (line_holds (map param_filter_of params.now)) (all_of name.now (lines_in lines.now))) }
{
    let mut rest = *lines;
    'lines: while let Some((line, behind)) = rest.split_first() {
        if named_holds(alloc, name, params, &line)? {
            return Ok(true);
        }
        rest = behind;
    }
    Ok(false)
}

/// Whether a line has a name, a value that passes, and all that is asked of its parameters.
fn named_passes(
    alloc: Global,
    name: &Name,
    test: &TextTest,
    params: &List<ParamTester>,
    line: &AskedLine,
) -> Result<bool, NoMemory>
    ensures { IfOk result (λ passes. passes ≡ (has_name name.now (line_in line.now) && line_passes test.now (map param_filter_of params.now) (line_in line.now))) }
{
    if !line_is_named(line.written(), name) {
        return Ok(false);
    }
    if !line.passes(alloc, test)? {
        return Ok(false);
    }
    all_hold(alloc, params, &line.params())
}

/// Whether some line of a name has a value that passes and all that is asked of its parameters.
fn some_line_passes(
    alloc: Global,
    name: &Name,
    test: &TextTest,
    params: &List<ParamTester>,
    lines: &Lines,
) -> Result<bool, NoMemory>
    ensures { IfOk result (λ passes. passes ≡ list_any (line_passes test.now (map param_filter_of params.now)) (all_of name.now (lines_in lines.now))) }
{
    let mut rest = *lines;
    'lines: while let Some((line, behind)) = rest.split_first() {
        if named_passes(alloc, name, test, params, &line)? {
            return Ok(true);
        }
        rest = behind;
    }
    Ok(false)
}
