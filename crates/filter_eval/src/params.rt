//! Tests of the parameters of a line (RFC 4791, 9.7.3).

ghost use Rattle.std.specs.Prelude.{◌≡◌, ◌&&◌, IfOk, map, bytes_eq};
ghost use Rattle.std.specs.List.{list_any};
ghost use Rattle.cal_base.specs.declared.line.Param.{Param};
ghost use Rattle.cal_model.specs.Filters.TextTests as spec;
ghost use Rattle.filter_eval.specs.ReadyTexts.{params_in};
ghost use Rattle.filter_eval.specs.Tests.{param_filter_of, param_test_of};

use crate::asked::Params;
use crate::ready::ReadyParam;
use crate::texts::TextTest;
use cal_base::{List, Name, NoMemory, Octets, Param};
use cal_model::{ParamFilter, ParamTest};
use std::alloc::Global;

/// What is asked of a parameter.
#[derive(Drop)]
pub enum ParamQuestion<'f> {
    Absent,
    Defined,
    Text(TextTest<'f>),
}

/// A param-filter made ready.
#[derive(Drop)]
pub struct ParamTester<'f> {
    name: &'f Name,
    question: ParamQuestion<'f>,
}

impl<'f> ParamTester<'f> {
    /// A param-filter made ready.
    pub fn of(alloc: Global, filter: &'f ParamFilter) -> Result<ParamTester<'f>, NoMemory>
        ensures { IfOk result (λ tester. param_filter_of tester ≡ filter.now) }
    {
        let question = question_of(alloc, &filter.test)?;
        Ok(ParamTester {
            name: &filter.name,
            question,
        })
    }

    /// Whether the parameters of a line hold what is asked.
    #[tactic(auto, using(crate::proofs::FilteredTests::is_empty_filter, crate::proofs::FilteredTests::some_in_filter))]
    pub fn holds(&self, alloc: Global, params: &Params) -> Result<bool, NoMemory>
        ensures { IfOk result (λ holds. holds ≡ spec.param_filter_holds (params_in params.now) (param_filter_of self.now)) }
    {
        match &self.question {
            ParamQuestion::Absent => Ok(!has_param(params, self.name)),
            ParamQuestion::Defined => Ok(has_param(params, self.name)),
            ParamQuestion::Text(test) => some_param_passes(alloc, test, self.name, params),
        }
    }
}

/// What a test of a parameter asks, made ready.
fn question_of<'f>(alloc: Global, test: &'f ParamTest) -> Result<ParamQuestion<'f>, NoMemory>
    ensures { IfOk result (λ question. param_test_of question ≡ test.now) }
{
    match test {
        ParamTest::Absent => Ok(ParamQuestion::Absent),
        ParamTest::Defined => Ok(ParamQuestion::Defined),
        ParamTest::Text(text) => match TextTest::of(alloc, text) {
            Ok(text) => Ok(ParamQuestion::Text(text)),
            Err(fault) => Err(fault),
        },
    }
}

/// Param-filters made ready.
pub fn testers_of<'f>(
    alloc: Global,
    filters: &'f [ParamFilter],
) -> Result<List<ParamTester<'f>>, NoMemory>
    ensures { IfOk result (λ testers. map param_filter_of testers ≡ filters.now) }
{
    let mut testers = List::new(alloc);
    'filters: for filter in filters {
        testers.push(ParamTester::of(alloc, filter)?)?;
    }
    Ok(testers)
}

/// Whether a parameter has a name.
fn is_named(param: &Param, name: &Name) -> bool
    ensures { result ≡ bytes_eq param.now.name name.now }
{
    param.name.as_slice() == name.as_slice()
}

/// Whether some parameter has a name.
fn has_param(params: &Params, name: &Name) -> bool
    ensures { result ≡ list_any (λ (param : Param). bytes_eq param.name name.now) (params_in params.now) }
{
    match *params {
        Params::Written(params) => has_written(params, name),
        Params::Ready(params) => has_ready(params, name),
    }
}

fn has_written(params: &[Param], name: &Name) -> bool
    ensures { result ≡ list_any (λ (param : Param). bytes_eq param.name name.now) params.now }
{
    params.iter().any(|param| is_named(param, name))
}

fn has_ready(params: &[ReadyParam], name: &Name) -> bool
    ensures { result ≡ list_any (λ (param : Param). bytes_eq param.name name.now) params.now }
{
    params.iter().any(|param| is_named(param.written(), name))
}

/// Whether some value passes.
fn some_value_passes(alloc: Global, test: &TextTest, values: &[Octets]) -> Result<bool, NoMemory>
    ensures { IfOk result (λ passes. passes ≡ list_any (spec.text_passes test.now) values.now) }
{
    let mut rest = values;
    'values: while let Some((value, behind)) = rest.split_first() {
        if test.passes(alloc, value.as_slice())? {
            return Ok(true);
        }
        rest = behind;
    }
    Ok(false)
}

/// Whether a parameter has a name and some value of it passes.
fn named_passes(
    alloc: Global,
    test: &TextTest,
    name: &Name,
    param: &Param,
) -> Result<bool, NoMemory>
    ensures { IfOk result (λ passes. passes ≡ (bytes_eq param.now.name name.now && spec.param_passes test.now param.now)) }
{
    if !is_named(param, name) {
        return Ok(false);
    }
    some_value_passes(alloc, test, param.values.as_slice())
}

/// Whether some value of a parameter of a name passes.
fn some_param_passes(
    alloc: Global,
    test: &TextTest,
    name: &Name,
    params: &Params,
) -> Result<bool, NoMemory>
    ensures { IfOk result (λ passes. passes ≡ list_any (spec.param_passes test.now) (spec.params_named name.now (params_in params.now))) }
{
    match *params {
        Params::Written(params) => some_written_passes(alloc, test, name, params),
        Params::Ready(params) => Ok(some_ready_passes(test, name, params)),
    }
}

fn some_written_passes(
    alloc: Global,
    test: &TextTest,
    name: &Name,
    params: &[Param],
) -> Result<bool, NoMemory>
    ensures { IfOk result (λ passes. passes ≡ list_any (spec.param_passes test.now) (spec.params_named name.now params.now)) }
{
    let mut rest = params;
    'params: while let Some((param, behind)) = rest.split_first() {
        if named_passes(alloc, test, name, param)? {
            return Ok(true);
        }
        rest = behind;
    }
    Ok(false)
}

fn ready_passes(test: &TextTest, name: &Name, param: &ReadyParam) -> bool
    ensures { result ≡ (bytes_eq param.now.name name.now && spec.param_passes test.now param.now) }
{
    is_named(param.written(), name) && param.passes(test)
}

fn some_ready_passes(test: &TextTest, name: &Name, params: &[ReadyParam]) -> bool
    ensures { result ≡ list_any (λ (param : Param). bytes_eq param.name name.now && spec.param_passes test.now param) params.now }
{
    params.iter().any(|param| ready_passes(test, name, param))
}

/// Whether the parameters of a line hold all that is asked.
pub fn all_hold(
    alloc: Global,
    testers: &List<ParamTester>,
    params: &Params,
) -> Result<bool, NoMemory>
    ensures { IfOk result (λ hold. hold ≡ spec.param_filters_hold (map param_filter_of testers.now) (params_in params.now)) }
{
    'testers: for tester in testers.as_slice() {
        let holds = tester.holds(alloc, params)?;
        if !holds {
            return Ok(false);
        }
    }
    Ok(true)
}
