//! Filters made ready for many objects: each text is folded and analysed once.

ghost use Rattle.std.specs.Prelude.{◌≡◌, IfOk, map};
ghost use Rattle.std.specs.List.{list_any};
ghost use Rattle.filter_eval.specs.NeededRows.{asks_row, needs_row};
ghost use Rattle.filter_eval.specs.Tests.{comp_filter_of};

use crate::components::is_named;
use crate::props::{PropTester, testers_of_props};
use cal_base::{List, Name, NoMemory};
use cal_model::{CompFilter, Filter, ParamTest, PropFilter, PropTest, Range};
use std::alloc::Global;
use std::marker::Model;

/// The most tests of texts in a filter for which the texts of an object are not made ready: each of
/// them takes escapes away, and folds, by itself.
const FEW_TEXTS: usize = 8;

/// A comp-filter made ready.
#[derive(Drop)]
pub struct CompTester<'f> {
    pub name: &'f Name,
    /// Whether it asks that there is none, and nothing else.
    pub absent: bool,
    pub time: Option<Range>,
    pub props: List<PropTester<'f>>,
    pub comps: List<CompTester<'f>>,
}

/// A filter made ready, once for all objects that it is to be matched with: no text of it is looked
/// at again but to be found. Contracts see the filter.
#[derive(Drop)]
pub struct Prepared<'f> {
    pub(crate) top: CompTester<'f>,
    /// Whether it asks for a date of some property.
    pub(crate) dated: bool,
    /// Whether it has so many tests of texts that those of an object are worth being made ready.
    pub(crate) many_texts: bool,
    /// Whether it asks a range of an alarm.
    pub(crate) alarmed: bool,
    /// Whether no object without rows matches it.
    pub(crate) needs_row: bool,
}

impl<'f> Model for Prepared<'f> {
    ghost use Rattle.std.specs.Coded.{codes};
    ghost use Rattle.cal_model.specs.declared.filter.Filter.{Filter as Whole};
    ghost use Rattle.cal_model.specs.contracts.filter.CompFilter as levels;
    ghost use Rattle.filter_eval.specs.NeededRows as needed;
    ghost use Rattle.filter_eval.specs.Tests.{comp_filter_of};
    ghost use Rattle.std.specs.Prelude.{◌≡◌};

    ghost Value = { Whole };

    ghost coded = { Prim.hlevel (codes, levels.the_row.coded) };

    ghost view = { λ p. record { top = comp_filter_of p.top } };

    ghost invariant = { λ p. p.needs_row ≡ needed.needs_row (comp_filter_of p.top) };
}

impl<'f> Prepared<'f> {
    /// A filter made ready.
    pub fn of(alloc: Global, filter: &'f Filter) -> Result<Prepared<'f>, NoMemory>
        ensures { IfOk result (λ prepared. prepared ≡ filter.now) }
    {
        match comp_tester(alloc, &filter.top) {
            Ok(top) => Ok(Prepared {
                top,
                dated: asks_date(&filter.top),
                many_texts: texts_with(&filter.top, 0) > FEW_TEXTS,
                alarmed: asks_alarm(&filter.top),
                needs_row: needs_row(&filter.top),
            }),
            Err(fault) => Err(fault),
        }
    }
}

/// Whether a comp-filter asks for a date of some property, by itself or by one in it.
fn asks_date(filter: &CompFilter) -> bool {
    let props = filter.props.as_slice();
    if props
        .iter()
        .any(|prop| matches!(prop.test, PropTest::Time(_)))
    {
        return true;
    }
    'comps: for inner in filter.comps.as_slice() {
        if asks_date(inner) {
            return true;
        }
    }
    false
}

/// How many tests of texts a prop-filter has.
fn texts_of(filter: &PropFilter) -> usize {
    let params = filter.params.as_slice();
    let texts = params
        .iter()
        .filter(|param| matches!(param.test, ParamTest::Text(_)))
        .count();
    if matches!(filter.test, PropTest::Text(_)) {
        texts.saturating_add(1)
    } else {
        texts
    }
}

/// How many tests of texts a comp-filter has, by itself and in those in it, and so many beside.
fn texts_with(filter: &CompFilter, beside: usize) -> usize {
    let mut texts = beside;
    'props: for prop in filter.props.as_slice() {
        texts = texts.saturating_add(texts_of(prop));
    }
    'comps: for inner in filter.comps.as_slice() {
        texts = texts_with(inner, texts);
    }
    texts
}

/// Whether a comp-filter asks a range of a VALARM, by itself or by one in it.
fn asks_alarm(filter: &CompFilter) -> bool {
    if filter.time.is_some() && is_named(&filter.name, b"VALARM") {
        return true;
    }
    'comps: for inner in filter.comps.as_slice() {
        if asks_alarm(inner) {
            return true;
        }
    }
    false
}

/// Whether the comp-filter of the outermost component has one in it that some row alone lets pass, so
/// that it holds of no object without rows.
fn needs_row(filter: &CompFilter) -> bool
    ensures { result ≡ needs_row filter.now }
{
    !filter.absent && some_asks_row(filter.comps.as_slice())
}

fn some_asks_row(filters: &[CompFilter]) -> bool
    ensures { result ≡ list_any asks_row filters.now }
{
    filters.iter().any(|filter| asks_row(filter))
}

/// Whether a comp-filter asks a range of a component that is no VALARM.
fn asks_row(filter: &CompFilter) -> bool
    ensures { result ≡ asks_row filter.now }
{
    !filter.absent && filter.time.is_some() && !is_named(&filter.name, b"VALARM")
}

/// A comp-filter made ready.
fn comp_tester<'f>(alloc: Global, filter: &'f CompFilter) -> Result<CompTester<'f>, NoMemory>
    ensures { IfOk result (λ tester. comp_filter_of tester ≡ filter.now) }
{
    let props = testers_of_props(alloc, filter.props.as_slice())?;
    let mut comps = List::new(alloc);
    'comps: for comp in filter.comps.as_slice() {
        comps.push(comp_tester(alloc, comp)?)?;
    }
    Ok(CompTester {
        name: &filter.name,
        absent: filter.absent,
        time: filter.time,
        props,
        comps,
    })
}
