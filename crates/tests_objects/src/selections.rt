//! Selections for the tests.

use cal_base::{List, Name, NoMemory};
use cal_model::{CompPick, PropPick, Range, Recur, Selection};
use cal_moment::{Utc, read_date_time};
use std::alloc::Global;

/// The texts of a start and an end in UTC.
pub type Span = (&'static [u8], &'static [u8]);

/// What is picked of a component.
#[derive(Clone, Copy)]
pub struct Pick {
    pub name: &'static [u8],
    pub all_props: bool,
    /// Its properties, each with whether it is shown without its value.
    pub props: &'static [(&'static [u8], bool)],
    pub all_comps: bool,
    /// The components in it of which nothing is picked.
    pub marks: &'static [&'static [u8]],
}

/// The moment of a text; 1970 for one that is no time in UTC.
fn moment(text: &[u8]) -> Utc {
    match read_date_time(text) {
        Ok((local, true)) => Utc(i64::from(local.day) * 86_400 + i64::from(local.second)),
        _ => Utc(0),
    }
}

pub fn range(span: Span) -> Range {
    Range {
        start: moment(span.0),
        end: moment(span.1),
    }
}

/// Whole components, with an option for recurrence.
pub fn whole(recur: Recur) -> Selection {
    Selection {
        comp: None,
        recur,
        busy: None,
    }
}

/// Whole components, with the FREEBUSY periods that meet a range.
pub fn busy(span: Span) -> Selection {
    Selection {
        comp: None,
        recur: Recur::Whole,
        busy: Some(range(span)),
    }
}

/// What is picked of a component, and of components in it.
pub fn pick_of(alloc: Global, outer: &Pick, inner: &[Pick]) -> Result<CompPick, NoMemory> {
    let mut comps = List::new(alloc);
    for one in inner {
        comps.push(pick_alone(alloc, one)?)?;
    }
    for mark in outer.marks {
        comps.push(mark_alone(alloc, mark)?)?;
    }
    picked(alloc, outer, comps)
}

fn pick_alone(alloc: Global, one: &Pick) -> Result<CompPick, NoMemory> {
    let mut comps = List::new(alloc);
    for mark in one.marks {
        comps.push(mark_alone(alloc, mark)?)?;
    }
    picked(alloc, one, comps)
}

fn picked(alloc: Global, one: &Pick, comps: List<CompPick>) -> Result<CompPick, NoMemory> {
    Ok(CompPick {
        name: Name::of(alloc, one.name)?,
        all_props: one.all_props,
        props: props(alloc, one.props)?,
        all_comps: one.all_comps,
        comps,
    })
}

/// A component of which nothing is picked.
fn mark_alone(alloc: Global, name: &[u8]) -> Result<CompPick, NoMemory> {
    Ok(CompPick {
        name: Name::of(alloc, name)?,
        all_props: false,
        props: List::new(alloc),
        all_comps: false,
        comps: List::new(alloc),
    })
}

fn props(alloc: Global, named: &[(&[u8], bool)]) -> Result<List<PropPick>, NoMemory> {
    let mut props = List::new(alloc);
    for (name, no_value) in named {
        let name = Name::of(alloc, name)?;
        props.push(PropPick {
            name,
            no_value: *no_value,
        })?;
    }
    Ok(props)
}
