//! The runs of a range, from its end to its start.

ghost use Rattle.std.specs.Prelude.{◌≡◌, IfOk, OnOk, reverse};
ghost use Rattle.cal_model.specs.Busy.BusyRuns.{runs_of_classes};
ghost use Rattle.freebusy.specs.Ends as ends;
ghost use Rattle.freebusy.specs.Sweep as spec;
ghost use Rattle.freebusy.specs.Times.{time_of_run};

use crate::busy::Run;
use crate::ends::Classes;
use crate::left::{border, left_back, left_before, open_class};
use cal_base::{List, NoMemory};
use cal_model::{Class, Range};
use cal_moment::Utc;
use std::alloc::Global;

/// Puts a run before those that were found, of which the first comes last: it lengthens the first
/// where that follows at once and has its class.
fn add_run(found: &mut List<Run>, run: Run) -> Result<(), NoMemory>
    ensures { OnOk result (spec.in_order found.new ≡ spec.with_run (time_of_run run) (spec.in_order found.old)) }
{
    let Some(next) = found.pop() else {
        return found.push(run);
    };
    if next.class == run.class && next.start.0 == run.end.0 {
        return found.push(Run {
            start: run.start,
            ..next
        });
    }
    found.push(next)?;
    found.push(run)
}

/// Puts a stretch of one class before the runs that were found; one without a class gives no run.
fn add_stretch(
    found: &mut List<Run>,
    class: Option<Class>,
    from: i64,
    to: i64,
) -> Result<(), NoMemory>
    ensures { OnOk result (spec.in_order found.new ≡ spec.with_stretch class from to (spec.in_order found.old)) }
{
    match class {
        Some(class) if from < to => add_run(
            found,
            Run {
                start: Utc(from),
                end: Utc(to),
                class,
            },
        ),
        _ => Ok(()),
    }
}

/// The runs of a range, the last one first: from each moment at which a class opens or closes up to the
/// next one the class stays.
pub(crate) fn sweep(alloc: Global, classes: &Classes, range: Range) -> Result<List<Run>, NoMemory>
    requires { ends.AreAllRising classes.now }
    ensures { IfOk result (λ found. spec.in_order found ≡ runs_of_classes (ends.open_class classes.now) range) }
{
    let first = range.start.0;
    let mut found = List::new(alloc);
    let mut left = left_before(classes, range.end.0);
    'stretches: while first < left.upper {
        let from = border(classes, left, first);
        add_stretch(&mut found, open_class(left), from, left.upper)?;
        left = left_back(classes, left, from);
    }
    Ok(found)
}

/// A list the other way round.
pub(crate) fn turned_round(found: List<Run>) -> List<Run>
    ensures { result ≡ reverse found }
{
    let mut runs = found.into_vec();
    runs.reverse();
    List::from_vec(runs)
}
