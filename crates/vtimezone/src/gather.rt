//! The changes of all parts, and how much they count.
ghost use Rattle.std.specs.Prelude.{◌≡◌, ◌+◌, ◌<◌, ◌++◌, ◌∷◌, [], false, map, flat_map, length, sum, All, OnOk, IsErrOf};
ghost use Rattle.cal_model.specs.Recurrence.NextPassing.{is_fine};
ghost use Rattle.cal_model.specs.Recurrence.RuleBounds.{IsWritten, IsUsable};
ghost use Rattle.cal_model.specs.Recurrence.RecurrenceSet.{every_moment};
ghost use Rattle.cal_model.specs.Values.LocalTimes.{moment_of_local};
ghost use Rattle.cal_model.specs.TimeZones.TableBounds.{IsPart};
ghost use Rattle.cal_model.specs.TimeZones.ZoneOnsets as zone;
ghost use Rattle.vtimezone.specs.Gathered as spec;

use crate::change::{Change, add_change};
use crate::fault::TableFault;
use crate::until::end_by;
use cal_base::{List, NoMemory, Steps};
use cal_model::walk::clock::Clock;
use cal_model::walk::rule_walk::{FIRST, begin_walk, next_moment};
use cal_model::{ReadyRule, Rule, Rules, ZonePart};
use cal_moment::Local;
use std::alloc::Global;
use std::sync::ledger::Ledger;

/// What a part counts beside its dates and its rules.
const OF_PART: usize = 1;

/// Counts some more, where `room` allows it.
fn count(room: &mut u32, more: usize) -> Result<(), TableFault>
    ensures room { OnOk result (room.new + more ≡ room.old) }
    ensures many { IsErrOf result TableFault.TooMany → room.old < more }
{
    if more as u64 > *room as u64 {
        return Err(TableFault::TooMany);
    }
    *room -= more as u32;
    Ok(())
}

/// Adds the changes of a part's dates.
fn add_dates(part: &ZonePart, dates: &[Local], changes: &mut List<Change>) -> Result<(), NoMemory>
    requires part { IsPart part.now }
    requires dates { All IsWritten dates.now }
    ensures { OnOk result (spec.HasAdded part.now (map moment_of_local dates.now) changes.old changes.new) }
{
    let mut rest = dates;
    while let Some((date, behind)) = rest.split_first() {
        add_change(part, *date, changes)?;
        rest = behind;
    }
    Ok(())
}

/// Adds the changes of a rule's set, in which the start stands first, by what the rule was made into.
fn add_set<R: ReadyRule, L: Ledger>(
    alloc: Global,
    ready: &R,
    part: &ZonePart,
    rule: &Rule,
    room: &mut u32,
    changes: &mut List<Change>,
    steps: &mut Steps<L>,
) -> Result<(), TableFault>
    requires ready { R.IsReadyFor ready.now rule.now (moment_of_local part.now.start) false }
    requires part { IsPart part.now }
    requires rule { IsUsable rule.now }
    requires coarse { is_fine rule.now.freq ≡ false }
    ensures changes { OnOk result (spec.HasAdded part.now (spec.moments_of_rule part.now rule.now) changes.old changes.new) }
    ensures room { OnOk result (room.new + length (spec.moments_of_rule part.now rule.now) ≡ room.old) }
    ensures many { IsErrOf result TableFault.TooMany → room.old < length (spec.moments_of_rule part.now rule.now) }
{
    count(room, 1)?;
    add_change(part, part.start, changes)?;
    let clock = Clock::Onset(part.from);
    let end = end_by(rule.until);
    let mut walk = begin_walk(alloc, rule, part.start, FIRST);
    'rule: loop {
        let Some(m) = next_moment(
            ready, rule, part.start, &clock, FIRST, end, &mut walk, steps,
        )?
        else {
            return Ok(());
        };
        count(room, 1)?;
        add_change(part, m, changes)?;
    }
}

/// Adds the changes of a rule's set. The rule is made ready once.
fn add_rule<R: Rules, L: Ledger>(
    alloc: Global,
    rules: &R,
    part: &ZonePart,
    rule: &Rule,
    room: &mut u32,
    changes: &mut List<Change>,
    steps: &mut Steps<L>,
) -> Result<(), TableFault>
    requires part { IsPart part.now }
    requires rule { IsUsable rule.now }
    requires coarse { is_fine rule.now.freq ≡ false }
    ensures changes { OnOk result (spec.HasAdded part.now (spec.moments_of_rule part.now rule.now) changes.old changes.new) }
    ensures room { OnOk result (room.new + length (spec.moments_of_rule part.now rule.now) ≡ room.old) }
    ensures many { IsErrOf result TableFault.TooMany → room.old < length (spec.moments_of_rule part.now rule.now) }
{
    let ready = rules.ready(rule, part.start, false);
    add_set(alloc, &ready, part, rule, room, changes, steps)
}

/// Adds the changes of a part's rules.
fn add_rules<R: Rules, L: Ledger>(
    alloc: Global,
    rules: &R,
    part: &ZonePart,
    of_part: &[Rule],
    room: &mut u32,
    changes: &mut List<Change>,
    steps: &mut Steps<L>,
) -> Result<(), TableFault>
    requires part { IsPart part.now }
    requires usable { All IsUsable of_part.now }
    requires coarse { All (λ (rule : Rule). is_fine rule.freq ≡ false) of_part.now }
    ensures changes { OnOk result (spec.HasAdded part.now (flat_map (spec.moments_of_rule part.now) of_part.now) changes.old changes.new) }
    ensures room { OnOk result (room.new + spec.count_of_rules part.now of_part.now ≡ room.old) }
    ensures many { IsErrOf result TableFault.TooMany → room.old < spec.count_of_rules part.now of_part.now }
{
    let mut rest = of_part;
    while let Some((rule, behind)) = rest.split_first() {
        add_rule(alloc, rules, part, rule, room, changes, steps)?;
        rest = behind;
    }
    Ok(())
}

/// Adds the changes of a part.
fn add_part<R: Rules, L: Ledger>(
    alloc: Global,
    rules: &R,
    part: &ZonePart,
    room: &mut u32,
    changes: &mut List<Change>,
    steps: &mut Steps<L>,
) -> Result<(), TableFault>
    requires part { IsPart part.now }
    ensures changes { OnOk result (spec.changes_of changes.new ≡ spec.changes_of changes.old ++ zone.part_changes every_moment part.now) }
    ensures room { OnOk result (room.new + zone.count_of_part every_moment part.now ≡ room.old) }
    ensures many { IsErrOf result TableFault.TooMany → room.old < zone.count_of_part every_moment part.now }
{
    count(room, OF_PART)?;
    count(room, part.dates.len())?;
    add_change(part, part.start, changes)?;
    add_dates(part, part.dates.as_slice(), changes)?;
    add_rules(
        alloc,
        rules,
        part,
        part.rules.as_slice(),
        room,
        changes,
        steps,
    )
}

/// Adds the changes of all parts, in the order of the text.
pub fn add_parts<R: Rules, L: Ledger>(
    alloc: Global,
    rules: &R,
    parts: &[ZonePart],
    room: &mut u32,
    changes: &mut List<Change>,
    steps: &mut Steps<L>,
) -> Result<(), TableFault>
    requires parts { All IsPart parts.now }
    ensures changes { OnOk result (spec.changes_of changes.new ≡ spec.changes_of changes.old ++ flat_map (zone.part_changes every_moment) parts.now) }
    ensures room { OnOk result (room.new + zone.table_count parts.now ≡ room.old) }
    ensures many { IsErrOf result TableFault.TooMany → room.old < zone.table_count parts.now }
{
    let mut rest = parts;
    while let Some((part, behind)) = rest.split_first() {
        add_part(alloc, rules, part, room, changes, steps)?;
        rest = behind;
    }
    Ok(())
}
