//! The alarms of a component (RFC 5545, 3.6.6).
ghost use Rattle.std.specs.Prelude.{◌≡◌, ◌++◌, filter, filter_map, option_to_list, IfOk, OnOk};
ghost use Rattle.cal_model.specs.Objects.ComponentReading as spec;

use cal_base::{List, NoMemory, Node};
use cal_model::Alarm;
use ical_values::{alarm_of, is_alarm};
use std::alloc::Global;

/// The alarms among the components within one, in order.
pub fn alarms_of(alloc: Global, children: &[Node]) -> Result<List<Alarm>, NoMemory>
    ensures { IfOk result (λ alarms. alarms ≡ filter_map spec.alarm_of (filter spec.is_alarm children.now)) }
{
    let mut alarms = List::new(alloc);
    'children: for child in children {
        if is_alarm(child) {
            add_alarm(child, &mut alarms)?;
        }
    }
    Ok(alarms)
}

/// Adds the alarm of a VALARM to others, where it has one.
fn add_alarm(node: &Node, alarms: &mut List<Alarm>) -> Result<(), NoMemory>
    ensures { OnOk result (alarms.new ≡ alarms.old ++ option_to_list (spec.alarm_of node.now)) }
{
    match alarm_of(node) {
        Some(alarm) => alarms.push(alarm),
        None => Ok(()),
    }
}
