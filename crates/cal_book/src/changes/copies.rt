//! Copies of what a request has, for the change that it asks for.
ghost use Rattle.std.specs.Prelude.{◌≡◌, IfOk};

use cal_base::{Arc, List, NoMemory, Octets};
use cal_model::{PropSet, copy_setting};
use std::alloc::Global;

/// A name, shared.
pub(crate) fn copy_name(alloc: Global, name: &[u8]) -> Result<Arc<Octets>, NoMemory>
    ensures { IfOk result (λ copy. copy ≡ name.now) }
{
    Arc::new(alloc, Octets::of(alloc, name)?)
}

/// The name of a calendar and settings of its properties.
pub(crate) fn copy_settings_of(
    alloc: Global,
    name: &Octets,
    sets: &List<PropSet>,
) -> Result<(Arc<Octets>, List<PropSet>), NoMemory>
    ensures name { IfOk result (λ parts. parts.0 ≡ name.now) }
    ensures settings { IfOk result (λ parts. parts.1 ≡ sets.now) }
{
    let name = copy_name(alloc, name.as_slice())?;
    let sets = copy_settings(alloc, sets.as_slice())?;
    Ok((name, sets))
}

/// Settings in their order.
fn copy_settings(alloc: Global, sets: &[PropSet]) -> Result<List<PropSet>, NoMemory>
    ensures { IfOk result (λ copies. copies ≡ sets.now) }
{
    let mut copies = List::new(alloc);
    for set in sets {
        copies.push(copy_setting(alloc, set)?)?;
    }
    Ok(copies)
}
