//! Properties of resources (RFC 4918, 4 and 15).

ghost use Rattle.std.specs.Prelude.{◌≡◌, IfOk};

use cal_base::{Copies, List, NoMemory, Octets};
use std::alloc::Global;

/// The name of a property.
#[derive(Drop)]
pub struct PropName {
    /// Its namespace, empty for none.
    pub space: Octets,
    /// Its local name.
    pub name: Octets,
}

/// The properties that are asked for.
#[derive(Drop)]
pub enum Props {
    /// `allprop`.
    All,
    /// `propname`: the names without the values.
    Names,
    /// None: the request names none.
    None,
    /// Those named, in order.
    Some(List<PropName>),
}

/// A property to be set or removed.
#[derive(Drop)]
pub struct PropSet {
    pub name: PropName,
    /// Its new value; none to remove it.
    pub value: Option<Octets>,
}

/// A copy of a name.
pub fn copy_name(alloc: Global, name: &PropName) -> Result<PropName, NoMemory>
    ensures { IfOk result (λ copy. copy ≡ name.now) }
{
    let space = Octets::of(alloc, name.space.as_slice())?;
    let name = Octets::of(alloc, name.name.as_slice())?;
    Ok(PropName { space, name })
}

/// A copy of a setting.
pub fn copy_setting(alloc: Global, set: &PropSet) -> Result<PropSet, NoMemory>
    ensures { IfOk result (λ copy. copy ≡ set.now) }
{
    let name = copy_name(alloc, &set.name)?;
    let value = match &set.value {
        Some(value) => Some(Octets::of(alloc, value.as_slice())?),
        None => None,
    };
    Ok(PropSet { name, value })
}

impl Copies for PropSet {
    fn copied(&self, alloc: Global) -> Result<PropSet, NoMemory> {
        copy_setting(alloc, self)
    }
}
