//! Names of properties that stand once.
ghost use Rattle.std.specs.Prelude.{◌≡◌, ◌++◌, ◌∷◌, [], IfOk, OnOk, if◌then◌else◌, is_some, true};
ghost use Rattle.cal_base.specs.Lists.NameMap.{value_at, with_value};
ghost use Rattle.cal_model.specs.Properties.PropertyReplies.{once};
ghost use Rattle.multistatus.specs.NameKeys.{marked, key};

use cal_base::{List, NameMap, NoMemory, Octets};
use cal_model::{PropName, copy_name};
use std::alloc::Global;

/// Each of some names once, at its first place (RFC 4918, 9.1). The time is that of putting so many
/// names in order.
pub fn once(alloc: Global, names: &[PropName]) -> Result<List<PropName>, NoMemory>
    ensures { IfOk result (λ list. list ≡ once names.now) }
{
    let mut met = NameMap::new(alloc);
    let mut list = List::new(alloc);
    'names: for name in names {
        add_new(alloc, name, &mut met, &mut list)?;
    }
    Ok(list)
}

/// Adds a name that was not met before.
fn add_new(
    alloc: Global,
    name: &PropName,
    met: &mut NameMap<bool>,
    list: &mut List<PropName>,
) -> Result<(), NoMemory>
    ensures met { OnOk result (met.new ≡ (if is_some (value_at met.old (key name.now)) then met.old else with_value met.old (key name.now) true)) }
    ensures list { OnOk result (list.new ≡ (if is_some (value_at met.old (key name.now)) then list.old else list.old ++ name.now ∷ [])) }
{
    let key = key_of(alloc, name)?;
    if met.get(key.as_slice()).is_some() {
        return Ok(());
    }
    met.insert(key, true)?;
    list.push(copy_name(alloc, name)?)
}

/// A name as one text, which no other name has.
fn key_of(alloc: Global, name: &PropName) -> Result<Octets, NoMemory>
    ensures { IfOk result (λ octets. octets ≡ key name.now) }
{
    let mut octets = Octets::new(alloc);
    push_marked(name.space.as_slice(), &mut octets)?;
    octets.push(0)?;
    octets.extend_from_slice(name.name.as_slice())?;
    Ok(octets)
}

/// Appends some octets, each behind an octet 1.
#[tactic(auto, unfolding(crate::specs::NameKeys::marked))]
fn push_marked(text: &[u8], out: &mut Octets) -> Result<(), NoMemory>
    ensures { OnOk result (out.new ≡ out.old ++ marked text.now) }
{
    'octets: for octet in text {
        out.push(1)?;
        out.push(*octet)?;
    }
    Ok(())
}
