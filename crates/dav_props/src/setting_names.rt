//! The names of properties that are set, as they are told apart.
ghost use Rattle.std.specs.Prelude.{◌≡◌, ◌&&◌, ◌++◌, nat_lt, IfOk, OnOk};
ghost use Rattle.cal_model.specs.State.PropertyTexts.{name_size};
ghost use Rattle.cal_model.specs.Refusals.RequestLimits.{name_limit};
ghost use Rattle.cal_model.specs.Properties.PropertyTable as table;
ghost use Rattle.multistatus.specs.NameKeys.{marked, key};

use crate::rows::is_text;
use cal_base::{NoMemory, Octets};
use cal_model::PropName;
use std::alloc::Global;

/// The octets that the name of a text may have, namespace and local name together.
const NAME_LIMIT: usize = 256;

/// Whether the name of a text is too long.
pub(crate) fn is_too_long(name: &PropName) -> bool
    ensures { result ≡ (table.is_text name.now && nat_lt name_limit (name_size name.now)) }
{
    is_text(name) && is_above_limit(name)
}

/// Whether a name has more octets than that of a text may have.
fn is_above_limit(name: &PropName) -> bool
    ensures { result ≡ nat_lt name_limit (name_size name.now) }
{
    let space = name.space.len();
    space > NAME_LIMIT || name.name.len() > NAME_LIMIT - space
}

/// A name as one text, which no other name has.
pub(crate) fn key_of(alloc: Global, name: &PropName) -> Result<Octets, NoMemory>
    ensures { IfOk result (λ octets. octets ≡ key name.now) }
{
    let mut octets = Octets::new(alloc);
    push_marked(name.space.as_slice(), &mut octets)?;
    octets.push(0)?;
    octets.extend_from_slice(name.name.as_slice())?;
    Ok(octets)
}

/// Appends some octets, each behind an octet 1.
#[tactic(auto, unfolding(multistatus::specs::NameKeys::marked))]
fn push_marked(text: &[u8], out: &mut Octets) -> Result<(), NoMemory>
    ensures { OnOk result (out.new ≡ out.old ++ marked text.now) }
{
    'octets: for octet in text {
        out.push(1)?;
        out.push(*octet)?;
    }
    Ok(())
}
