//! How much is kept of the lines and of the components of a component (RFC 4791, 9.6.1 to 9.6.4).
ghost use Rattle.std.specs.Prelude.{◌≡◌, ℕ, List, suc, flat_map};
ghost use Rattle.cal_model.specs.declared.selection.CompPick.{CompPick as Pick};
ghost use Rattle.cal_model.specs.Selections.Picks.{prop_picks};
ghost use Rattle.expand_limit.specs.KeptParts as spec;
ghost use Rattle.expand_limit.specs.KeptParts.{IsKept, portion_by};

use cal_base::{List, NameMap};
use shown_lines::Portion;

/// What is kept of a component: what one of several picks keeps is kept, whatever the others leave
/// out. Names are looked up in order.
#[derive(Drop)]
pub struct Kept {
    /// Whether all lines are kept whole.
    pub all_props: bool,
    /// Of the properties that are named: whether their lines are kept whole.
    pub props: NameMap<bool>,
    /// Whether all components are kept with all that is in them.
    pub all_comps: bool,
    /// Of the components that are named: the place of what is kept of them.
    pub places: NameMap<usize>,
    pub comps: List<Kept>,
}

/// How much is kept of the lines of a name, where this is kept of their component; without it, all.
pub fn portion(kept: Option<&Kept>, name: &[u8]) -> Portion
    ensures { (levels : ℕ) (picks : List Pick) → IsKept (suc levels) kept.entry picks → result ≡ portion_by (flat_map (prop_picks name.now) picks) }
{
    match kept {
        None => Portion::Whole,
        Some(kept) => named_portion(kept, name),
    }
}

/// How much is kept of the lines of a name.
fn named_portion(kept: &Kept, name: &[u8]) -> Portion
    ensures { result ≡ spec.portion_in kept.now name.now }
{
    if kept.all_props {
        return Portion::Whole;
    }
    match kept.props.get(name) {
        None => Portion::Nothing,
        Some(false) => Portion::Header,
        Some(true) => Portion::Whole,
    }
}

/// What is kept of the components of a name, if they are named.
fn named<'a>(kept: &'a Kept, name: &[u8]) -> Option<&'a Kept>
    ensures { spec.now_of result ≡ spec.named_in kept.now name.now }
{
    match kept.places.get(name) {
        None => None,
        Some(place) => kept.comps.get(*place),
    }
}

/// Whether the components of a name go, where this is kept of the component around them.
pub fn leaves_out(kept: Option<&Kept>, name: &[u8]) -> bool
    ensures { result ≡ spec.leaves_out_as (spec.now_of kept.entry) name.now }
{
    match kept {
        None => false,
        Some(kept) => !kept.all_comps && named(kept, name).is_none(),
    }
}

/// What is kept of the components of a name, which do not go; none for all.
pub fn inner<'a>(kept: Option<&'a Kept>, name: &[u8]) -> Option<&'a Kept>
    ensures { spec.now_of result ≡ spec.inner_as (spec.now_of kept.entry) name.now }
{
    match kept {
        None => None,
        Some(kept) => named_inner(kept, name),
    }
}

/// What is kept of the components of a name; none for all.
fn named_inner<'a>(kept: &'a Kept, name: &[u8]) -> Option<&'a Kept>
    ensures { spec.now_of result ≡ spec.inner_in kept.now name.now }
{
    if kept.all_comps {
        return None;
    }
    named(kept, name)
}
