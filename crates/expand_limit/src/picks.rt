//! Picks of one component, taken together and looked up by name (RFC 4791, 9.6.1 to 9.6.4).
ghost use Rattle.std.specs.Prelude.{◌≡◌, ℕ, List, None, ◌∷◌, ◌++◌, [], map, filter, flat_map, bytes_eq, false, if◌then◌else◌, length, ◌<◌, IfSome, IfOk, OnOk};
ghost use Rattle.std.specs.List.{list_any};
ghost use Rattle.std.specs.Borrow.{Bor};
ghost use Rattle.cal_base.specs.Lists.NameMap.{value_at};
ghost use Rattle.cal_model.specs.declared.selection.CompPick.{CompPick as Pick, out-CompPick};
ghost use Rattle.expand_limit.specs.declared.kept.Kept.TheViews.{roll-Kept};
ghost use Rattle.expand_limit.specs.KeptParts.{IsKeptBy, kept_at};
ghost use Rattle.expand_limit.specs.NamedPicks.{said_by, with_prop, is_prop, named_props, is_comp, named_comps, asked_at, IsCovered};

use crate::kept::Kept;
use cal_base::{List, NameMap, NoMemory, Octets};
use cal_model::{CompPick, PropPick};
use std::alloc::Global;

/// Whether the lines of a property are kept whole, where one more pick names it.
fn with_prop(before: Option<bool>, no_value: bool) -> bool
    ensures { result ≡ with_prop before no_value }
{
    match before {
        Some(true) => true,
        _ => !no_value,
    }
}

/// Puts a property that is named among the others.
fn add_prop(alloc: Global, props: &mut NameMap<bool>, prop: &PropPick) -> Result<(), NoMemory>
    ensures { OnOk result ((name : List ℕ) → value_at props.new name ≡ said_by (value_at props.old name) (filter (is_prop name) (prop.now ∷ []))) }
{
    let name = prop.name.as_slice();
    let whole = with_prop(props.get(name).copied(), prop.no_value);
    let key = Octets::of(alloc, name)?;
    props.insert(key, whole)
}

/// Puts the properties that a pick names among the others.
fn add_props(alloc: Global, props: &mut NameMap<bool>, named: &[PropPick]) -> Result<(), NoMemory>
    ensures { OnOk result ((name : List ℕ) → value_at props.new name ≡ said_by (value_at props.old name) (filter (is_prop name) named.now)) }
{
    let mut rest = named;
    'props: while let Some((prop, behind)) = rest.split_first() {
        add_prop(alloc, props, prop)?;
        rest = behind;
    }
    Ok(())
}

/// The properties that some picks name.
fn props_of(alloc: Global, picks: &[&CompPick]) -> Result<NameMap<bool>, NoMemory>
    ensures { IfOk result (λ props. (name : List ℕ) → value_at props name ≡ said_by None (flat_map (named_props name) (map (λ (b : Bor Pick). b.now) picks.now))) }
{
    let mut props = NameMap::new(alloc);
    'picks: for pick in picks {
        add_props(alloc, &mut props, pick.props.as_slice())?;
    }
    Ok(props)
}

/// Whether some pick keeps all lines whole.
fn some_keeps_props(picks: &[&CompPick]) -> bool
    ensures { result ≡ list_any (λ (b : Bor Pick). (out-CompPick b.now).all_props) picks.now }
{
    picks.iter().any(|pick| pick.all_props)
}

/// Whether some pick keeps all components with all that is in them.
fn some_keeps_comps(picks: &[&CompPick]) -> bool
    ensures { result ≡ list_any (λ (b : Bor Pick). (out-CompPick b.now).all_comps) picks.now }
{
    picks.iter().any(|pick| pick.all_comps)
}

/// The components that picks name, with all picks of each.
#[derive(Drop)]
struct Groups<'a> {
    /// The names, each once.
    names: List<Octets>,
    picks: NameMap<List<&'a CompPick>>,
}

/// The picks of components of a name, taken out.
fn take_group<'a>(
    alloc: Global,
    groups: &mut NameMap<List<&'a CompPick>>,
    name: &[u8],
) -> List<&'a CompPick>
    ensures group { map (λ (b : Bor Pick). b.now) result ≡ asked_at (value_at groups.old name.now) }
    ensures others { (other : List ℕ) → bytes_eq other name.now ≡ false → value_at groups.new other ≡ value_at groups.old other }
{
    match groups.remove(name) {
        Some(group) => group,
        None => List::new(alloc),
    }
}

/// Puts a component that is named among the others.
fn add_comp<'a>(
    alloc: Global,
    names: &mut List<Octets>,
    groups: &mut NameMap<List<&'a CompPick>>,
    comp: &'a CompPick,
) -> Result<(), NoMemory>
    ensures groups { OnOk result ((name : List ℕ) → asked_at (value_at groups.new name) ≡ asked_at (value_at groups.old name) ++ filter (is_comp name) (comp.now ∷ [])) }
    ensures names { OnOk result (IsCovered names.old groups.old → IsCovered names.new groups.new) }
{
    let name = comp.name.as_slice();
    let mut group = take_group(alloc, groups, name);
    if group.is_empty() {
        names.push(Octets::of(alloc, name)?)?;
    }
    group.push(comp)?;
    let key = Octets::of(alloc, name)?;
    groups.insert(key, group)
}

/// Puts the components that a pick names among the others.
fn add_comps<'a>(
    alloc: Global,
    names: &mut List<Octets>,
    groups: &mut NameMap<List<&'a CompPick>>,
    named: &'a [CompPick],
) -> Result<(), NoMemory>
    ensures groups { OnOk result ((name : List ℕ) → asked_at (value_at groups.new name) ≡ asked_at (value_at groups.old name) ++ filter (is_comp name) named.now) }
    ensures names { OnOk result (IsCovered names.old groups.old → IsCovered names.new groups.new) }
{
    'comps: for comp in named {
        add_comp(alloc, names, groups, comp)?;
    }
    Ok(())
}

/// The components that some picks name.
fn grouped<'a>(alloc: Global, picks: &[&'a CompPick]) -> Result<Groups<'a>, NoMemory>
    ensures groups { IfOk result (λ groups. (name : List ℕ) → asked_at (value_at groups.picks name) ≡ flat_map (named_comps name) (map (λ (b : Bor Pick). b.now) picks.now)) }
    ensures names { IfOk result (λ groups. IsCovered groups.names groups.picks) }
{
    let mut names = List::new(alloc);
    let mut groups = NameMap::new(alloc);
    'picks: for pick in picks {
        add_comps(alloc, &mut names, &mut groups, pick.comps.as_slice())?;
    }
    Ok(Groups {
        names,
        picks: groups,
    })
}

/// Puts what is kept of the components of a name among the others.
fn add_inner(
    alloc: Global,
    places: &mut NameMap<usize>,
    comps: &mut List<Kept>,
    name: &[u8],
    inner: Kept,
) -> Result<(), NoMemory>
    requires within { (other : List ℕ) → IfSome (value_at places.old other) (λ p. p < length comps.old) }
    ensures within { OnOk result ((other : List ℕ) → IfSome (value_at places.new other) (λ p. p < length comps.new)) }
    ensures kept { OnOk result ((other : List ℕ) → kept_at places.new comps.new other ≡ (if bytes_eq other name.now then Some inner else kept_at places.old comps.old other)) }
{
    let place = comps.len();
    comps.push(inner)?;
    let key = Octets::of(alloc, name)?;
    places.insert(key, place)
}

/// What is kept of a component, put together.
fn put_together(
    all_props: bool,
    props: NameMap<bool>,
    all_comps: bool,
    places: NameMap<usize>,
    comps: List<Kept>,
) -> Kept
    ensures { result ≡ roll-Kept (record { all_props = all_props; props = props; all_comps = all_comps; places = places; comps = comps }) }
{
    Kept {
        all_props,
        props,
        all_comps,
        places,
        comps,
    }
}

/// What the picks of components of a name keep.
#[cycle(keeping)]
fn kept_group(
    alloc: Global,
    levels: u32,
    groups: &NameMap<List<&CompPick>>,
    name: &[u8],
) -> Result<Kept, NoMemory>
    ensures { IfOk result (λ kept. IsKeptBy levels kept (asked_at (value_at groups.now name.now))) }
{
    match groups.get(name) {
        Some(group) => kept_by(alloc, levels, group.as_slice()),
        None => kept_by(alloc, levels, &[]),
    }
}

/// What some picks keep of a component, which has at most so many levels of components in it.
#[cycle(keeping)]
pub fn kept_by(alloc: Global, levels: u32, picks: &[&CompPick]) -> Result<Kept, NoMemory>
    ensures { IfOk result (λ kept. IsKeptBy levels kept (map (λ (b : Bor Pick). b.now) picks.now)) }
{
    let all_props = some_keeps_props(picks);
    let all_comps = some_keeps_comps(picks);
    let props = props_of(alloc, picks)?;
    let mut places = NameMap::new(alloc);
    let mut comps = List::new(alloc);
    if levels == 0 {
        return Ok(put_together(all_props, props, all_comps, places, comps));
    }
    if all_comps {
        return Ok(put_together(all_props, props, all_comps, places, comps));
    }
    let groups = grouped(alloc, picks)?;
    'names: for name in groups.names.as_slice() {
        let inner = kept_group(alloc, levels - 1, &groups.picks, name.as_slice())?;
        add_inner(alloc, &mut places, &mut comps, name.as_slice(), inner)?;
    }
    Ok(put_together(all_props, props, all_comps, places, comps))
}
