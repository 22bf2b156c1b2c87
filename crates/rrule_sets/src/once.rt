//! The row of an object that happens once. Two thirds of a calendar's objects do: their rows are found
//! without a list and without a search in one.
ghost use Rattle.std.specs.Prelude.{◌≡◌, ◌∷◌, [], length, false, true, Some, All, IfOk, IfSome, MatchOption, flat_map, is_some, ℤ, if◌then◌else◌};
ghost use Rattle.cal_model.specs.Instances.HappensOnce.{is_plain, has_one_start, happens_once, row_from_start, window_of_start, IsOnlyRow};
ghost use Rattle.cal_model.specs.Instances.Rows as spec;
ghost use Rattle.cal_model.specs.Objects.ObjectFacts.{IsRead};
ghost use Rattle.cal_model.specs.TimeZones.TableBounds.{IsTable};
ghost use Rattle.cal_model.specs.Words.Integers.{same_int};
ghost use Rattle.override_merge.specs.Conversions.{IsConvertible, IsConvertibleExtent};

use crate::tables::{local_beside, own_end, value_of};
use cal_base::{List, NoMemory};
use cal_model::{Component, Extent, Object, Row, ZoneTable};
use cal_moment::Stamp;
use override_merge::stamps::kind_of;
use override_merge::starts::own_start;
use std::alloc::Global;

/// 64 days, in seconds.
const WINDOW: i64 = 5_529_600;

/// Whether a component is no override, and has neither a rule, an RDATE nor an EXDATE.
fn is_plain(component: &Component) -> bool
    ensures { result ≡ is_plain component.now }
{
    component.recurrence_id.is_none()
        && component.rules.is_empty()
        && component.dates.is_empty()
        && component.periods.is_empty()
        && component.except.is_empty()
}

/// The component of an object that happens once, and the stamp from which it starts.
fn only_start(components: &[Component]) -> Option<(&Component, Stamp)>
    ensures { MatchOption result (has_one_start components.now ≡ false) (λ only. (components.now ≡ only.0.now ∷ []) × ((is_plain only.0.now ≡ true) × (spec.own_start only.0.now ≡ Some only.1))) }
{
    let (component, others) = components.split_first()?;
    if !others.is_empty() || !is_plain(component) {
        return None;
    }
    let stamp = own_start(component)?;
    Some((component, stamp))
}

/// The row of a first component from its own start, and the window in which it lies.
fn row_from_start(zones: &[ZoneTable], stamp: Stamp, extent: Extent) -> (Row, i32)
    requires zones { All IsTable zones.now }
    requires stamp { IsConvertible (length zones.now) stamp }
    requires extent { IsConvertibleExtent (length zones.now) extent }
    ensures row { result.0 ≡ row_from_start zones.now stamp extent }
    ensures window { result.1 ≡ window_of_start zones.now stamp }
{
    let start = value_of(zones, stamp);
    let window = local_beside(zones, stamp, start).div_euclid(WINDOW);
    let kind = kind_of(stamp);
    let row = Row {
        id: start,
        start,
        end: own_end(zones, stamp, extent, start),
        component: 0,
        id_kind: kind,
        kind,
    };
    (row, window as i32)
}

/// The row of an object that happens once: of one component that is no override, has a start and
/// neither a rule, an RDATE nor an EXDATE. With it comes the window of 64 days in which it lies; other
/// windows have no row. None for every other object. Takes no memory.
pub fn only_row(object: &Object) -> Option<(Row, i32)>
    requires { IsRead object.now }
    ensures rows { IfSome result (λ only. (window : ℤ) → spec.rows_in object.now window ≡ (if same_int only.1 window then only.0 ∷ [] else [])) }
    ensures undated { IfSome result (λ only. spec.undated_rows object.now ≡ []) }
    ensures overrides { IfSome result (λ only. spec.overrides object.now ≡ []) }
    ensures found { is_some result ≡ happens_once object.now }
    ensures only { IfSome result (λ only. IsOnlyRow object.now only.0) }
{
    let (component, stamp) = only_start(object.components.as_slice())?;
    let zones = object.zones.as_slice();
    Some(row_from_start(zones, stamp, component.extent))
}

/// A row that lies in a window, once for each time that this window is named.
pub fn row_in_windows(
    alloc: Global,
    row: Row,
    window: i32,
    windows: &[i32],
) -> Result<List<Row>, NoMemory>
    ensures { IfOk result (λ rows. rows ≡ flat_map (λ (asked : ℤ). if same_int window asked then row ∷ [] else []) windows.now) }
{
    let mut rows = List::new(alloc);
    let mut rest = windows;
    'windows: while let Some((asked, behind)) = rest.split_first() {
        if window == *asked {
            rows.push(row)?;
        }
        rest = behind;
    }
    Ok(rows)
}
