//! When an instance ends that keeps the length of its component.
ghost use Rattle.std.specs.Prelude.{◌≡◌, length, neg_ℤ, pos};
ghost use Rattle.cal_moment.specs.Calendar.{IsBetween};
ghost use Rattle.cal_model.specs.Instances.Starts as spec;
ghost use Rattle.override_merge.specs.Conversions.{tables_of, HasConvertibleRow};

use cal_model::{Component, LocalTimes};
use override_merge::ends::end_of_extent;
use override_merge::starts::own_start;

/// The end of an instance that starts at a moment and keeps the length of its component.
pub fn end_from(zones: &[LocalTimes<'_>], component: &Component, start: i64) -> i64
    requires component { HasConvertibleRow (length zones.now) component.now }
    requires start { IsBetween (neg_ℤ (pos 1_200_000_000_000)) (pos 1_200_000_000_000) start }
    ensures { result ≡ spec.end_from (tables_of zones.now) component.now start }
{
    match own_start(component) {
        Some(stamp) => end_of_extent(zones, stamp, component.extent, start),
        None => start,
    }
}
