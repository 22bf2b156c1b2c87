//! The zones of an object at hand for many conversions (RFC 5545, 3.3.5 and 3.6.5).
ghost use Rattle.std.specs.Prelude.{◌≡◌, ◌<◌, length};
ghost use Rattle.cal_model.specs.Instances.Alignment.{zone_of};
ghost use Rattle.cal_model.specs.TimeZones.Zones.{instant_of};
ghost use Rattle.cal_model.specs.Values.LocalTimes.{local_seconds};
ghost use Rattle.cal_object.specs.Alignments.{tables_of};

use cal_model::LocalTimes;
use cal_moment::Local;

/// The instant of a local time in the zone of a number, in seconds since 1970.
pub(crate) fn instant_in(zones: &[LocalTimes<'_>], number: u32, local: Local) -> i64
    requires { number < length zones.now }
    ensures { result ≡ instant_of (zone_of (tables_of zones.now) number) (local_seconds local) }
{
    zones[number as usize].to_utc(local).0
}
