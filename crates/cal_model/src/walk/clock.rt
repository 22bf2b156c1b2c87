//! How the local moments of a start are read (RFC 5545, 3.3.5).
ghost use Rattle.std.specs.Prelude.{◌≡◌, true};
ghost use Rattle.cal_moment.specs.Calendar.{seconds_since_1970};
ghost use Rattle.cal_model.specs.Recurrence.RuleBounds.{IsWritten};
ghost use Rattle.cal_model.specs.Values.LocalTimes.{moment_of_local, local_seconds};
ghost use Rattle.cal_model.specs.TimeZones.TableBounds.{IsDigits};
ghost use Rattle.cal_model.specs.Walks.Clocks.{reading_by, IsClock};

use crate::zone::ZoneTable;
use crate::zone_time::{exists, offset_at, seconds_of, to_utc};
use cal_moment::{Local, Utc};

/// The clock beside which a start is written.
#[derive(Clone, Copy)]
pub enum Clock<'a> {
    /// Of a DATE.
    Date,
    /// Of digits that name no zone.
    Floating,
    Utc,
    /// Of a zone.
    Zoned(&'a ZoneTable),
    /// Of the onsets of a zone: the offset before each, in seconds east of UTC.
    Onset(i32),
}

impl Clock<'_> {
    /// Whether a local moment exists.
    pub fn exists(&self, m: Local) -> bool
        requires clock { IsClock self.now }
        ensures { result ≡ (reading_by self.now).exists (local_seconds m) }
    {
        match self {
            Clock::Zoned(zone) => exists(zone, m),
            _ => true,
        }
    }

    /// Its instant in seconds since 1970, or its digits where the clock is that of no zone.
    pub fn instant(&self, m: Local) -> i64
        requires clock { IsClock self.now }
        ensures { result ≡ (reading_by self.now).instant (local_seconds m) }
    {
        match self {
            Clock::Zoned(zone) => to_utc(zone, m).0,
            Clock::Onset(from) => seconds_of(m) - *from as i64,
            _ => seconds_of(m),
        }
    }

    /// The local time of an instant, by its digits in seconds since 1970.
    pub fn local(&self, u: i64) -> i64
        requires clock { IsClock self.now }
        requires near { IsDigits u }
        ensures { result ≡ (reading_by self.now).local u }
    {
        match self {
            Clock::Zoned(zone) => u + offset_at(zone, Utc(u)) as i64,
            Clock::Onset(from) => u + *from as i64,
            _ => u,
        }
    }
}
