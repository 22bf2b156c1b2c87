//! The zone that a report has of its own (RFC 4791, 9.8).
ghost use Rattle.std.specs.Prelude.{◌≡◌, ◌<◌, ◌^◌, length, IfOk};
ghost use Rattle.cal_model.specs.Objects.ObjectReading as spec;
ghost use Rattle.cal_model.specs.Properties.Settings as settings;
ghost use Rattle.cal_model.specs.Refusals.ReportRefusals.{zone_text};
ghost use Rattle.cal_model.specs.Requests.ContentBounds.{ZoneIsShort};
ghost use Rattle.cal_model.specs.declared.request.Content.{Content as Asked};
ghost use Rattle.dav_reports.specs.ReportOutcomes as outcomes;

use cal_base::{NoMemory, Octets};
use cal_model::{Cond, Refusal, ReportRequest, ZoneTable};
use cal_object::{ReadFault, read_zone};
use std::alloc::Global;

/// The zone of its own that a report has, if it has one, or why its text is refused.
pub(crate) fn zone_given(
    alloc: Global,
    report: &ReportRequest,
) -> Result<Result<Option<ZoneTable>, Refusal>, NoMemory>
    requires short { ZoneIsShort (Asked.Report report.now) }
    ensures zone { IfOk result (λ zone. zone ≡ outcomes.zone_given (zone_text report.now)) }
{
    match report {
        ReportRequest::Query {
            zone: Some(text),
            ..
        } => zone_of_text(alloc, text.as_slice()),
        _ => Ok(Ok(None)),
    }
}

/// The zone of a text, or why it is refused (RFC 4791, 5.3.1 and 9.8).
fn zone_of_text(alloc: Global, text: &[u8]) -> Result<Result<Option<ZoneTable>, Refusal>, NoMemory>
    requires short { length text.now < 2 ^ 32 }
    ensures zone { IfOk result (λ zone. zone ≡ outcomes.zone_read (spec.read_zone text.now)) }
{
    match read_zone(alloc, text) {
        Ok(table) => Ok(Ok(Some(table))),
        Err(ReadFault::NoMemory) => Err(NoMemory),
        Err(_) => Ok(Err(bad_zone(alloc)?)),
    }
}

/// The refusal of a text that is no time zone.
fn bad_zone(alloc: Global) -> Result<Refusal, NoMemory>
    ensures { IfOk result (λ refusal. refusal ≡ settings.bad_zone) }
{
    let condition = Octets::of(alloc, b"<C:valid-calendar-data/>")?;
    Ok(Refusal {
        status: 403,
        cond: Cond::Cal(condition),
    })
}
