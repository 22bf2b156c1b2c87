//! Refusals of a report as replies (RFC 4918, 16; RFC 4791, 1.3 and 7.8).
ghost use Rattle.std.specs.Prelude.{◌≡◌, IfOk};
ghost use Rattle.cal_model.specs.Refusals.RefusalReplies.{refusal_reply};
ghost use Rattle.dav_reports.specs.RangeDates.{refusal_of};
ghost use Rattle.dav_reports.specs.ReportOutcomes.{refused_as_long};

use crate::dates::Outside;
use cal_base::{NoMemory, Octets};
use cal_model::{Cond, Media, Refusal, Reply};
use dav_write::error_body;
use std::alloc::Global;

/// What the body of a refusal is.
fn media_of(refusal: &Refusal) -> Media
    ensures { result ≡ (refusal_reply refusal.now).media }
{
    match &refusal.cond {
        Cond::None => Media::None,
        Cond::Dav(_) => Media::Xml,
        Cond::Cal(_) => Media::Xml,
    }
}

/// The reply to a request that is refused.
pub(crate) fn refused(alloc: Global, refusal: &Refusal) -> Result<Reply, NoMemory>
    ensures { IfOk result (λ reply. reply ≡ refusal_reply refusal.now) }
{
    let body = error_body(alloc, refusal)?;
    Ok(Reply {
        status: refusal.status,
        etag: None,
        allow: None,
        media: media_of(refusal),
        body,
    })
}

/// The condition of a range that leaves the dates that are served.
fn date_condition(outside: Outside) -> &'static [u8]
    ensures { Cond.Cal result.now ≡ (refusal_of outside).cond }
{
    match outside {
        Outside::Before => b"<C:min-date-time/>",
        Outside::Behind => b"<C:max-date-time/>",
    }
}

/// A list of some octets.
fn octets_of(alloc: Global, text: &[u8]) -> Result<Octets, NoMemory>
    ensures { IfOk result (λ octets. octets ≡ text.now) }
{
    let mut octets = Octets::new(alloc);
    octets.extend_from_slice(text)?;
    Ok(octets)
}

/// The reply to a report with a range that leaves the dates that are served.
pub(crate) fn refused_range(alloc: Global, outside: Outside) -> Result<Reply, NoMemory>
    ensures { IfOk result (λ reply. reply ≡ refusal_reply (refusal_of outside)) }
{
    let condition = octets_of(alloc, date_condition(outside))?;
    refused(
        alloc,
        &Refusal {
            status: 403,
            cond: Cond::Cal(condition),
        },
    )
}

/// The reply to a report whose answer is longer than one may be.
pub(crate) fn refused_length(alloc: Global) -> Result<Reply, NoMemory>
    ensures { IfOk result (λ reply. reply ≡ refusal_reply refused_as_long) }
{
    let condition = octets_of(alloc, b"<D:number-of-matches-within-limits/>")?;
    refused(
        alloc,
        &Refusal {
            status: 403,
            cond: Cond::Dav(condition),
        },
    )
}
