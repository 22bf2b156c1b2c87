//! Contents that are refused.
ghost use Rattle.std.specs.Prelude.{◌≡◌, IfOk};
ghost use Rattle.cal_model.specs.declared.request.Content.TheVariants.{Bad};
ghost use Rattle.cal_model.specs.declared.reply.Cond.TheVariants.{Dav, Cal};
ghost use Rattle.cal_model.specs.Bodies.Refusals.{bad_request as refused_as_bad, unsupported_media as refused_as_media};

use cal_base::{NoMemory, Octets};
use cal_model::{Cond, Content, Refusal};
use std::alloc::Global;

/// 400: the request cannot be made sense of.
pub fn bad_request() -> Content
    ensures { result ≡ Bad refused_as_bad }
{
    bare(400)
}

/// 415: the body is none that the method takes.
pub fn unsupported_media() -> Content
    ensures { result ≡ Bad refused_as_media }
{
    bare(415)
}

fn bare(status: u16) -> Content
    ensures { result ≡ Bad (record { status = status; cond = Cond.None }) }
{
    Content::Bad(Refusal {
        status,
        cond: Cond::None,
    })
}

/// 403 with a condition of the namespace of WebDAV, as its element is written.
pub fn dav_refusal(alloc: Global, condition: &[u8]) -> Result<Content, NoMemory>
    ensures { IfOk result (λ content. content ≡ Bad (record { status = 403; cond = Dav condition.now })) }
{
    let condition = Octets::of(alloc, condition)?;
    Ok(Content::Bad(Refusal {
        status: 403,
        cond: Cond::Dav(condition),
    }))
}

/// 403 with a condition of the namespace of CalDAV, as its element is written.
pub(crate) fn caldav_refusal(alloc: Global, condition: &[u8]) -> Result<Content, NoMemory>
    ensures { IfOk result (λ content. content ≡ Bad (record { status = 403; cond = Cal condition.now })) }
{
    let condition = Octets::of(alloc, condition)?;
    Ok(Content::Bad(Refusal {
        status: 403,
        cond: Cond::Cal(condition),
    }))
}
