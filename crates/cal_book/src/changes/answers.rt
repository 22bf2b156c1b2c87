//! Answers that refuse, and those that tell a change.
ghost use Rattle.std.specs.Prelude.{◌≡◌, IfOk};
ghost use Rattle.cal_model.specs.Refusals.RefusalReplies.{refusal_reply as reply_to_refusal};
ghost use Rattle.cal_model.specs.Replies.BareReplies.{bare_reply as status_alone};
ghost use Rattle.cal_book.specs.Checking.OwnChecks.{IsRefusal};

use crate::changes::check::ChangeCheck;
use cal_base::NoMemory;
use cal_model::{Change, Refusal, Reply, bare_reply};
use request_checks::refusal_reply;
use std::alloc::Global;

/// 501: a method with the content of another one.
pub(crate) fn no_request(alloc: Global) -> ChangeCheck
    ensures { result ≡ ChangeCheck.Refused (status_alone 501) }
{
    ChangeCheck::Refused(bare_reply(alloc, 501))
}

/// 507: the home has no room for it (RFC 4918, 11.5).
pub(crate) fn no_room(alloc: Global) -> ChangeCheck
    ensures { result ≡ ChangeCheck.Refused (status_alone 507) }
{
    ChangeCheck::Refused(bare_reply(alloc, 507))
}

/// The answer for a refusal.
pub(crate) fn refused_by(alloc: Global, refusal: &Refusal) -> ChangeCheck
    ensures { IsRefusal (reply_to_refusal refusal.now) result }
{
    match refusal_reply(alloc, refusal) {
        Ok(reply) => ChangeCheck::Refused(reply),
        Err(NoMemory) => ChangeCheck::NoMemory,
    }
}
