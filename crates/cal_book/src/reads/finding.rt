//! The answer to a PROPFIND (RFC 4918, 9.1).
ghost use Rattle.std.specs.Prelude.{◌≡◌, ◌<◌, length, ℤ, None, IfOk};
ghost use Rattle.cal_model.specs.declared.request.Method.{Method as How};
ghost use Rattle.cal_model.specs.Refusals.SharedRefusals.{fault_of};
ghost use Rattle.cal_model.specs.Requests.MethodContents.{Suits};
ghost use Rattle.cal_model.specs.Serving.SeenResources.{scene_seen};
ghost use Rattle.cal_book.specs.Answering.OwnReplies.{own_reply};

use cal_base::NoMemory;
use cal_model::{Content, Reply, Request, Seen};
use dav_props::find;
use object_walk::Walks;
use std::alloc::Global;

/// The answer to a PROPFIND that no row of the shared table refuses.
pub(crate) fn answer_find<V: Walks>(
    alloc: Global,
    seen: &Seen<'_, V>,
    request: &Request,
) -> Result<Reply, NoMemory>
    requires user { seen.now.who < length (V.directory seen.now.view.now).names }
    requires method { request.now.method ≡ How.Propfind }
    requires suits { Suits request.now.method request.now.content }
    requires good { fault_of request.now.content ≡ None }
    ensures reply { IfOk result (λ reply. (moment : ℤ) → reply ≡ own_reply (scene_seen (V.directory seen.now.view.now) (V.state seen.now.view.now) seen.now.who request.now.path) moment request.now) }
{
    let Content::Find(props, deep) = &request.content else {
        unreachable!();
    };
    find(alloc, seen, &request.path, props, *deep)
}
