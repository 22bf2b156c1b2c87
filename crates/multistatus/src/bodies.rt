//! The whole body of a multistatus.
ghost use Rattle.std.specs.Prelude.{◌≡◌, ◌++◌, ℕ, List, IfOk};
ghost use Rattle.cal_model.specs.Replies.XmlText.{multistatus};
ghost use Rattle.multistatus.specs.ReplyPieces.{begun};

use cal_base::{NoMemory, Octets};
use std::alloc::Global;

/// The XML declaration, and the tag of the root, which declares the prefixes.
const BEGUN: &[u8] =
    b"<?xml version=\"1.0\" encoding=\"utf-8\"?>\n<D:multistatus xmlns:D=\"DAV:\" xmlns:C=\"urn:ietf:params:xml:ns:caldav\">";

/// A buffer with what stands before the first response.
#[tactic(auto, unfolding(crate::specs::ReplyPieces::begun))]
pub fn begin_multistatus(alloc: Global) -> Result<Octets, NoMemory>
    ensures { IfOk result (λ body. body ≡ begun) }
{
    Octets::of(alloc, BEGUN)
}

/// The whole body, of a buffer that was begun so and to which responses were appended. Without a
/// response the root is one empty tag.
#[tactic(auto, unfolding(crate::specs::ReplyPieces::begun))]
pub fn end_multistatus(body: Octets) -> Result<Octets, NoMemory>
    ensures { IfOk result (λ whole. (responses : List ℕ) → body ≡ begun ++ responses → whole ≡ multistatus responses) }
{
    let mut body = body;
    if body.len() == BEGUN.len() {
        body.truncate(BEGUN.len() - 1);
        body.extend_from_slice(b"/>")?;
    } else {
        body.extend_from_slice(b"</D:multistatus>")?;
    }
    Ok(body)
}
