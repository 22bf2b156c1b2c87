//! The statuses within a multistatus.
ghost use Rattle.std.specs.Prelude.{◌≡◌, ◌++◌, OnOk, length, take};
ghost use Rattle.multistatus.specs.ReplyPieces.{number_of, status_element};

use cal_base::{NoMemory, Octets};

/// What becomes of a property, or of a resource, in a multistatus (RFC 4918, 9.1 and 9.2.1).
#[derive(Clone, Copy)]
pub enum PropStatus {
    /// 200: it is there, or it was set.
    Found,
    /// 404: it is not there.
    NotFound,
    /// 403: it may not be seen, or not be set.
    Forbidden,
    /// 424: it is not set, since another one was refused.
    FailedDependency,
}

/// Appends the element of a status (RFC 4918, 14.28).
pub(crate) fn push_status(status: PropStatus, out: &mut Octets) -> Result<(), NoMemory>
    ensures text { OnOk result (out.new ≡ out.old ++ status_element (number_of status)) }
    ensures front { take (length out.old) out.new ≡ out.old }
{
    out.extend_from_slice(text_of(status))
}

#[tactic(auto, unfolding(cal_model::specs::Replies::Statuses::reason))]
fn text_of(status: PropStatus) -> &'static [u8]
    ensures { result.now ≡ status_element (number_of status) }
{
    match status {
        PropStatus::Found => b"<D:status>HTTP/1.1 200 OK</D:status>".as_slice(),
        PropStatus::NotFound => b"<D:status>HTTP/1.1 404 Not Found</D:status>".as_slice(),
        PropStatus::Forbidden => b"<D:status>HTTP/1.1 403 Forbidden</D:status>".as_slice(),
        PropStatus::FailedDependency => {
            b"<D:status>HTTP/1.1 424 Failed Dependency</D:status>".as_slice()
        }
    }
}
