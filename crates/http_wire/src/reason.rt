//! The reason phrases of statuses.
ghost use Rattle.std.specs.Prelude.{◌≡◌};
ghost use Rattle.cal_model.specs.Replies.Statuses.{reason};

/// The reason phrase of a status (RFC 9110, 15), empty for one that has none.
#[tactic(auto, unfolding(cal_model::specs::Replies::Statuses::reason))]
pub fn reason_phrase(status: u16) -> &'static [u8]
    ensures { result.now ≡ reason status }
{
    match status {
        200 => b"OK",
        201 => b"Created",
        204 => b"No Content",
        207 => b"Multi-Status",
        304 => b"Not Modified",
        400 => b"Bad Request",
        401 => b"Unauthorized",
        403 => b"Forbidden",
        404 => b"Not Found",
        405 => b"Method Not Allowed",
        412 => b"Precondition Failed",
        413 => b"Content Too Large",
        415 => b"Unsupported Media Type",
        424 => b"Failed Dependency",
        431 => b"Request Header Fields Too Large",
        501 => b"Not Implemented",
        503 => b"Service Unavailable",
        505 => b"HTTP Version Not Supported",
        507 => b"Insufficient Storage",
        _ => b"",
    }
}
