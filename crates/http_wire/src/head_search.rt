//! Looking for the end of a head, each octet once.
ghost use Rattle.std.specs.Prelude.{◌≡◌, ◌≤◌, drop, length};
ghost use Rattle.cal_model.specs.Streams.Heads.{without_empty_lines};
ghost use Rattle.http_wire.specs.HeadSearch.{Finds, Skipped, Looked};

use crate::cuts::behind;
use crate::search::{behind_empty_lines, head_end};

/// What a search came to. Places are counted from the first octet.
pub(crate) enum Found {
    /// A head begins and ends here.
    Ends { begun: usize, end: usize },
    /// None ends: empty lines end here, and from there on the search goes on.
    Open { begun: usize, from: usize },
}

/// Looks for the end of a head, where the empty lines in front were seen up to `begun` and no head
/// ends in front of `from`.
pub(crate) fn search_head(unread: &[u8], begun: usize, from: usize) -> Found
    requires order { begun ≤ from }
    requires within { from ≤ length unread.now }
    requires skipped { Skipped unread.now begun }
    requires looked { Looked unread.now begun from }
    ensures { Finds result unread.now }
{
    let begins = skip_on(unread, begun);
    if begins > begun {
        search_from(unread, begins, begins)
    } else {
        search_from(unread, begun, from)
    }
}

/// Where the empty lines in front end, which were seen up to `begun`.
fn skip_on(unread: &[u8], begun: usize) -> usize
    requires within { begun ≤ length unread.now }
    requires skipped { Skipped unread.now begun }
    ensures order { begun ≤ result }
    ensures within { result ≤ length unread.now }
    ensures begins { without_empty_lines unread.now ≡ drop result unread.now }
    ensures skipped { Skipped unread.now result }
{
    let head = behind_empty_lines(behind(unread, begun));
    unread.len() - head.len()
}

/// Looks for the end of a head that begins at `begun`.
fn search_from(unread: &[u8], begun: usize, from: usize) -> Found
    requires order { begun ≤ from }
    requires within { from ≤ length unread.now }
    requires begins { without_empty_lines unread.now ≡ drop begun unread.now }
    requires skipped { Skipped unread.now begun }
    requires looked { Looked unread.now begun from }
    ensures { Finds result unread.now }
{
    match head_end(behind(unread, from)) {
        Some(n) => Found::Ends {
            begun,
            end: from + n,
        },
        None => {
            let last = unread.len().saturating_sub(2);
            if last > from {
                Found::Open { begun, from: last }
            } else {
                Found::Open { begun, from }
            }
        }
    }
}
