//! Where lines and heads end.
ghost use Rattle.std.specs.Prelude.{◌≡◌, ◌+◌, ◌<◌, ◌≤◌, length, IfSome};
ghost use Rattle.cal_model.specs.Streams.Heads.{empty_line, ends_here, head_end, without_empty_lines};

use crate::cuts::behind;

/// How many octets there are up to the end of the first empty line that stands behind a line feed.
pub(crate) fn head_end(octets: &[u8]) -> Option<usize>
    ensures end { result ≡ head_end octets.now }
    ensures within { IfSome result (λ n. n ≤ length octets.now) }
{
    let mut rest = octets;
    'search: while !rest.is_empty() {
        let next = behind(rest, 1);
        match ends_here(rest[0], next) {
            Some(n) => return Some(octets.len() - rest.len() + n),
            None => rest = next,
        }
    }
    None
}

/// The same behind an octet that is a line feed, counted with it.
fn ends_here(octet: u8, behind: &[u8]) -> Option<usize>
    ensures end { result ≡ ends_here octet behind.now }
    ensures within { IfSome result (λ n. n ≤ length behind.now + 1) }
{
    if octet != b'\n' {
        return None;
    }
    match empty_line(behind) {
        Some(n) => Some(n + 1),
        None => None,
    }
}

/// The length of the empty line at the front, if there is one.
fn empty_line(octets: &[u8]) -> Option<usize>
    ensures line { result ≡ empty_line octets.now }
    ensures within { IfSome result (λ n. n ≤ length octets.now) }
    ensures some { IfSome result (λ n. 0 < n) }
{
    match octets {
        [b'\n', ..] => Some(1),
        [b'\r', b'\n', ..] => Some(2),
        _ => None,
    }
}

/// What stands behind the empty lines at the front.
pub(crate) fn behind_empty_lines(octets: &[u8]) -> &[u8]
    ensures behind { result.now ≡ without_empty_lines octets.now }
    ensures shorter { length result.now ≤ length octets.now }
{
    let mut rest = octets;
    'skip: loop {
        match empty_line(rest) {
            Some(n) => rest = behind(rest, n),
            None => return rest,
        }
    }
}
