//! Cutting octets.
ghost use Rattle.std.specs.Prelude.{◌≡◌, ◌≢◌, ℕ, ◌≤◌, ◌<◌, ◌==◌, List, [], ◌∷◌, ◌++◌, drop, length, position, take, IfSome, MatchOption};
ghost use Rattle.cal_model.specs.Streams.Chunks.{line_size};

/// What stands behind so many octets.
pub(crate) fn behind(octets: &[u8], n: usize) -> &[u8]
    requires { n ≤ length octets.now }
    ensures { result.now ≡ drop n octets.now }
{
    &octets[n..]
}

/// The first octets, so many.
pub(crate) fn front(octets: &[u8], n: usize) -> &[u8]
    requires { n ≤ length octets.now }
    ensures { result.now ≡ take n octets.now }
{
    &octets[..n]
}

/// The first octets, so many or all.
pub(crate) fn at_most(octets: &[u8], n: usize) -> &[u8]
    ensures { result.now ≡ take n octets.now }
{
    if octets.len() < n {
        octets
    } else {
        &octets[..n]
    }
}

/// The first place of an octet.
fn place_of(octets: &[u8], octet: u8) -> Option<usize>
    ensures place { result ≡ position (λ other. other == octet) octets.now }
    ensures within { IfSome result (λ place. place < length octets.now) }
{
    octets.iter().position(|other| *other == octet)
}

/// How many octets the first line has, its line feed counted, if that is there.
pub(crate) fn line_size(octets: &[u8]) -> Option<usize>
    ensures size { result ≡ line_size octets.now }
    ensures within { IfSome result (λ n. n ≤ length octets.now) }
{
    match place_of(octets, b'\n') {
        Some(place) => Some(place + 1),
        None => None,
    }
}

/// The text before an octet at the end, if it ends in that octet.
pub(crate) fn before_last(text: &[u8], octet: u8) -> Option<&[u8]>
    ensures { MatchOption result ((before : List ℕ) → text.now ≢ before ++ octet ∷ []) (λ before. text.now ≡ before.now ++ octet ∷ []) }
{
    match text.split_last() {
        Some((last, before)) if *last == octet => Some(before),
        _ => None,
    }
}
