//! Cutting octets at the first octet of a kind.
ghost use Rattle.std.specs.Prelude.{◌≡◌, ◌≤◌, length, drop, ◌∷◌, ◌++◌, ◌==◌, MatchOption, position};
ghost use Rattle.cal_script.specs.FrameHeads.{Lacks};

/// What stands before the first such octet, and what stands behind it.
pub(crate) fn split_at_octet(text: &[u8], octet: u8) -> Option<(&[u8], &[u8])>
    ensures { MatchOption result (Lacks octet text.now) (λ parts. Lacks octet parts.0.now × (text.now ≡ parts.0.now ++ octet ∷ parts.1.now)) }
{
    let Some(at) = place_of(text, octet) else {
        return None;
    };
    Some((&text[..at], behind(text, at + 1)))
}

fn place_of(text: &[u8], octet: u8) -> Option<usize>
    ensures { result ≡ position (λ c. c == octet) text.now }
{
    text.iter().position(|c| *c == octet)
}

/// What stands behind a place.
pub(crate) fn behind(text: &[u8], place: usize) -> &[u8]
    requires { place ≤ length text.now }
    ensures { result.now ≡ drop place text.now }
{
    &text[place..]
}
