//! Lines of a users file.
ghost use Rattle.std.specs.Prelude.{◌≡◌, ◌+◌, ◌<◌, ◌≤◌, false, length, IfSome, option_map, option_and_then, bytes_eq, position, ◌==◌, ◌&&◌, codes};
ghost use Rattle.std.specs.List.{list_all};
ghost use Rattle.cal_base.specs.Lines.ContentLines.{pieces};
ghost use Rattle.cal_model.specs.Users.UsersFile as spec;
ghost use Rattle.privileges.specs.KnownUsers.{name_limit};
ghost use Rattle.privileges.specs.LineCuts.{behind_cut, both_texts, user_of_texts, group_of_texts, if_apart, is_digest_octet};

/// The text before the first place of an octet, and the text behind that place.
pub(crate) fn cut(text: &[u8], separator: u8) -> Option<(&[u8], &[u8])>
    ensures pieces { pieces separator text.now ≡ behind_cut separator text.now (option_map both_texts result) }
    ensures size { IfSome result (λ parts. length parts.0.now + 1 + length parts.1.now ≡ length text.now) }
{
    match place_of(text, separator) {
        Some(place) => Some((&text[..place], &text[place + 1..])),
        None => None,
    }
}

fn place_of(text: &[u8], separator: u8) -> Option<usize>
    ensures { result ≡ position (λ octet. octet == separator) text.now }
{
    text.iter().position(|octet| *octet == separator)
}

/// The name and the digest of the user whose line this is.
pub(crate) fn user_of_line(line: &[u8]) -> Option<(&[u8], &[u8])>
    ensures user { option_map user_of_texts result ≡ spec.user_of_line line.now }
    ensures short { IfSome result (λ parts. length parts.0.now ≤ name_limit) }
{
    let (word, behind) = cut(line, b' ')?;
    let (name, digest) = cut(behind, b' ')?;
    if cut(digest, b' ').is_none() && is_user(word, name, digest) {
        Some((name, digest))
    } else {
        None
    }
}

/// The name of the group whose line this is, and the text of its members, of whom some may stand
/// twice.
pub(crate) fn group_of_line(line: &[u8]) -> Option<(&[u8], &[u8])>
    ensures group { option_and_then if_apart (option_map group_of_texts result) ≡ spec.group_of_line line.now }
    ensures said { IfSome result (λ parts. spec.is_silent line.now ≡ false) }
    ensures named { IfSome result (λ parts. 0 < length parts.0.now) }
    ensures short { IfSome result (λ parts. length parts.0.now ≤ name_limit) }
{
    let (word, behind) = cut(line, b' ')?;
    let (name, members) = cut(behind, b' ')?;
    if is_group(word, name) {
        Some((name, members))
    } else {
        None
    }
}

/// Whether the two first words of a line make it that of a group.
fn is_group(word: &[u8], name: &[u8]) -> bool
    ensures { result ≡ (bytes_eq word.now (codes "group") && spec.is_user_name name.now) }
{
    word == b"group".as_slice() && is_user_name(name)
}

/// Whether three words make the line of a user.
fn is_user(word: &[u8], name: &[u8], digest: &[u8]) -> bool
    ensures { result ≡ (bytes_eq word.now (codes "user") && spec.is_user_name name.now && spec.is_digest digest.now) }
{
    word == b"user".as_slice() && is_user_name(name) && is_digest(digest)
}

/// Whether a text is a user's name: 1 to 32 of `a-z 0-9 - _ .`, a letter first.
fn is_user_name(text: &[u8]) -> bool
    ensures { result ≡ spec.is_user_name text.now }
{
    match text.split_first() {
        Some((first, rest)) => {
            is_small_letter(*first) && are_name_octets(rest) && rest.len() <= 31
        }
        None => false,
    }
}

/// Whether a text is a digest: 64 of `0-9 a-f`.
fn is_digest(text: &[u8]) -> bool
    ensures { result ≡ spec.is_digest text.now }
{
    text.len() == 64 && are_digest_octets(text)
}

fn are_name_octets(text: &[u8]) -> bool
    ensures { result ≡ list_all spec.is_name_octet text.now }
{
    text.iter().all(|octet| is_name_octet(*octet))
}

fn are_digest_octets(text: &[u8]) -> bool
    ensures { result ≡ list_all is_digest_octet text.now }
{
    text.iter().all(|octet| is_digest_octet(*octet))
}

fn is_small_letter(octet: u8) -> bool
    ensures { result ≡ spec.is_small_letter octet }
{
    matches!(octet, b'a'..=b'z')
}

fn is_name_octet(octet: u8) -> bool
    ensures { result ≡ spec.is_name_octet octet }
{
    matches!(octet, b'a'..=b'z' | b'0'..=b'9' | b'-' | b'_' | b'.')
}

fn is_digest_octet(octet: u8) -> bool
    ensures { result ≡ is_digest_octet octet }
{
    matches!(octet, b'0'..=b'9' | b'a'..=b'f')
}

/// Whether a line says nothing: it is empty, or a comment.
pub(crate) fn is_silent(line: &[u8]) -> bool
    ensures { result ≡ spec.is_silent line.now }
{
    match line.first() {
        Some(octet) => *octet == b'#',
        None => true,
    }
}
