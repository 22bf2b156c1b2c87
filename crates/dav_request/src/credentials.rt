//! Who sent a request: Basic credentials (RFC 7617, 2; RFC 9110, 11.4).
ghost use Rattle.std.specs.Prelude.{◌≡◌, ◌<◌, length, slice_get, bytes_eq, if◌then◌else◌, Some, None, option_map, option_and_then, IfOk, codes};
ghost use Rattle.std.specs.Str.{str_eq_ignore_ascii_case};
ghost use Rattle.hex.specs.Hex.{encode_lower};
ghost use Rattle.sha2.specs.Sha256.{sha256};
ghost use Rattle.cal_model.specs.Users.Credentials as spec;
ghost use Rattle.cal_model.specs.Users.UsersFile.{User};
ghost use Rattle.cal_base.specs.Texts.LentTexts.{text_there};

use base64::DecodeAllocError;
use base64::engine::general_purpose::STANDARD;
use cal_base::{NoMemory, Octets};
use cal_model::cut;
use privileges::Users;
use sha2::{Digest, Sha256};
use std::alloc::Global;

/// The number of the user whose name and password the field Authorization spells, if it is there and
/// does.
pub(crate) fn user_of(
    alloc: Global,
    users: &Users,
    authorization: &Option<Octets>,
) -> Result<Option<u32>, NoMemory>
    ensures { IfOk result (λ who. who ≡ spec.authenticated users.now authorization.now) }
{
    match authorization {
        Some(value) => user_of_value(alloc, users, value.as_slice()),
        None => Ok(None),
    }
}

fn user_of_value(alloc: Global, users: &Users, value: &[u8]) -> Result<Option<u32>, NoMemory>
    ensures { IfOk result (λ who. who ≡ option_and_then (spec.user_of_credentials users.now) (spec.spelled_credentials value.now)) }
{
    match basic_text(value) {
        Some(text) => user_of_text(alloc, users, text),
        None => Ok(None),
    }
}

/// The text behind the scheme `Basic` and one or more spaces.
fn basic_text(value: &[u8]) -> Option<&[u8]>
    ensures { text_there result ≡ spec.basic_text value.now }
{
    match cut(value, b' ') {
        Some((scheme, text)) => behind_scheme(scheme, text),
        None => None,
    }
}

/// A text without the spaces in front of it, if its scheme is `Basic`.
fn behind_scheme<'t>(scheme: &[u8], text: &'t [u8]) -> Option<&'t [u8]>
    ensures { text_there result ≡ (if str_eq_ignore_ascii_case scheme.now (codes "basic") then Some (spec.without_spaces text.now) else None) }
{
    if is_basic(scheme) {
        Some(without_spaces(text))
    } else {
        None
    }
}

/// Whether a scheme is `Basic`, which compares without case.
fn is_basic(scheme: &[u8]) -> bool
    ensures { result ≡ str_eq_ignore_ascii_case scheme.now (codes "basic") }
{
    scheme.eq_ignore_ascii_case(b"basic")
}

fn without_spaces(text: &[u8]) -> &[u8]
    ensures { result.now ≡ spec.without_spaces text.now }
{
    let mut rest = text;
    'spaces: while let Some((octet, behind)) = rest.split_first() {
        if *octet != b' ' {
            return rest;
        }
        rest = behind;
    }
    rest
}

/// The user of a text in base64.
fn user_of_text(alloc: Global, users: &Users, text: &[u8]) -> Result<Option<u32>, NoMemory>
    ensures { IfOk result (λ who. who ≡ option_and_then (spec.user_of_credentials users.now) (option_and_then spec.credentials_of (spec.base64_octets text.now))) }
{
    match STANDARD.decode(alloc, text) {
        Ok(octets) => Ok(user_of_octets(users, octets.as_slice())),
        Err(DecodeAllocError::OutOfMemory) => Err(NoMemory),
        Err(DecodeAllocError::DecodeError(_)) => Ok(None),
    }
}

/// The user of a name and a password with a colon between them.
fn user_of_octets(users: &Users, octets: &[u8]) -> Option<u32>
    ensures { result ≡ option_and_then (spec.user_of_credentials users.now) (spec.credentials_of octets.now) }
{
    match cut(octets, b':') {
        Some((name, password)) => admitted(users, name, password),
        None => None,
    }
}

/// The user of a name, if the password is that user's. The password's digest is computed first, so that
/// the time which it takes does not tell whether a user has the name.
fn admitted(users: &Users, name: &[u8], password: &[u8]) -> Option<u32>
    ensures { result ≡ spec.user_of_credentials users.now (record { name = name.now; password = password.now }) }
{
    let digest = digest_text(password);
    match users.find(name) {
        Some(who) => admitted_as(users, who, &digest),
        None => None,
    }
}

fn admitted_as(users: &Users, who: u32, digest: &[u8; 64]) -> Option<u32>
    requires { who < length users.now.people }
    ensures { result ≡ option_and_then (λ (user : User). if bytes_eq digest.now user.digest then Some who else None) (slice_get users.now.people who) }
{
    if users.admits(who, digest) {
        Some(who)
    } else {
        None
    }
}

/// The SHA-256 of some octets in 64 lower-case hexadecimal digits. Takes no memory.
fn digest_text(octets: &[u8]) -> [u8; 64]
    ensures { result ≡ encode_lower (sha256 octets.now) }
{
    let digest = Sha256::digest(octets);
    let mut text = [0u8; 64];
    let _ = hex::encode_to_slice(digest.as_slice(), &mut text);
    text
}
