//! ASCII letters in upper case, and words that are compared without case (RFC 5545, 2).
ghost use Rattle.std.specs.Prelude.{◌≡◌, bytes_eq, IfOk};
ghost use Rattle.cal_base.specs.Texts.Text.{raised, raised_all};

use crate::list::Octets;
use crate::no_memory::NoMemory;
use std::alloc::Global;

/// An ASCII letter in upper case, and any other octet as it is.
pub fn raised(octet: u8) -> u8
    ensures { result ≡ raised octet }
{
    if octet.is_ascii_lowercase() {
        octet - 32
    } else {
        octet
    }
}

/// A text with its ASCII letters in upper case.
pub fn raised_all(alloc: Global, text: &[u8]) -> Result<Octets, NoMemory>
    ensures { IfOk result (λ octets. octets ≡ raised_all text.now) }
{
    match text
        .iter()
        .map(|octet| raised(*octet))
        .collect::<Vec<u8>>(alloc)
    {
        Ok(octets) => Ok(Octets::from_vec(octets)),
        Err(_) => Err(NoMemory),
    }
}

/// Whether a text is a word, whose letters are upper case, without ASCII case. The time is that of
/// the word, however long the text.
pub fn is_word(text: &[u8], word: &[u8]) -> bool
    ensures { result ≡ bytes_eq (raised_all text.now) word.now }
{
    let [octet, rest @ ..] = text else {
        return word.is_empty();
    };
    let [letter, more @ ..] = word else {
        return false;
    };
    raised(*octet) == *letter && is_word(rest, more)
}
