//! What the words of a case of properties say.

use crate::texts::{parts, put_many};
use cal_base::{List, NoMemory, Octets};
use cal_model::{PropName, PropSet, Props};
use std::alloc::Global;

/// So many letters.
fn letters(alloc: Global, number: &[u8]) -> Result<Octets, NoMemory> {
    let count = match str::from_utf8(number) {
        Ok(number) => number.parse::<u32>().unwrap_or(0),
        Err(_) => 0,
    };
    let mut letters = Octets::new(alloc);
    put_many(&mut letters, b'x', u64::from(count))?;
    Ok(letters)
}

/// The octets of a word: `*` and a number stand for so many letters, `!` for what is no text, and `~`
/// for the end of a line.
fn octets_of(alloc: Global, word: &[u8]) -> Result<Octets, NoMemory> {
    if word == b"!".as_slice() {
        return Octets::of(alloc, b"\0");
    }
    match word.split_first() {
        Some((b'*', number)) => letters(alloc, number),
        _ => lines_of(alloc, word),
    }
}

/// A text with the ends of its lines.
fn lines_of(alloc: Global, word: &[u8]) -> Result<Octets, NoMemory> {
    let mut out = Octets::new(alloc);
    for octet in word {
        if *octet == b'~' {
            out.extend_from_slice(b"\r\n")?;
        } else {
            out.push(*octet)?;
        }
    }
    Ok(out)
}

/// The namespace of a letter.
fn space_of(letter: &[u8]) -> &'static [u8] {
    if letter == b"D".as_slice() {
        b"DAV:"
    } else if letter == b"C".as_slice() {
        b"urn:ietf:params:xml:ns:caldav"
    } else if letter == b"X".as_slice() {
        b"http://example.com/ns/"
    } else {
        b""
    }
}

/// The name of a property: the letter of its namespace, a colon and its local name.
pub fn name_of(alloc: Global, word: &[u8]) -> Result<PropName, NoMemory> {
    let (letter, name) = parts(word, b':');
    let space = Octets::of(alloc, space_of(letter))?;
    let name = octets_of(alloc, name)?;
    Ok(PropName { space, name })
}

/// What is asked for: `all`, `names`, or names with commas between; nothing where there is no word.
pub fn props_of(alloc: Global, word: &[u8]) -> Result<Props, NoMemory> {
    if word == b"all".as_slice() {
        return Ok(Props::All);
    }
    if word == b"names".as_slice() {
        return Ok(Props::Names);
    }
    let mut names = List::new(alloc);
    for name in word.split(|octet| *octet == b',') {
        if !name.is_empty() {
            names.push(name_of(alloc, name)?)?;
        }
    }
    Ok(Props::Some(names))
}

/// A setting: a name, and behind `=` its value; a name alone is removed.
fn set_of(alloc: Global, word: &[u8]) -> Result<PropSet, NoMemory> {
    let (name, value) = parts(word, b'=');
    let removed = name.len() == word.len();
    let name = name_of(alloc, name)?;
    if removed {
        return Ok(PropSet { name, value: None });
    }
    let value = octets_of(alloc, value)?;
    Ok(PropSet {
        name,
        value: Some(value),
    })
}

/// Settings, with spaces between.
pub fn sets_of(alloc: Global, words: &[u8]) -> Result<List<PropSet>, NoMemory> {
    let mut sets = List::new(alloc);
    for word in words.split(|octet| *octet == b' ') {
        if !word.is_empty() {
            sets.push(set_of(alloc, word)?)?;
        }
    }
    Ok(sets)
}
