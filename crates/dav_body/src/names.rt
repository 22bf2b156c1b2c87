//! Names with a prefix (Namespaces in XML 1.0, 4).
ghost use Rattle.std.specs.Prelude.{◌≡◌, ◌&&◌, if◌then◌else◌, []};
ghost use Rattle.cal_base.specs.Xml.XmlNames.{qname_of, is_same_name, is_plain_name};

use crate::characters::is_plain_name;
use crate::splits::split_at_octet;
use std::marker::Model;

/// A name as it is written, which contracts see as its prefix, empty where there is none, and the
/// name behind it.
#[derive(Drop)]
pub struct WrittenName<'a> {
    prefix: &'a [u8],
    local: &'a [u8],
}

impl<'a> Model for WrittenName<'a> {
    ghost use Rattle.cal_base.specs.Xml.XmlNames.{QName};

    ghost Value = { QName };

    ghost view = { λ name. record { prefix = name.prefix.now; local = name.local.now } };
}

impl<'a> WrittenName<'a> {
    /// The name that a text is.
    #[tactic(auto, using(crate::proofs::Colons::qname_plain, crate::proofs::Colons::qname_prefixed, crate::proofs::Colons::qname_of_three))]
    pub fn of(text: &'a [u8]) -> Option<WrittenName<'a>>
        ensures { result ≡ qname_of text.now }
    {
        let Some((prefix, rest)) = split_at_octet(text, b':') else {
            return plain_name(text);
        };
        let local = &rest[1..];
        match split_at_octet(local, b':') {
            Some(_) => None,
            None => prefixed_name(prefix, local),
        }
    }

    /// The prefix, empty where there is none.
    pub fn prefix(&self) -> &'a [u8]
        ensures { result.now ≡ self.now.prefix }
    {
        self.prefix
    }

    /// The name behind the prefix.
    pub fn local(&self) -> &'a [u8]
        ensures { result.now ≡ self.now.local }
    {
        self.local
    }

    /// Whether two names are written alike, prefix and all.
    pub fn is_same(&self, other: &WrittenName<'_>) -> bool
        ensures { result ≡ is_same_name self.now other.now }
    {
        self.prefix == other.prefix && self.local == other.local
    }
}

fn plain_name(text: &[u8]) -> Option<WrittenName<'_>>
    ensures { result ≡ (if is_plain_name text.now then Some (record { prefix = []; local = text.now }) else None) }
{
    if is_plain_name(text) {
        Some(WrittenName {
            prefix: &text[..0],
            local: text,
        })
    } else {
        None
    }
}

fn prefixed_name<'a>(prefix: &'a [u8], local: &'a [u8]) -> Option<WrittenName<'a>>
    ensures { result ≡ (if is_plain_name prefix.now && is_plain_name local.now then Some (record { prefix = prefix.now; local = local.now }) else None) }
{
    if is_plain_name(prefix) && is_plain_name(local) {
        Some(WrittenName { prefix, local })
    } else {
        None
    }
}
