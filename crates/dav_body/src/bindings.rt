//! Declarations of namespaces (Namespaces in XML 1.0, 2 to 6).
ghost use Rattle.std.specs.Prelude.{◌≡◌, ℕ, List, Option, IfOk, filter_map};
ghost use Rattle.std.specs.List.{list_any};
ghost use Rattle.cal_base.specs.Lists.NameMap.{value_at};
ghost use Rattle.cal_base.specs.Xml.XmlScopes.{Scope, declarations, declared_by, declared_prefix, is_bad_binding, is_default, is_declaration, space_of};

use crate::attributes::WrittenAttribute;
use crate::names::WrittenName;
use crate::values::value_octets;
use cal_base::{List, NameMap, NoMemory, Octets};
use std::alloc::Global;
use std::marker::Model;

pub const XML_SPACE: &[u8] = b"http://www.w3.org/XML/1998/namespace";

const XMLNS_SPACE: &[u8] = b"http://www.w3.org/2000/xmlns/";

/// A prefix, empty for the default, and what it stands for, empty for no namespace.
#[derive(Drop)]
pub struct Binding {
    prefix: Octets,
    space: Octets,
}

impl Model for Binding {
    ghost use Rattle.std.specs.Prelude.{ℕ, List};

    ghost Value = { List ℕ × List ℕ };

    ghost view = { λ binding. (binding.prefix, binding.space) };
}

fn is_default(name: &WrittenName<'_>) -> bool
    ensures { result ≡ is_default name.now }
{
    name.prefix().is_empty() && name.local() == b"xmlns".as_slice()
}

/// Whether a name is `xmlns`, or `xmlns:` with a prefix.
pub fn is_declaration(name: &WrittenName<'_>) -> bool
    ensures { result ≡ is_declaration name.now }
{
    is_default(name) || name.prefix() == b"xmlns".as_slice()
}

fn declared_prefix<'a>(name: &WrittenName<'a>) -> &'a [u8]
    ensures { result.now ≡ declared_prefix name.now }
{
    if is_default(name) {
        name.prefix()
    } else {
        name.local()
    }
}

/// What an attribute declares, if it is a declaration.
fn declared_by(alloc: Global, attribute: &WrittenAttribute<'_>) -> Result<Option<Binding>, NoMemory>
    ensures { IfOk result (λ binding. binding ≡ declared_by attribute.now) }
{
    if is_declaration(attribute.name()) {
        Ok(Some(Binding {
            prefix: Octets::of(alloc, declared_prefix(attribute.name()))?,
            space: value_octets(alloc, attribute.value())?,
        }))
    } else {
        Ok(None)
    }
}

/// What a tag's attributes declare.
#[tactic(auto, using(crate::proofs::Growing::declared_some, crate::proofs::Growing::declared_none))]
pub fn declared(
    alloc: Global,
    attributes: &[WrittenAttribute<'_>],
) -> Result<List<Binding>, NoMemory>
    ensures { IfOk result (λ bindings. bindings ≡ filter_map declared_by attributes.now) }
{
    let mut bindings = List::new(alloc);
    'attributes: for attribute in attributes {
        if let Some(binding) = declared_by(alloc, attribute)? {
            bindings.push(binding)?;
        }
    }
    Ok(bindings)
}

/// Whether a declaration cannot be made: `xml` is bound to its namespace and nothing else is,
/// `xmlns` and its namespace to nothing, and no prefix to no namespace.
fn is_bad_binding(binding: &Binding) -> bool
    ensures { result ≡ is_bad_binding binding.now }
{
    let is_xml = binding.prefix.as_slice() == b"xml".as_slice();
    binding.space.as_slice() == XMLNS_SPACE
        || binding.prefix.as_slice() == b"xmlns".as_slice()
        || (binding.space.as_slice() == XML_SPACE) != is_xml
        || (!binding.prefix.is_empty() && binding.space.is_empty())
}

/// Whether one of some declarations cannot be made.
pub fn has_bad_binding(bindings: &[Binding]) -> bool
    ensures { result ≡ list_any is_bad_binding bindings.now }
{
    bindings.iter().any(|binding| is_bad_binding(binding))
}

/// The bindings by prefix, for each prefix the first.
#[tactic(auto, using(crate::proofs::Lookups::found_by_new, crate::proofs::Lookups::found_by_old))]
pub fn indexed(alloc: Global, bindings: List<Binding>) -> Result<NameMap<Octets>, NoMemory>
    ensures { IfOk result (λ spaces. (prefix : List ℕ) → value_at spaces prefix ≡ space_of bindings prefix) }
{
    let mut spaces = NameMap::new(alloc);
    'bindings: for binding in bindings.into_vec() {
        if spaces.get(binding.prefix.as_slice()).is_none() {
            spaces.insert(binding.prefix, binding.space)?;
        }
    }
    Ok(spaces)
}
