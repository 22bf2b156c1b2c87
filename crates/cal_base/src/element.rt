//! XML elements with their namespaces resolved (Namespaces in XML 1.0).

use crate::list::{List, Octets};

/// An attribute that declares no namespace.
#[derive(Drop)]
pub struct Attr {
    /// The namespace, empty for none.
    pub space: Octets,
    /// The local name.
    pub name: Octets,
    /// The value, with references replaced.
    pub value: Octets,
}

/// What stands in an element.
#[derive(Drop)]
#[cycle(element)]
pub enum Item {
    /// An element.
    Element(Element),
    /// Text, with references replaced.
    Text(Octets),
}

/// An element.
#[derive(Drop)]
#[cycle(element)]
pub struct Element {
    /// The namespace, empty for none.
    pub space: Octets,
    /// The local name.
    pub name: Octets,
    /// The attributes in order, declarations of namespaces aside.
    pub attrs: List<Attr>,
    /// The content in order.
    pub items: List<Item>,
}
