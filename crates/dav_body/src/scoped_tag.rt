//! A tag with what it declares.
ghost use Rattle.std.specs.Prelude.{◌≡◌, filter_map, IfOk};
ghost use Rattle.cal_base.specs.Xml.XmlScopes.{declarations, declared_by, space_of};
ghost use Rattle.dav_body.specs.Texts.{text_there};

use crate::bindings::{Binding, indexed};
use crate::tags::Tag;
use cal_base::{List, NameMap, NoMemory, Octets};
use std::alloc::Global;
use std::marker::Model;

/// A tag with what its declarations bind, which contracts see as the tag.
#[derive(Drop)]
pub struct ScopedTag<'a> {
    tag: Tag<'a>,
    spaces: NameMap<Octets>,
}

impl<'a> Model for ScopedTag<'a> {
    ghost use Rattle.std.specs.Prelude.{◌≡◌, ℕ, List};
    ghost use Rattle.cal_base.specs.Lists.NameMap.{value_at};
    ghost use Rattle.cal_base.specs.Xml.XmlMarkup.{Tag as WrittenTag};
    ghost use Rattle.cal_base.specs.Xml.XmlScopes.{declarations, space_of};

    ghost Value = { WrittenTag };

    ghost view = { λ scoped. scoped.tag };

    ghost invariant = { λ scoped. (prefix : List ℕ) → value_at scoped.spaces prefix ≡ space_of (declarations scoped.tag) prefix };
}

impl<'a> ScopedTag<'a> {
    /// A tag with the bindings that it declares.
    pub fn of(
        alloc: Global,
        tag: Tag<'a>,
        bindings: List<Binding>,
    ) -> Result<ScopedTag<'a>, NoMemory>
        requires { bindings ≡ declarations tag }
        ensures { IfOk result (λ scoped. scoped ≡ tag.entry) }
    {
        let spaces = indexed(alloc, bindings)?;
        Ok(ScopedTag { tag, spaces })
    }

    /// The tag.
    pub fn tag(&self) -> &Tag<'a>
        ensures { result.now ≡ self.now }
    {
        &self.tag
    }

    /// What the tag itself binds a prefix to.
    pub fn space_of(&self, prefix: &[u8]) -> Option<&[u8]>
        ensures { text_there result ≡ space_of (declarations self.now) prefix.now }
    {
        match self.spaces.get(prefix) {
            Some(space) => Some(space.as_slice()),
            None => None,
        }
    }
}
