//! One ace of an ACL (RFC 3744, 5.5): whom it means, and what it grants.
ghost use Rattle.std.specs.Prelude.{◌≡◌, not, ◌&&◌, ◌||◌, ◌∷◌, [], take, map, filter, flat_map, codes, bytes_eq, true, false, is_none, if◌then◌else◌, Some, None, IfOk};
ghost use Rattle.cal_model.specs.Bodies.ElementParts.{own_text};
ghost use Rattle.cal_base.specs.Lines.ComponentTrees.{or_else};
ghost use Rattle.cal_model.specs.Users.UsersFile.{number_of, group_number_of};
ghost use Rattle.std.specs.List.{list_any};
ghost use Rattle.std.specs.Option.{option_copied, option_map, option_to_list};
ghost use Rattle.cal_model.specs.Access.Privileges.{set_named};
ghost use Rattle.cal_model.specs.Words.Lists.{is_empty};
ghost use Rattle.cal_model.specs.Bodies.AclBodies as spec;
ghost use Rattle.cal_model.specs.Bodies.AskedProperties.{property_name};
ghost use Rattle.cal_model.specs.Bodies.ElementParts.{children, has_name, item_elements};
ghost use Rattle.cal_model.specs.Words.Namespaces.{dav};
ghost use Rattle.dav_elements.specs.AceAnswers.{as_meant, with_sets};

use crate::parts::{CALDAV, DAV, element_in, first_named, has_name, is_childless, named, own_text};
use cal_base::{Element, Item, NoMemory};
use cal_model::{Path, Who};
use dav_write::read_path;
use privileges::Users;
use std::alloc::Global;

/// Whom a principal means.
#[derive(Clone, Copy)]
pub(crate) enum Whom {
    Someone(Who),
    /// An href that names nobody.
    Nobody,
    /// Another form than those that are known.
    Other,
}

/// What the privileges of an ace come to.
#[derive(Clone, Copy)]
pub(crate) struct GrantedBits {
    pub(crate) bits: u16,
    /// Some privilege is not known.
    pub(crate) unknown: bool,
}

/// Whether an element has one of a name of WebDAV in it.
pub(crate) fn holds(element: &Element, name: &[u8]) -> bool
    ensures { result ≡ spec.holds name.now element.now }
{
    first_named(element, DAV, name).is_some()
}

/// The ace that an item is, if it is one that counts: one that is protected or inherited says nothing
/// here (8.1).
pub(crate) fn ace_in(item: &Item) -> Option<&Element>
    ensures { option_to_list (option_copied result) ≡ filter spec.is_kept (filter (has_name dav (codes "ace")) (item_elements item.now)) }
{
    match named(item, DAV, b"ace") {
        Some(ace) if is_kept(ace) => Some(ace),
        _ => None,
    }
}

fn is_kept(ace: &Element) -> bool
    ensures { result ≡ spec.is_kept ace.now }
{
    !(holds(ace, b"protected") || holds(ace, b"inherited"))
}

/// Whether an ace is without whom, without what, or with a grant of nothing.
pub(crate) fn lacks_part(ace: &Element) -> bool
    ensures { result ≡ spec.lacks_part ace.now }
{
    !holds(ace, b"principal") && !holds(ace, b"invert")
        || !holds(ace, b"grant") && !holds(ace, b"deny")
        || grants_nothing(ace)
}

/// Whether the grant of an ace, if it has one, has no privilege, or an empty one.
#[tactic(auto, using(crate::proofs::AceLemmas::nothing_one, crate::proofs::AceLemmas::nothing_none))]
fn grants_nothing(ace: &Element) -> bool
    ensures { result ≡ (spec.holds (codes "grant") ace.now && is_empty (spec.granted_elements ace.now) || list_any (λ privilege. is_empty (children privilege)) (spec.granted_elements ace.now)) }
{
    match first_named(ace, DAV, b"grant") {
        Some(grant) => has_nothing(grant),
        None => false,
    }
}

/// Whether a grant has no privilege, or an empty one.
fn has_nothing(grant: &Element) -> bool
    ensures { result ≡ (not (spec.holds (codes "privilege") grant.now) || list_any (λ privilege. is_empty (children privilege)) (filter (has_name dav (codes "privilege")) (children grant.now))) }
{
    !holds(grant, b"privilege") || has_empty(grant.items.as_slice())
}

/// Whether a privilege among some items is empty.
fn has_empty(items: &[Item]) -> bool
    ensures { result ≡ list_any (λ privilege. is_empty (children privilege)) (filter (has_name dav (codes "privilege")) (flat_map item_elements items.now)) }
{
    'items: for item in items {
        if let Some(privilege) = named(item, DAV, b"privilege") {
            if is_childless(privilege) {
                return true;
            }
        }
    }
    false
}

/// Whom the principal of an ace means.
#[tactic(auto, using(crate::proofs::AceLemmas::meant_one, crate::proofs::AceLemmas::meant_never))]
pub(crate) fn meant(alloc: Global, users: &Users, ace: &Element) -> Result<Whom, NoMemory>
    requires { spec.holds (codes "principal") ace.now ≡ true }
    ensures { IfOk result (λ whom. spec.meant users.now ace.now ≡ as_meant whom ∷ []) }
{
    match first_named(ace, DAV, b"principal") {
        Some(principal) => meant_by(alloc, users, principal),
        None => Ok(Whom::Other),
    }
}

/// Whom a principal means: the first known form counts.
#[tactic(auto, using(crate::proofs::AceLemmas::meant_first, crate::proofs::AceLemmas::meant_by_none))]
fn meant_by(alloc: Global, users: &Users, principal: &Element) -> Result<Whom, NoMemory>
    ensures { IfOk result (λ whom. as_meant whom ≡ spec.meant_by users.now (filter spec.is_form (children principal.now))) }
{
    match first_form(principal) {
        Some(form) => meant_by_form(alloc, users, form),
        None => Ok(Whom::Other),
    }
}

/// The first of the known forms in a principal.
fn first_form(principal: &Element) -> Option<&Element>
    ensures { option_to_list (option_copied result) ≡ take 1 (filter spec.is_form (children principal.now)) }
{
    'items: for item in principal.items.as_slice() {
        if let Some(form) = form_in(item) {
            return Some(form);
        }
    }
    None
}

/// The known form that an item is, if it is one.
fn form_in(item: &Item) -> Option<&Element>
    ensures { option_to_list (option_copied result) ≡ filter spec.is_form (item_elements item.now) }
{
    match item {
        Item::Element(form) if is_form(form) => Some(form),
        _ => None,
    }
}

fn is_form(element: &Element) -> bool
    ensures { result ≡ spec.is_form element.now }
{
    has_name(element, DAV, b"href")
        || has_name(element, DAV, b"all")
        || has_name(element, DAV, b"authenticated")
        || has_name(element, DAV, b"property")
}

fn meant_by_form(alloc: Global, users: &Users, form: &Element) -> Result<Whom, NoMemory>
    ensures { IfOk result (λ whom. as_meant whom ≡ spec.meant_by_form users.now form.now) }
{
    if has_name(form, DAV, b"href") {
        meant_by_href(alloc, users, form)
    } else if has_name(form, DAV, b"property") {
        Ok(meant_by_property(form))
    } else {
        Ok(Whom::Someone(Who::Everyone))
    }
}

fn meant_by_property(form: &Element) -> Whom
    ensures { as_meant result ≡ (if spec.holds (codes "owner") form.now then spec.someone Who.Owner else spec.other_form) }
{
    if holds(form, b"owner") {
        Whom::Someone(Who::Owner)
    } else {
        Whom::Other
    }
}

/// Whom an href names: the user or the group whose principal's path it is.
fn meant_by_href(alloc: Global, users: &Users, form: &Element) -> Result<Whom, NoMemory>
    ensures { IfOk result (λ whom. as_meant whom ≡ spec.named_by users.now (own_text form.now)) }
{
    let href = own_text(alloc, form)?;
    match read_path(alloc, href.as_slice())? {
        Some(path) => Ok(meant_by_path(users, &path)),
        None => Ok(Whom::Nobody),
    }
}

fn meant_by_path(users: &Users, path: &Path) -> Whom
    ensures { as_meant result ≡ elim (spec.principal_at users.now path.now) [ None ↦ spec.nobody | Some who ↦ spec.someone who ] }
{
    match path {
        Path::Principal(name) => meant_by_name(users, name.as_slice()),
        _ => Whom::Nobody,
    }
}

/// The user of a name, or the group.
fn meant_by_name(users: &Users, name: &[u8]) -> Whom
    ensures { as_meant result ≡ elim (or_else (option_map Who.Principal (number_of users.now name.now)) (option_map Who.Group (group_number_of users.now name.now))) [ None ↦ spec.nobody | Some who ↦ spec.someone who ] }
{
    match users.find(name) {
        Some(number) => Whom::Someone(Who::Principal(number)),
        None => meant_by_group(users, name),
    }
}

/// The group of a name.
fn meant_by_group(users: &Users, name: &[u8]) -> Whom
    ensures { as_meant result ≡ elim (group_number_of users.now name.now) [ None ↦ spec.nobody | Some number ↦ spec.someone (Who.Group number) ] }
{
    match users.find_group(name) {
        Some(number) => Whom::Someone(Who::Group(number)),
        None => Whom::Nobody,
    }
}

/// What an ace grants.
pub(crate) fn granted(ace: &Element) -> GrantedBits
    ensures bits { result.bits ≡ spec.bits_of ace.now }
    ensures unknown { result.unknown ≡ list_any is_none (spec.granted_sets ace.now) }
{
    match first_named(ace, DAV, b"grant") {
        Some(grant) => granted_by_each(grant.items.as_slice()),
        None => GrantedBits {
            bits: 0,
            unknown: false,
        },
    }
}

/// What the privileges among some items grant.
fn granted_by_each(items: &[Item]) -> GrantedBits
    ensures { result ≡ with_sets (record { bits = 0; unknown = false }) (map (λ privilege. set_named (property_name privilege)) (flat_map children (filter (has_name dav (codes "privilege")) (flat_map item_elements items.now)))) }
{
    let mut granted = GrantedBits {
        bits: 0,
        unknown: false,
    };
    'items: for item in items {
        granted = granted_in(granted, item);
    }
    granted
}

/// What the privilege that an item is, if it is one, grants beside something.
#[tactic(auto, using(crate::proofs::AceLemmas::children_one, crate::proofs::AceLemmas::children_none))]
fn granted_in(before: GrantedBits, item: &Item) -> GrantedBits
    ensures { result ≡ with_sets before (map (λ privilege. set_named (property_name privilege)) (flat_map children (filter (has_name dav (codes "privilege")) (item_elements item.now)))) }
{
    match named(item, DAV, b"privilege") {
        Some(privilege) => granted_by(before, privilege.items.as_slice()),
        None => before,
    }
}

/// What the elements of a privilege grant beside something.
fn granted_by(before: GrantedBits, items: &[Item]) -> GrantedBits
    ensures { result ≡ with_sets before (map (λ privilege. set_named (property_name privilege)) (flat_map item_elements items.now)) }
{
    let mut granted = before;
    'items: for item in items {
        granted = with_name_in(granted, item);
    }
    granted
}

/// What the element that an item is, if it is one, grants beside something.
fn with_name_in(before: GrantedBits, item: &Item) -> GrantedBits
    ensures { result ≡ with_sets before (map (λ privilege. set_named (property_name privilege)) (item_elements item.now)) }
{
    match element_in(item) {
        Some(name) => with_set(before, set_named(name)),
        None => before,
    }
}

fn with_set(before: GrantedBits, set: Option<u16>) -> GrantedBits
    ensures { result ≡ with_sets before (set ∷ []) }
{
    match set {
        Some(bits) => GrantedBits {
            bits: before.bits | bits,
            unknown: before.unknown,
        },
        None => GrantedBits {
            bits: before.bits,
            unknown: true,
        },
    }
}

/// The privileges that an element grants (RFC 3744, 3 and 5.3; RFC 4791, 6.1.1), if it is the name of
/// one.
#[tactic(auto, using(crate::proofs::SetLemmas::dav_set_of, crate::proofs::SetLemmas::free_busy_set, crate::proofs::SetLemmas::no_set_beside))]
fn set_named(element: &Element) -> Option<u16>
    ensures { result ≡ set_named (property_name element.now) }
{
    if is_text(element.space.as_slice(), DAV) {
        dav_set(element.name.as_slice())
    } else if has_name(element, CALDAV, b"read-free-busy") {
        Some(1)
    } else {
        None
    }
}

fn dav_set(name: &[u8]) -> Option<u16>
    ensures { result ≡ set_named (record { space = dav; name = name.now }) }
{
    if is_text(name, b"read") {
        Some(3)
    } else if is_text(name, b"write-content") {
        Some(4)
    } else if is_text(name, b"write-properties") {
        Some(8)
    } else if is_text(name, b"bind") {
        Some(16)
    } else if is_text(name, b"unbind") {
        Some(32)
    } else if is_text(name, b"read-acl") {
        Some(64)
    } else if is_text(name, b"write-acl") {
        Some(128)
    } else if is_text(name, b"read-current-user-privilege-set") {
        Some(256)
    } else if is_text(name, b"write") {
        Some(60)
    } else if is_text(name, b"all") {
        Some(511)
    } else {
        None
    }
}

fn is_text(text: &[u8], wanted: &[u8]) -> bool
    ensures { result ≡ bytes_eq text.now wanted.now }
{
    text == wanted
}
