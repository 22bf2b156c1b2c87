//! The components of the four kinds among those of a calendar (RFC 5545, 3.6.1 to 3.6.4).
ghost use Rattle.std.specs.Prelude.{◌≡◌, codes};
ghost use Rattle.std.specs.List.{list_any};
ghost use Rattle.cal_base.specs.Lines.ComponentTrees.{first};
ghost use Rattle.cal_model.specs.Objects.ComponentLines as lines;
ghost use Rattle.cal_model.specs.Objects.ComponentReading as components;
ghost use Rattle.cal_model.specs.Objects.ResourceFaults as faults;
ghost use Rattle.cal_object.specs.KindNodes as spec;
ghost use Rattle.ical_values.specs.Parts.{text_there};

use crate::named::{has, has_name, is_name, kind_of};
use cal_base::{Line, Node, Octets, Param, is_word};
use ical_values::one_of;

/// Whether a component is of one of the four kinds.
pub(crate) fn is_kind(node: &Node) -> bool
    ensures { result ≡ spec.is_kind node.now }
{
    kind_of(node).is_some()
}

/// Whether some component is of one of the four kinds.
pub(crate) fn has_kind(nodes: &[Node]) -> bool
    ensures { result ≡ list_any spec.is_kind nodes.now }
{
    nodes.iter().any(|node| is_kind(node))
}

/// Whether a text differs from the first one, if that has come.
fn is_other(first: Option<&[u8]>, text: &[u8]) -> bool
    ensures { result ≡ spec.is_other (text_there first.entry) text.now }
{
    match first {
        Some(first) => first != text,
        None => false,
    }
}

/// Whether components of two kinds stand among some.
pub(crate) fn has_mixed_kinds(nodes: &[Node]) -> bool
    ensures { result ≡ faults.are_different (spec.names_of nodes.now) }
{
    let mut first = None;
    let mut rest = nodes;
    'nodes: while let Some((node, behind)) = rest.split_first() {
        if is_kind(node) {
            let name = node.name.as_slice();
            if is_other(first, name) {
                return true;
            }
            first = Some(name);
        }
        rest = behind;
    }
    false
}

/// Whether some component of the four kinds has no UID.
pub(crate) fn lacks_uid(nodes: &[Node]) -> bool
    ensures { result ≡ spec.some_kind spec.lacks_uid nodes.now }
{
    nodes.iter().any(|node| is_kind(node) && !has(node.lines.as_slice(), b"UID"))
}

/// The first UID of a component.
fn uid_of(node: &Node) -> Option<&[u8]>
    ensures { text_there result ≡ spec.uid_of node.now }
{
    match one_of(node.lines.as_slice(), b"UID") {
        Some(line) => Some(line.value.as_slice()),
        None => None,
    }
}

/// The first UID of a component of the four kinds.
fn kind_uid(node: &Node) -> Option<&[u8]>
    ensures { text_there result ≡ spec.kind_uid node.now }
{
    if is_kind(node) { uid_of(node) } else { None }
}

/// The first UID of the components of the four kinds.
pub(crate) fn first_uid(nodes: &[Node]) -> Option<&[u8]>
    ensures { text_there result ≡ first (spec.uids_of nodes.now) }
{
    let mut rest = nodes;
    'nodes: while let Some((node, behind)) = rest.split_first() {
        if let Some(uid) = kind_uid(node) {
            return Some(uid);
        }
        rest = behind;
    }
    None
}

/// Whether two components of the four kinds have different UIDs.
pub(crate) fn has_mixed_uids(nodes: &[Node]) -> bool
    ensures { result ≡ faults.are_different (spec.uids_of nodes.now) }
{
    let mut first = None;
    let mut rest = nodes;
    'nodes: while let Some((node, behind)) = rest.split_first() {
        if let Some(uid) = kind_uid(node) {
            if is_other(first, uid) {
                return true;
            }
            first = Some(uid);
        }
        rest = behind;
    }
    false
}

/// Whether some component of the four kinds has an EXRULE.
pub(crate) fn has_exrule(nodes: &[Node]) -> bool
    ensures { result ≡ spec.some_kind (lines.has (codes "EXRULE")) nodes.now }
{
    nodes.iter().any(|node| is_kind(node) && has(node.lines.as_slice(), b"EXRULE"))
}

/// Whether a RECURRENCE-ID among some lines stands for all later instances too.
pub(crate) fn has_future(lines: &[Line]) -> bool
    ensures { result ≡ components.has_future lines.now }
{
    lines.iter().any(|line| has_name(line, b"RECURRENCE-ID")
        && has_future_param(line.params.as_slice()))
}

fn has_future_param(params: &[Param]) -> bool
    ensures { result ≡ list_any components.is_future params.now }
{
    params.iter().any(|param| is_future(param))
}

/// Whether a parameter is RANGE=THISANDFUTURE (RFC 5545, 3.2.13).
fn is_future(param: &Param) -> bool
    ensures { result ≡ components.is_future param.now }
{
    is_name(&param.name, b"RANGE") && has_word(param.values.as_slice(), b"THISANDFUTURE")
}

/// Whether one of some values is a word, without ASCII case.
fn has_word(values: &[Octets], word: &[u8]) -> bool
    ensures { result ≡ spec.has_word word.now values.now }
{
    values.iter().any(|value| is_word(value.as_slice(), word))
}
