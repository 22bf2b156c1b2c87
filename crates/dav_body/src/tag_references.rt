//! References within a tag: each is a markup of its own, with its own place.
ghost use Rattle.std.specs.Prelude.{◌≡◌, ◌+◌, ◌<◌, ◌≤◌, ◌^◌, length, option_map, IfOk};
ghost use Rattle.cal_base.specs.Xml.XmlFaults.{inner_fault, first_inner, references_fault, no_markup_fault, reference_fault};
ghost use Rattle.dav_body.specs.Faults.{why_told, fault_told};
ghost use Rattle.dav_body.specs.Shown.{shown, reference_name};
ghost use Rattle.dav_body.specs.Inner.{reference_why, cut_fault, octet_fault, cut_markup_fault};

use crate::cut::first_markup;
use crate::ends::begins;
use crate::fault::{Fault, Why};
use crate::markup::{Markup, can_go_on, markup_of, reference_name};
use crate::references::referenced;
use cal_base::NoMemory;
use std::alloc::Global;

/// Why a reference cannot stand.
fn reference_fault(name: &[u8]) -> Option<Why>
    ensures { option_map why_told result ≡ reference_fault name.now }
{
    match referenced(name) {
        Some(_) => None,
        None => Some(Why::Entity),
    }
}

/// Why what is no markup cannot stand in a tag: only what the end cuts can.
fn cut_fault(alloc: Global, text: &[u8]) -> Result<Option<Why>, NoMemory>
    requires { 0 < length text.now }
    ensures { IfOk result (λ why. option_map why_told why ≡ cut_fault text.now) }
{
    if can_go_on(alloc, text)? {
        Ok(None)
    } else {
        Ok(Some(Why::Syntax))
    }
}

/// Why a markup cannot stand in a tag: only a reference can be at fault.
fn markup_fault(markup: Markup<'_>) -> Option<Why>
    ensures { option_map why_told result ≡ reference_why (reference_name (shown markup.entry)) }
{
    match reference_name(markup) {
        Some(name) => reference_fault(name),
        None => None,
    }
}

/// Why a text that begins with `&` cannot stand in a tag.
#[tactic(auto, using(crate::proofs::InnerSteps::inner_none, crate::proofs::InnerSteps::inner_some))]
fn inner_fault(alloc: Global, text: &[u8]) -> Result<Option<Why>, NoMemory>
    requires { 0 < length text.now }
    ensures { IfOk result (λ why. option_map why_told why ≡ inner_fault text.now) }
{
    let (first, _) = first_markup(text);
    match markup_of(alloc, first)? {
        None => cut_fault(alloc, first),
        Some(markup) => Ok(markup_fault(markup)),
    }
}

/// Why a text cannot stand in a tag, of its first octet.
fn octet_fault(alloc: Global, text: &[u8]) -> Result<Option<Why>, NoMemory>
    requires { 0 < length text.now }
    ensures { IfOk result (λ why. option_map why_told why ≡ octet_fault text.now) }
{
    if text[0] == b'&' {
        inner_fault(alloc, text)
    } else {
        Ok(None)
    }
}

/// The first fault of the references in a text at a place.
#[tactic(auto, using(crate::proofs::InnerSteps::inner_bad, crate::proofs::InnerSteps::inner_good))]
fn first_inner(alloc: Global, place: u64, text: &[u8]) -> Result<Option<Fault>, NoMemory>
    requires { place + length text.now < 2 ^ 64 }
    ensures { IfOk result (λ fault. option_map fault_told fault ≡ first_inner place text.now) }
{
    let mut at = place;
    let mut rest = text;
    'octets: while let Some((_, behind)) = rest.split_first() {
        if let Some(why) = octet_fault(alloc, rest)? {
            return Ok(Some(Fault { place: at, why }));
        }
        at += 1;
        rest = behind;
    }
    Ok(None)
}

/// The first fault of the references in a tag at a place; in a comment, a section and an instruction
/// `&` is no markup.
pub fn references_fault(alloc: Global, place: u64, text: &[u8]) -> Result<Option<Fault>, NoMemory>
    requires { place + length text.now < 2 ^ 64 }
    ensures { IfOk result (λ fault. option_map fault_told fault ≡ references_fault place text.now) }
{
    if begins(text, b"<") && !begins(text, b"<!") && !begins(text, b"<?") {
        first_inner(alloc, place, text)
    } else {
        Ok(None)
    }
}

/// The fault of a text that could go on: that of a reference in it, or else that it is cut.
#[tactic(auto, using(crate::proofs::InnerSteps::cut_with, crate::proofs::InnerSteps::cut_without))]
fn cut_markup_fault(alloc: Global, end: u64, place: u64, text: &[u8]) -> Result<Fault, NoMemory>
    requires { place + length text.now < 2 ^ 64 }
    ensures { IfOk result (λ fault. fault_told fault ≡ cut_markup_fault end place text.now) }
{
    match references_fault(alloc, place, text)? {
        Some(fault) => Ok(fault),
        None => Ok(Fault {
            place: end,
            why: Why::Cut,
        }),
    }
}

/// The fault of what is no markup by itself: it is cut by the end, or it cannot stand.
pub fn no_markup_fault(alloc: Global, end: u64, place: u64, text: &[u8]) -> Result<Fault, NoMemory>
    requires some { 0 < length text.now }
    requires within { place + length text.now < 2 ^ 64 }
    ensures { IfOk result (λ fault. fault_told fault ≡ no_markup_fault end place text.now) }
{
    if begins(text, b"<!DOCTYPE") {
        Ok(Fault {
            place,
            why: Why::Dtd,
        })
    } else if can_go_on(alloc, text)? {
        cut_markup_fault(alloc, end, place, text)
    } else {
        Ok(Fault {
            place,
            why: Why::Syntax,
        })
    }
}
