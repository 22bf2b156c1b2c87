//! Reading a body.
ghost use Rattle.std.specs.Prelude.{◌≡◌, ℕ, ◌≤◌, ◌+◌, ◌<◌, ◌^◌, [], length, drop, filter_map, None, Some, List, ◌∷◌, option_map, IfOk, IfErr, IfSome};
ghost use Rattle.cal_base.specs.Xml.XmlMarkup.{Markup, markups, markup_of};
ghost use Rattle.cal_base.specs.Xml.XmlFaults.{body_fault, references_fault};
ghost use Rattle.cal_base.specs.Xml.XmlBodies.{IsBody, body_element};
ghost use Rattle.cal_base.specs.Xml.XmlSizes.{element_size};
ghost use Rattle.dav_body.specs.Keeping.{Kept, IsStep, IsMarkupStep, behind, fault_with, element_with};
ghost use Rattle.dav_body.specs.Kept.{kept_of};
ghost use Rattle.dav_body.specs.Faults.{IsFaultOf};

use crate::cut::first_markup;
use crate::fault::{BodyFault, Why};
use crate::front::front_size;
use crate::markup::markup_of;
use crate::progress::{Progress, with_markup};
use crate::room::COPIES;
use crate::tag_references::{no_markup_fault, references_fault};
use cal_base::Element;
use std::alloc::Global;

/// The fault of a text that is no markup.
#[tactic(auto, using(crate::proofs::TextStops::text_without_markup))]
fn without_markup(alloc: Global, end: u64, place: u64, text: &[u8]) -> BodyFault
    requires some { 0 < length text.now }
    requires within { place + length text.now < 2 ^ 64 }
    requires none { None ≡ markup_of text.now }
    ensures { (before : Kept) → (texts : List (List ℕ)) → IsFaultOf (fault_with end before place (text.now ∷ texts)) result }
{
    match no_markup_fault(alloc, end, place, text) {
        Ok(fault) => BodyFault::At {
            place: fault.place,
            why: fault.why,
        },
        Err(_) => BodyFault::NoMemory,
    }
}

/// The fault of the references in a text, if one is bad or there is no memory.
#[tactic(auto, using(crate::proofs::TextStops::text_with_bad_reference))]
fn stop_of_references(alloc: Global, place: u64, text: &[u8]) -> Option<BodyFault>
    requires within { place + length text.now < 2 ^ 64 }
    ensures none { result ≡ None → None ≡ references_fault place text.now }
    ensures stop { IfSome result (λ fault. (end : ℕ) → (before : Kept) → (after : Kept) → (markup : Markup) → Some markup ≡ markup_of text.now → IsMarkupStep before markup after → (texts : List (List ℕ)) → IsFaultOf (fault_with end before place (text.now ∷ texts)) fault) }
{
    match references_fault(alloc, place, text) {
        Ok(None) => None,
        Ok(Some(fault)) => Some(BodyFault::At {
            place: fault.place,
            why: fault.why,
        }),
        Err(_) => Some(BodyFault::NoMemory),
    }
}

/// One markup more, by its text.
#[tactic(auto, using(crate::proofs::TextStops::text_stopped, crate::proofs::TextStops::text_stands))]
fn with_text<'a>(
    alloc: Global,
    room: &mut usize,
    progress: Progress<'a>,
    end: u64,
    place: u64,
    text: &'a [u8],
) -> Result<Progress<'a>, BodyFault>
    requires some { 0 < length text.now }
    requires within { place + length text.now < 2 ^ 64 }
    ensures step { IfOk result (λ after. IsStep end place (kept_of progress.entry) text.now (kept_of after)) }
    ensures stop { IfErr result (λ fault. (texts : List (List ℕ)) → IsFaultOf (fault_with end (kept_of progress.entry) place (text.now ∷ texts)) fault) }
{
    match markup_of(alloc, text) {
        Err(_) => {
            drop(progress);
            Err(BodyFault::NoMemory)
        }
        Ok(None) => {
            drop(progress);
            Err(without_markup(alloc, end, place, text))
        }
        Ok(Some(markup)) => {
            let after = with_markup(alloc, room, progress, place, markup)?;
            match stop_of_references(alloc, place, text) {
                Some(fault) => {
                    drop(after);
                    Err(fault)
                }
                None => Ok(after),
            }
        }
    }
}

/// The element of all markup.
#[tactic(auto, using(crate::proofs::KeptSteps::end_inside))]
fn finished(progress: Progress<'_>, end: u64) -> Result<Element, BodyFault>
    ensures whole { IfOk result (λ element. kept_of progress.entry ≡ behind element) }
    ensures stop { IfErr result (λ fault. (place : ℕ) → IsFaultOf (fault_with end (kept_of progress.entry) place []) fault) }
{
    match progress {
        Progress::Whole(element) => Ok(element),
        Progress::Nothing => Err(BodyFault::At {
            place: end,
            why: Why::Cut,
        }),
        Progress::Within { inner, around } => {
            drop(inner);
            drop(around);
            Err(BodyFault::At {
                place: end,
                why: Why::Cut,
            })
        }
    }
}

/// The element that the octets of a body spell, with its namespaces resolved (XML 1.0; Namespaces in
/// XML 1.0; RFC 4918, 8.2).
///
/// Where they spell none, the first fault is answered. There is no memory for a body whose elements
/// and attributes would copy more than 64 octets of namespaces for each of its octets.
#[tactic(auto, using(crate::proofs::Answered::sized))]
pub fn read_body(alloc: Global, octets: &[u8]) -> Result<Element, BodyFault>
    ensures body { IfOk result (λ element. IsBody octets.now element) }
    ensures fault { IfErr result (λ fault. IsFaultOf (body_fault octets.now) fault) }
    ensures size { IfOk result (λ element. element_size element ≤ length octets.now) }
{
    read(alloc, octets)
}

fn read(alloc: Global, octets: &[u8]) -> Result<Element, BodyFault>
    ensures body { IfOk result (λ element. IsBody octets.now element) }
    ensures fault { IfErr result (λ fault. IsFaultOf (body_fault octets.now) fault) }
{
    let end = octets.len() as u64;
    let front = front_size(alloc, octets)?;
    let mut room = octets.len().saturating_mul(COPIES);
    let mut progress = Progress::Nothing;
    let mut rest = &octets[front..];
    'markups: while !rest.is_empty() {
        let place = (octets.len() - rest.len()) as u64;
        let (text, behind) = first_markup(rest);
        progress = with_text(alloc, &mut room, progress, end, place, text)?;
        rest = behind;
    }
    finished(progress, end)
}
