//! What the markup so far makes up.
ghost use Rattle.std.specs.Prelude.{◌≡◌, true, false, [], map, IfOk, IfErr};
ghost use Rattle.cal_base.specs.Xml.XmlMarkup.{opening, closing, character, section, reference};
ghost use Rattle.dav_body.specs.Reading.{whole};
ghost use Rattle.cal_base.specs.Xml.XmlFaults.{markup_fault};
ghost use Rattle.dav_body.specs.Keeping.{IsMarkupStep, nothing, behind, inside, ended, kept_around, kept_tags, is_rooted};
ghost use Rattle.dav_body.specs.Kept.{kept_of};
ghost use Rattle.dav_body.specs.Faults.{IsWhyOf};
ghost use Rattle.dav_body.specs.OpenParts.{open_part};
ghost use Rattle.dav_body.specs.Shown.{shown};

use crate::blanks::are_blanks;
use crate::fault::{BodyFault, Why};
use crate::markup::Markup;
use crate::names::WrittenName;
use crate::open_elements::{OpenElement, whole, with_element};
use crate::references::referenced;
use crate::resolve::{Resolved, resolve_tag};
use crate::tags::Tag;
use crate::values::{push_character, push_with_line_feeds};
use cal_base::{Element, NoMemory, Stack};
use std::alloc::Global;

#[derive(Drop)]
pub enum Progress<'a> {
    /// The root has not come.
    Nothing,
    /// An element is open, and others around it.
    Within {
        inner: OpenElement<'a>,
        around: Stack<OpenElement<'a>>,
    },
    /// The root is closed.
    Whole(Element),
}

/// What is open behind the end of an element.
fn closed<'a>(
    alloc: Global,
    inner: OpenElement<'a>,
    mut around: Stack<OpenElement<'a>>,
) -> Result<Progress<'a>, NoMemory>
    ensures { IfOk result (λ after. kept_of after ≡ ended (whole (open_part inner.entry) []) (map open_part around.entry)) }
{
    let element = whole(inner)?;
    match around.pop() {
        None => Ok(Progress::Whole(element)),
        Some(outer) => Ok(Progress::Within {
            inner: with_element(alloc, outer, element)?,
            around,
        }),
    }
}

/// A tag, within these elements.
#[tactic(auto, using(crate::proofs::TagSteps::opened_step, crate::proofs::TagSteps::empty_step, crate::proofs::TagSteps::opened_stop))]
fn opened<'a>(
    alloc: Global,
    room: &mut usize,
    place: u64,
    tag: Tag<'a>,
    around: Stack<OpenElement<'a>>,
) -> Result<Progress<'a>, BodyFault>
    ensures step { IfOk result (λ after. IsMarkupStep (kept_around (map open_part around.entry)) (opening tag.entry) (kept_of after)) }
    ensures stop { IfErr result (λ fault. IsWhyOf place (markup_fault (kept_tags (kept_around (map open_part around.entry))) (is_rooted (kept_around (map open_part around.entry))) (opening tag.entry)) fault) }
{
    let is_empty = tag.is_empty();
    match resolve_tag(alloc, room, tag, &around) {
        Err(_) => {
            drop(around);
            Err(BodyFault::NoMemory)
        }
        Ok(Resolved::Fault(why)) => {
            drop(around);
            Err(BodyFault::At { place, why })
        }
        Ok(Resolved::Open(inner)) => {
            if is_empty {
                Ok(closed(alloc, inner, around)?)
            } else {
                Ok(Progress::Within { inner, around })
            }
        }
    }
}

#[tactic(auto, using(crate::proofs::TagSteps::closing_step, crate::proofs::TagSteps::closing_stop))]
fn end_tag<'a>(
    alloc: Global,
    inner: OpenElement<'a>,
    around: Stack<OpenElement<'a>>,
    place: u64,
    name: WrittenName<'_>,
) -> Result<Progress<'a>, BodyFault>
    ensures step { IfOk result (λ after. IsMarkupStep (inside (open_part inner.entry) (map open_part around.entry)) (closing name.entry) (kept_of after)) }
    ensures stop { IfErr result (λ fault. IsWhyOf place (markup_fault (kept_tags (inside (open_part inner.entry) (map open_part around.entry))) true (closing name.entry)) fault) }
{
    if inner.tag.tag().name().is_same(&name) {
        Ok(closed(alloc, inner, around)?)
    } else {
        drop(inner);
        drop(around);
        Err(BodyFault::At {
            place,
            why: Why::Syntax,
        })
    }
}

/// A reference within an element.
#[tactic(auto, using(crate::proofs::MarkupSteps::reference_step, crate::proofs::MarkupSteps::reference_stop))]
fn with_reference<'a>(
    mut inner: OpenElement<'a>,
    around: Stack<OpenElement<'a>>,
    place: u64,
    name: &[u8],
) -> Result<Progress<'a>, BodyFault>
    ensures step { IfOk result (λ after. IsMarkupStep (inside (open_part inner.entry) (map open_part around.entry)) (reference name.now) (kept_of after)) }
    ensures stop { IfErr result (λ fault. IsWhyOf place (markup_fault (kept_tags (inside (open_part inner.entry) (map open_part around.entry))) true (reference name.now)) fault) }
{
    match referenced(name) {
        Some(character) => match push_character(&mut inner.text, character) {
            Ok(()) => Ok(Progress::Within { inner, around }),
            Err(_) => {
                drop(inner);
                drop(around);
                Err(BodyFault::NoMemory)
            }
        },
        None => {
            drop(inner);
            drop(around);
            Err(BodyFault::At {
                place,
                why: Why::Entity,
            })
        }
    }
}

/// Characters or a section within an element.
#[tactic(auto, using(crate::proofs::KeptSteps::step_character, crate::proofs::KeptSteps::step_section))]
fn with_said<'a>(
    mut inner: OpenElement<'a>,
    around: Stack<OpenElement<'a>>,
    text: &[u8],
) -> Result<Progress<'a>, NoMemory>
    ensures characters { IfOk result (λ after. IsMarkupStep (inside (open_part inner.entry) (map open_part around.entry)) (character text.now) (kept_of after)) }
    ensures section { IfOk result (λ after. IsMarkupStep (inside (open_part inner.entry) (map open_part around.entry)) (section text.now) (kept_of after)) }
{
    match push_with_line_feeds(&mut inner.text, text) {
        Ok(()) => Ok(Progress::Within { inner, around }),
        Err(error) => {
            drop(inner);
            drop(around);
            Err(error)
        }
    }
}

/// A markup within an element.
#[tactic(auto, using(crate::proofs::KeptSteps::step_skipped))]
fn within<'a>(
    alloc: Global,
    room: &mut usize,
    inner: OpenElement<'a>,
    mut around: Stack<OpenElement<'a>>,
    place: u64,
    markup: Markup<'a>,
) -> Result<Progress<'a>, BodyFault>
    ensures step { IfOk result (λ after. IsMarkupStep (inside (open_part inner.entry) (map open_part around.entry)) (shown markup.entry) (kept_of after)) }
    ensures stop { IfErr result (λ fault. IsWhyOf place (markup_fault (kept_tags (inside (open_part inner.entry) (map open_part around.entry))) true (shown markup.entry)) fault) }
{
    match markup {
        Markup::Opening(tag) => {
            around.push(inner)?;
            opened(alloc, room, place, tag, around)
        }
        Markup::Closing(name) => end_tag(alloc, inner, around, place, name),
        Markup::Character(text) => Ok(with_said(inner, around, text)?),
        Markup::Section(text) => Ok(with_said(inner, around, text)?),
        Markup::Reference(name) => with_reference(inner, around, place, name),
        Markup::Skipped => Ok(Progress::Within { inner, around }),
    }
}

/// A markup before the root.
#[tactic(auto, using(crate::proofs::KeptSteps::step_blank_before, crate::proofs::KeptSteps::step_skipped, crate::proofs::MarkupSteps::stray_text))]
fn before_root<'a>(
    alloc: Global,
    room: &mut usize,
    place: u64,
    markup: Markup<'a>,
) -> Result<Progress<'a>, BodyFault>
    ensures step { IfOk result (λ after. IsMarkupStep nothing (shown markup.entry) (kept_of after)) }
    ensures stop { IfErr result (λ fault. IsWhyOf place (markup_fault [] false (shown markup.entry)) fault) }
{
    match markup {
        Markup::Opening(tag) => opened(alloc, room, place, tag, Stack::new(alloc)),
        Markup::Character(text) => {
            if are_blanks(text) {
                Ok(Progress::Nothing)
            } else {
                Err(BodyFault::At {
                    place,
                    why: Why::Syntax,
                })
            }
        }
        Markup::Skipped => Ok(Progress::Nothing),
        Markup::Closing(_) => Err(BodyFault::At {
            place,
            why: Why::Syntax,
        }),
        Markup::Section(_) => Err(BodyFault::At {
            place,
            why: Why::Syntax,
        }),
        Markup::Reference(_) => Err(BodyFault::At {
            place,
            why: Why::Syntax,
        }),
    }
}

/// A markup behind the root.
#[tactic(auto, using(crate::proofs::KeptSteps::step_blank_behind, crate::proofs::KeptSteps::step_skipped, crate::proofs::MarkupSteps::stray_text))]
fn behind_root<'a>(
    element: Element,
    place: u64,
    markup: Markup<'a>,
) -> Result<Progress<'a>, BodyFault>
    ensures step { IfOk result (λ after. IsMarkupStep (behind element) (shown markup.entry) (kept_of after)) }
    ensures stop { IfErr result (λ fault. IsWhyOf place (markup_fault [] true (shown markup.entry)) fault) }
{
    match markup {
        Markup::Character(text) => {
            if are_blanks(text) {
                Ok(Progress::Whole(element))
            } else {
                Err(BodyFault::At {
                    place,
                    why: Why::Syntax,
                })
            }
        }
        Markup::Skipped => Ok(Progress::Whole(element)),
        Markup::Opening(_) => Err(BodyFault::At {
            place,
            why: Why::Syntax,
        }),
        Markup::Closing(_) => Err(BodyFault::At {
            place,
            why: Why::Syntax,
        }),
        Markup::Section(_) => Err(BodyFault::At {
            place,
            why: Why::Syntax,
        }),
        Markup::Reference(_) => Err(BodyFault::At {
            place,
            why: Why::Syntax,
        }),
    }
}

/// One markup more.
pub fn with_markup<'a>(
    alloc: Global,
    room: &mut usize,
    progress: Progress<'a>,
    place: u64,
    markup: Markup<'a>,
) -> Result<Progress<'a>, BodyFault>
    ensures step { IfOk result (λ after. IsMarkupStep (kept_of progress.entry) (shown markup.entry) (kept_of after)) }
    ensures stop { IfErr result (λ fault. IsWhyOf place (markup_fault (kept_tags (kept_of progress.entry)) (is_rooted (kept_of progress.entry)) (shown markup.entry)) fault) }
{
    match progress {
        Progress::Nothing => before_root(alloc, room, place, markup),
        Progress::Within { inner, around } => within(alloc, room, inner, around, place, markup),
        Progress::Whole(element) => behind_root(element, place, markup),
    }
}
