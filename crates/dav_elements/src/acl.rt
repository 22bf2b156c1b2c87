//! The body of ACL (RFC 3744, 5.5 and 8.1).
ghost use Rattle.std.specs.Prelude.{◌≡◌, ◌+◌, ◌++◌, ◌∷◌, [], take, filter, flat_map, codes, length, None, option_map, false, IfOk, IsNone};
ghost use Rattle.std.specs.List.{list_any};
ghost use Rattle.std.specs.Option.{option_to_list};
ghost use Rattle.cal_model.specs.Bodies.AclBodies as spec;
ghost use Rattle.cal_model.specs.Bodies.ElementParts.{has_name, item_elements};
ghost use Rattle.cal_model.specs.Bodies.Refusals.{first_row};
ghost use Rattle.cal_model.specs.Words.Namespaces.{dav};
ghost use Rattle.dav_elements.specs.AceAnswers.{answer_grants, answer_refusal, late_rows, refusal_by, refusals_from};

use crate::aces::{Whom, ace_in, granted, holds, lacks_part, meant};
use crate::parts::{DAV, has_name};
use crate::refusals::{bad_request, dav_refusal};
use cal_base::{Element, Item, List, NoMemory};
use cal_model::{Content, Grant, PrivilegeSet, Who};
use privileges::Users;
use std::alloc::Global;

/// The most grants of a calendar.
const MOST_GRANTS: usize = 64;

/// What an ace comes to.
#[derive(Clone, Copy)]
enum AceAnswer {
    Granted(Grant),
    /// The condition that it does not meet, as its element is written.
    Refused(&'static [u8]),
}

/// The grants of an ACL, or the refusal of the first ace that has one.
#[tactic(auto, using(crate::proofs::AclLemmas::acl_refused, crate::proofs::AclLemmas::acl_granted), unfolding(cal_model::specs::Bodies::AclBodies::acl_content))]
pub fn read_acl(alloc: Global, users: &Users, root: &Element) -> Result<Content, NoMemory>
    ensures { IfOk result (λ content. content ≡ spec.acl_content users.now root.now) }
{
    if !has_name(root, DAV, b"acl") || lack_parts(root.items.as_slice()) {
        return Ok(bad_request());
    }
    let mut grants = List::new(alloc);
    match push_grants(alloc, users, root.items.as_slice(), &mut grants)? {
        Some(condition) => dav_refusal(alloc, condition),
        None => Ok(Content::Acl(grants)),
    }
}

/// Whether an ace among some items lacks a part.
fn lack_parts(items: &[Item]) -> bool
    ensures { result ≡ list_any spec.lacks_part (filter spec.is_kept (filter (has_name dav (codes "ace")) (flat_map item_elements items.now))) }
{
    'items: for item in items {
        if let Some(ace) = ace_in(item) {
            if lacks_part(ace) {
                return true;
            }
        }
    }
    false
}

/// Appends the grants of the aces among some items, up to the first that is refused: the condition is
/// that of its refusal.
fn push_grants(
    alloc: Global,
    users: &Users,
    items: &[Item],
    grants: &mut List<Grant>,
) -> Result<Option<&'static [u8]>, NoMemory>
    requires { list_any spec.lacks_part (filter spec.is_kept (filter (has_name dav (codes "ace")) (flat_map item_elements items.now))) ≡ false }
    ensures refusal { IfOk result (λ condition. option_to_list (option_map refusal_by condition) ≡ take 1 (refusals_from users.now (length grants.old) (filter spec.is_kept (filter (has_name dav (codes "ace")) (flat_map item_elements items.now))))) }
    ensures grants { IfOk result (λ condition. IsNone condition → grants.new ≡ grants.old ++ flat_map (spec.grants_of users.now) (filter spec.is_kept (filter (has_name dav (codes "ace")) (flat_map item_elements items.now)))) }
{
    'items: for item in items {
        if let Some(condition) = push_grants_in(alloc, users, item, grants)? {
            return Ok(Some(condition));
        }
    }
    Ok(None)
}

/// Appends the grant of the ace that an item is, if it is one that is not refused.
#[tactic(auto, using(crate::proofs::AclLemmas::refusals_one, crate::proofs::AclLemmas::grants_one))]
fn push_grants_in(
    alloc: Global,
    users: &Users,
    item: &Item,
    grants: &mut List<Grant>,
) -> Result<Option<&'static [u8]>, NoMemory>
    requires { list_any spec.lacks_part (filter spec.is_kept (filter (has_name dav (codes "ace")) (item_elements item.now))) ≡ false }
    ensures refusal { IfOk result (λ condition. option_to_list (option_map refusal_by condition) ≡ refusals_from users.now (length grants.old) (filter spec.is_kept (filter (has_name dav (codes "ace")) (item_elements item.now)))) }
    ensures grants { IfOk result (λ condition. IsNone condition → grants.new ≡ grants.old ++ flat_map (spec.grants_of users.now) (filter spec.is_kept (filter (has_name dav (codes "ace")) (item_elements item.now)))) }
    ensures count { IfOk result (λ condition. IsNone condition → length grants.new ≡ length grants.old + length (filter spec.is_kept (filter (has_name dav (codes "ace")) (item_elements item.now)))) }
{
    match ace_in(item) {
        Some(ace) => push_grant(alloc, users, ace, grants),
        None => Ok(None),
    }
}

/// Appends the grant of an ace, unless it is refused.
fn push_grant(
    alloc: Global,
    users: &Users,
    ace: &Element,
    grants: &mut List<Grant>,
) -> Result<Option<&'static [u8]>, NoMemory>
    requires { spec.lacks_part ace.now ≡ false }
    ensures refusal { IfOk result (λ condition. option_map refusal_by condition ≡ first_row (spec.ace_rows users.now (length grants.old) ace.now)) }
    ensures grants { IfOk result (λ condition. IsNone condition → grants.new ≡ grants.old ++ spec.grants_of users.now ace.now) }
    ensures count { IfOk result (λ condition. IsNone condition → length grants.new ≡ length grants.old + 1) }
{
    match ruling(alloc, users, grants.len(), ace)? {
        AceAnswer::Granted(grant) => {
            grants.push(grant)?;
            Ok(None)
        }
        AceAnswer::Refused(condition) => Ok(Some(condition)),
    }
}

/// What an ace comes to, before which there are so many.
#[tactic(auto, using(crate::proofs::AclLemmas::deny_row, crate::proofs::AclLemmas::invert_row, crate::proofs::AclLemmas::nobody_row, crate::proofs::AclLemmas::other_row, crate::proofs::AclLemmas::someone_row, crate::proofs::AclLemmas::someone_grants, crate::proofs::AclLemmas::principal_there))]
fn ruling(alloc: Global, users: &Users, before: usize, ace: &Element) -> Result<AceAnswer, NoMemory>
    requires { spec.lacks_part ace.now ≡ false }
    ensures refusal { IfOk result (λ answer. answer_refusal answer ≡ first_row (spec.ace_rows users.now before ace.now)) }
    ensures grants { IfOk result (λ answer. answer_refusal answer ≡ None → answer_grants answer ≡ spec.grants_of users.now ace.now) }
{
    if holds(ace, b"deny") {
        return Ok(AceAnswer::Refused(b"<D:grant-only/>"));
    }
    if holds(ace, b"invert") {
        return Ok(AceAnswer::Refused(b"<D:no-invert/>"));
    }
    match meant(alloc, users, ace)? {
        Whom::Someone(who) => Ok(ruling_for(before, who, ace)),
        Whom::Nobody => Ok(AceAnswer::Refused(b"<D:recognized-principal/>")),
        Whom::Other => Ok(AceAnswer::Refused(b"<D:allowed-principal/>")),
    }
}

/// What an ace that means someone comes to.
fn ruling_for(before: usize, who: Who, ace: &Element) -> AceAnswer
    ensures refusal { answer_refusal result ≡ first_row (late_rows before ace.now) }
    ensures grants { answer_refusal result ≡ None → answer_grants result ≡ record { who = who; held = record { 0 = spec.bits_of ace.now } } ∷ [] }
{
    let granted = granted(ace);
    if granted.unknown {
        AceAnswer::Refused(b"<D:not-supported-privilege/>")
    } else if MOST_GRANTS <= before {
        AceAnswer::Refused(b"<D:limited-number-of-aces/>")
    } else {
        AceAnswer::Granted(Grant {
            who,
            held: PrivilegeSet(granted.bits),
        })
    }
}
