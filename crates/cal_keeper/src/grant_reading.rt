//! Grants, read from a payload.
ghost use Rattle.std.specs.Prelude.{◌≡◌, ◌<◌, ◌≤◌, ◌^◌, ◌∷◌, ◌++◌, All, length, flat_map, IsNone, IfSome, IfOk};
ghost use Rattle.std.specs.Int.{w32, to_be_bytes};
ghost use Rattle.cal_model.specs.declared.privilege.Who.{Who};
ghost use Rattle.cal_model.specs.Bodies.AclBodies.{grant_limit};
ghost use Rattle.cal_keeper.specs.Steps.Decoding.{HasNo, HasNoGrants, HasNoCountedGrants};
ghost use Rattle.cal_keeper.specs.Principals.{AreFew};
ghost use Rattle.cal_keeper.specs.Files.Payloads.{who_text, grant_text, grants_text, IsKnown, GrantHasForm};

use crate::parts::{u16_at, u32_at};
use crate::principals::PrincipalCounts;
use cal_base::{List, NoMemory};
use cal_model::privilege::ALL;
use cal_model::{Grant, PrivilegeSet, Who};
use std::alloc::Global;

/// The most grants of a record.
const MOST_GRANTS: u8 = 64;

/// Grants that are all of the octets, and the size that stands in front of them.
pub(crate) fn all_grants_at(
    alloc: Global,
    octets: &[u8],
    counts: PrincipalCounts,
) -> Result<Option<(u32, List<Grant>)>, NoMemory>
    requires short { length octets.now < 2 ^ 32 }
    requires few { AreFew counts }
    ensures found { IfOk result (λ found. IfSome found (λ found. octets.now ≡ grants_text found.0 found.1)) }
    ensures few { IfOk result (λ found. IfSome found (λ found. length found.1 ≤ grant_limit)) }
    ensures small { IfOk result (λ found. IfSome found (λ found. found.0 < 2 ^ 32)) }
    ensures form { IfOk result (λ found. IfSome found (λ found. All (GrantHasForm counts) found.1)) }
    ensures none { IfOk result (λ found. IsNone found → HasNoCountedGrants counts octets.now) }
{
    let Some((size, rest)) = u32_at(octets) else {
        return Ok(None);
    };
    let Some((count, rest)) = rest.split_first() else {
        return Ok(None);
    };
    if MOST_GRANTS < *count {
        return Ok(None);
    }
    let Some(grants) = grants_at(alloc, rest, *count, counts)? else {
        return Ok(None);
    };
    Ok(Some((size, grants)))
}

/// So many grants that are all of the octets.
fn grants_at(
    alloc: Global,
    octets: &[u8],
    count: u8,
    counts: PrincipalCounts,
) -> Result<Option<List<Grant>>, NoMemory>
    requires short { length octets.now < 2 ^ 32 }
    requires few { AreFew counts }
    ensures found { IfOk result (λ found. IfSome found (λ grants. octets.now ≡ flat_map grant_text grants)) }
    ensures count { IfOk result (λ found. IfSome found (λ grants. length grants ≡ count)) }
    ensures form { IfOk result (λ found. IfSome found (λ grants. All (GrantHasForm counts) grants)) }
    ensures none { IfOk result (λ found. IsNone found → HasNoGrants counts count octets.now) }
{
    let mut grants = List::new(alloc);
    let mut rest = octets;
    'granting: for done in 0..count {
        let Some((grant, after)) = grant_at(rest, counts) else {
            return Ok(None);
        };
        grants.push(grant)?;
        rest = after;
    }
    if rest.is_empty() {
        Ok(Some(grants))
    } else {
        Ok(None)
    }
}

/// A grant, and what stands behind it.
fn grant_at(octets: &[u8], counts: PrincipalCounts) -> Option<(Grant, &[u8])>
    ensures form { IfSome result (λ found. GrantHasForm counts found.0) }
    ensures found { IfSome result (λ found. octets.now ≡ grant_text found.0 ++ found.1.now) }
    ensures none { IsNone result → HasNo grant_text (GrantHasForm counts) octets.now }
{
    let (kind, rest) = octets.split_first()?;
    let (number, rest) = u32_at(rest)?;
    let (bits, rest) = u16_at(rest)?;
    let who = who_of(*kind, number, counts)?;
    if ALL < bits {
        return None;
    }
    let grant = Grant {
        who,
        held: PrivilegeSet(bits),
    };
    Some((grant, rest))
}

/// Whom a kind and a number stand for, of so many users and groups.
fn who_of(kind: u8, number: u32, counts: PrincipalCounts) -> Option<Who>
    ensures known { IfSome result (IsKnown counts) }
    ensures found { IfSome result (λ who. kind ∷ to_be_bytes w32 number ≡ who_text who) }
    ensures none { IsNone result → (who : Who) → IsKnown counts who → kind ∷ to_be_bytes w32 number ≡ who_text who → ⊥ }
{
    match kind {
        0 if number == 0 => Some(Who::Everyone),
        1 if number == 0 => Some(Who::Owner),
        2 if number < counts.users => Some(Who::Principal(number)),
        3 if number < counts.groups => Some(Who::Group(number)),
        _ => None,
    }
}
