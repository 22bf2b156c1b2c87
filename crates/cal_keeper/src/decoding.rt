//! The event of a record, read from its payload.
ghost use Rattle.std.specs.Prelude.{◌≡◌, ◌<◌, ◌≤◌, ◌^◌, ◌++◌, length, IsNone, IfSome, IfOk};
ghost use Rattle.cal_keeper.specs.Steps.Decoding.{head_text, ReadsEvent, IsOutside};
ghost use Rattle.cal_keeper.specs.Files.RecordForm.{payload_limit};

use crate::parts::{name_at, u16_at, u32_at, u64_at};
use crate::request_reading::request_at;
use cal_base::NoMemory;
use cal_model::Event;
use privileges::Users;
use std::alloc::Global;

/// The last second of the year 9999.
const LAST_MOMENT: u64 = 253_402_300_799;

/// The numbers that all kinds of payload begin with.
#[derive(Clone, Copy)]
pub(crate) struct Head {
    pub(crate) kind: u8,
    pub(crate) who: u32,
    pub(crate) moment: u64,
    pub(crate) status: u16,
    pub(crate) home: u32,
}

/// The event and the status of a payload; none where it is outside the form. Takes memory for what it
/// reads.
pub(crate) fn read_event(
    alloc: Global,
    users: &Users,
    payload: &[u8],
) -> Result<Option<(Event, u16)>, NoMemory>
    requires { length payload.now ≤ payload_limit }
    ensures found { IfOk result (λ found. IfSome found (λ found. ReadsEvent users.now payload.now found.0 found.1)) }
    ensures none { IfOk result (λ found. IsNone found → IsOutside users.now payload.now) }
{
    let Some((head, rest)) = head_at(payload) else {
        return Ok(None);
    };
    if users.len() <= head.who {
        return Ok(None);
    }
    if users.len() <= head.home {
        return Ok(None);
    }
    if LAST_MOMENT < head.moment {
        return Ok(None);
    }
    let Some((calendar, rest)) = name_at(rest) else {
        return Ok(None);
    };
    let Some(request) = request_at(alloc, users, head.kind, head.home, calendar, rest)? else {
        return Ok(None);
    };
    let event = Event {
        session: 0,
        who: head.who,
        moment: head.moment as i64,
        request,
    };
    Ok(Some((event, head.status)))
}

/// The numbers in front, and what stands behind them.
fn head_at(octets: &[u8]) -> Option<(Head, &[u8])>
    ensures found { IfSome result (λ found. octets.now ≡ head_text found.0 ++ found.1.now) }
    ensures small { IfSome result (λ found. found.0.status < 2 ^ 16) }
    ensures short { IsNone result → length octets.now < 19 }
{
    let (kind, rest) = octets.split_first()?;
    let kind = *kind;
    let (who, rest) = u32_at(rest)?;
    let (moment, rest) = u64_at(rest)?;
    let (status, rest) = u16_at(rest)?;
    let (home, rest) = u32_at(rest)?;
    let head = Head {
        kind,
        who,
        moment,
        status,
        home,
    };
    Some((head, rest))
}
