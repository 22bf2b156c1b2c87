//! A look at a history and its pieces.
ghost use Rattle.std.specs.Prelude.{◌≡◌, ℕ, true, IfOk, IfSome};
ghost use Rattle.cal_model.specs.declared.request.Event.{Event as EventData};
ghost use Rattle.cal_model.specs.Serving.Outcomes.{is_reading as reads};
ghost use Rattle.cal_book.specs.Keeping.KeptHistories.{users_in};
ghost use Rattle.cal_book.specs.Looks.{IsLookAt};
ghost use Rattle.cal_book.specs.UpToDate.{IsUpToDate, work_with};

use crate::history::History;
use crate::look::Look;
use cal_base::NoMemory;
use cal_model::{Event, Method};
use piece_claims::Claims;

/// Whether a method only reads (RFC 9110, 9.2.1).
pub(crate) fn is_reading(method: Method) -> bool
    ensures { result ≡ reads method }
{
    matches!(
        method,
        Method::Options | Method::Get | Method::Head | Method::Propfind | Method::Report
    )
}

/// A look at what there is now, for whichever event only reads. What it shows is shared, so its time does
/// not grow with what there is.
fn look_at(history: &mut History, claims: &mut Claims) -> Result<Look, NoMemory>
    requires kept { IsUpToDate history.old.journal claims.old }
    ensures history { history.new ≡ history.old }
    ensures claims { claims.new ≡ claims.old }
    ensures at { IfOk result (λ look. (spare : ℕ) (event : EventData) → reads event.request.method ≡ true → IsLookAt (record { users = users_in history.old; work = work_with history.old.journal claims.old; spare = spare }) event look) }
{
    let _entries = history.entries();
    let users = history.share_users()?;
    let shown = history.look()?;
    let shelf = claims.look()?;
    Ok(Look::of(users, shown, shelf, claims.latest()))
}

/// A look at what there is now, for an event. For one that changes something, and without memory, there is
/// none.
pub(crate) fn look_for(history: &mut History, claims: &mut Claims, event: &Event) -> Option<Look>
    requires kept { IsUpToDate history.old.journal claims.old }
    ensures history { history.new ≡ history.old }
    ensures claims { claims.new ≡ claims.old }
    ensures at { IfSome result (λ look. (spare : ℕ) → IsLookAt (record { users = users_in history.old; work = work_with history.old.journal claims.old; spare = spare }) event.now look) }
{
    if !is_reading(event.request.method) {
        return None;
    }
    match look_at(history, claims) {
        Ok(look) => Some(look),
        Err(NoMemory) => None,
    }
}
