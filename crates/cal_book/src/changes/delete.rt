//! DELETE (RFC 4918, 9.6).
ghost use Rattle.std.specs.Prelude.{◌≡◌};
ghost use Rattle.cal_model.specs.declared.request.Request.{Request};
ghost use Rattle.cal_model.specs.State.ServerState.{Directory, ServerState};
ghost use Rattle.cal_book.specs.Checking.Checks.{IsDecided};
ghost use Rattle.cal_book.specs.Checking.OwnChecks.{IsOwnChecked};
ghost use Rattle.cal_book.specs.Checking.Passed.{IsPassed, IsThere, sighted};

use crate::changes::check::ChangeCheck;
use crate::changes::places::place_of;
use cal_model::Method;
use request_checks::Scene;

/// What becomes of a DELETE that no shared row refuses: what its path names is deleted. Takes no
/// memory.
pub(crate) fn delete(scene: &Scene<'_>) -> ChangeCheck
    requires there { IsThere scene.now }
    ensures checked { (directory : Directory) (state : ServerState) (request : Request) → request.method ≡ Method.Delete → IsPassed directory state scene.now request → IsOwnChecked directory state (sighted directory state scene.now) request result }
    ensures decided { IsDecided result }
{
    let place = place_of(scene);
    ChangeCheck::Deletes(place.home)
}
