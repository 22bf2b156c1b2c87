//! What an accepted request answers.
ghost use Rattle.std.specs.Prelude.{◌≡◌};
ghost use Rattle.cal_model.specs.Serving.Outcomes as outcomes;
ghost use Rattle.cal_model.specs.Sight.Scenes.{Scene as Sighted};
ghost use Rattle.request_checks.specs.Scenes.{IsScene};

use crate::scenes::Scene;
use cal_model::Method;

/// The status of a request that changes something and is accepted: 201 for what is new, 207 for
/// settings, 200 for grants and 204 for the rest (RFC 9110, 9.3.4; RFC 4791, 5.3.1).
pub fn accepted_status(scene: &Scene<'_>, method: Method) -> u16
    ensures { (sighted : Sighted) → IsScene scene.now sighted → result ≡ outcomes.accepted_status sighted method }
{
    match method {
        Method::Put => status_of_put(scene),
        Method::Mkcalendar => 201,
        Method::Proppatch => 207,
        Method::Acl => 200,
        _ => 204,
    }
}

fn status_of_put(scene: &Scene<'_>) -> u16
    ensures { (sighted : Sighted) → IsScene scene.now sighted → result ≡ outcomes.accepted_status sighted Method.Put }
{
    if scene.object.is_some() { 204 } else { 201 }
}
