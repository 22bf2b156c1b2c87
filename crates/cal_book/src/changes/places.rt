//! The calendar that a request is about, and the place of an object in it.
ghost use Rattle.cal_model.specs.declared.request.Request.{Request};
ghost use Rattle.cal_model.specs.State.ServerState.{Directory, ServerState};
ghost use Rattle.cal_book.specs.Checking.Passed.{IsPassed, IsThere, IsOfObject, sighted};
ghost use Rattle.cal_book.specs.Checking.Places.{IsPlace, IsTarget};

use cal_base::Octets;
use cal_model::{CalendarData, Method, Path};
use request_checks::{Scene, accepted_status};

/// A calendar that is there.
#[derive(Clone, Copy)]
pub(crate) struct Place<'a> {
    /// The number of the user whose home it is in.
    pub(crate) home: u32,
    /// Its name.
    pub(crate) calendar: &'a Octets,
    /// The privileges that the caller holds on it.
    pub(crate) held: u16,
    pub(crate) data: &'a CalendarData,
}

/// Where an object is put.
#[derive(Clone, Copy)]
pub(crate) struct Target<'a> {
    pub(crate) place: Place<'a>,
    /// The name of the user whose home it is in.
    pub(crate) user: &'a Octets,
    /// The name of the object.
    pub(crate) object: &'a Octets,
    /// Whether an object of this name is there.
    pub(crate) is_there: bool,
    /// The status of the reply to the PUT: 201 for an object that is new.
    pub(crate) status: u16,
}

/// The calendar of a scene.
pub(crate) fn place_of<'a>(scene: &Scene<'a>) -> Place<'a>
    requires there { IsThere scene.now }
    ensures place { (directory : Directory) (state : ServerState) (request : Request) → IsPassed directory state scene.now request → IsPlace directory state (sighted directory state scene.now) result }
{
    let Some(home) = scene.user else {
        unreachable!();
    };
    let Some((held, data)) = scene.calendar else {
        unreachable!();
    };
    let (Path::Calendar(_, calendar) | Path::Object(_, calendar, _)) = scene.path else {
        unreachable!();
    };
    Place {
        home,
        calendar,
        held,
        data,
    }
}

/// The place of the object that a scene's path names.
pub(crate) fn target_of<'a>(scene: &Scene<'a>) -> Target<'a>
    requires there { IsThere scene.now }
    requires object { IsOfObject scene.now.path.now }
    ensures target { (directory : Directory) (state : ServerState) (request : Request) → IsPassed directory state scene.now request → IsTarget directory state (sighted directory state scene.now) result }
{
    let Path::Object(user, _, object) = scene.path else {
        unreachable!();
    };
    Target {
        place: place_of(scene),
        user,
        object,
        is_there: scene.object.is_some(),
        status: accepted_status(scene, Method::Put),
    }
}
