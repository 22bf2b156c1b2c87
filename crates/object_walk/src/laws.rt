//! What walks meet.
ghost use Rattle.cal_model.specs.State.NameWalks.{WalksMeetAll};

/// In a state that is reached a walk from the empty name, each time to the least name above the last
/// one, meets all calendars of a home, and all objects of a calendar, in order and each once.
#[tactic(auto, using(cal_model::proofs::State::NameWalkLaws::walks_meet_all))]
pub fn walk_laws()
    ensures { WalksMeetAll }
{}
