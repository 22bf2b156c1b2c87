//! What shows a state of the server and goes over the objects of its calendars.
ghost use Rattle.std.specs.Prelude.{◌≡◌, map};
ghost use Rattle.cal_model.specs.State.SoundStates.{IsSound};
ghost use Rattle.object_walk.specs.WalkedObjects.{AreInCalendar, HaveOriginsOf, named_octets, objects_at};

use crate::walk::ObjectWalk;
use cal_model::view::View;

/// A state of the server with its users, which is looked at, and whose calendars are gone over as wholes.
pub trait Walks: View {
    /// The objects of a calendar in the order of their names, with their origins; none where it isn't
    /// there. Takes no memory, and about the logarithm of what there is.
    fn objects(&self, home: u32, calendar: &[u8]) -> ObjectWalk<'_>
        ensures octets { map named_octets result ≡ objects_at (Self.state self.now) home calendar.now }
        ensures origins { HaveOriginsOf (Self.origins self.now home calendar.now) result }
        ensures places { AreInCalendar home calendar.now result }
        ensures sound { IsSound (Self.directory self.now) (Self.state self.now) };
}
