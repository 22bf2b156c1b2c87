//! What a look shows of the state that it shares, to everybody who answers a request.
ghost use Rattle.std.specs.Prelude.{◌≡◌};
ghost use Rattle.cal_model.specs.History.Origins.{AreOrigins};

use crate::shown_state::ShownState;
use cal_base::Arc;
use cal_model::view::View;
use cal_model::{CalendarData, Stored};
use object_walk::{ObjectWalk, Walks};
use std::marker::Model;

/// A state of the server with its users, as it was when the look was made, in which each object has an
/// origin of its own. No call takes memory, and each takes about the logarithm of what there is.
#[derive(Drop)]
pub struct ShownView {
    state: ShownState,
}

impl Model for ShownView {
    ghost use Rattle.collections.specs.Kept.{Kept};
    ghost use Rattle.collections.specs.Stores.{IsLookedAt};

    ghost Value = { Kept };

    ghost view = { λ v. v.state };

    ghost invariant = { λ v. IsLookedAt v.state };
}

impl ShownView {
    ghost use Rattle.collections.specs.Kept.{state_of, origins_of};

    /// The view of a state.
    pub fn of(state: ShownState) -> ShownView
        requires origins { AreOrigins (state_of state) (origins_of state) }
        ensures { result ≡ state }
    {
        // A look at how many they are, which tells a proof that their names tell them apart.
        let _count = state.users().len();
        ShownView { state }
    }
}

impl View for ShownView {
    ghost use Rattle.collections.specs.Kept.{state_of, users_of, origins_of};

    ghost directory = { users_of };

    ghost state = { state_of };

    ghost origins = { origins_of };

    fn calendar(&self, home: u32, name: &[u8]) -> Option<&CalendarData> {
        self.state.calendar(home, name)
    }

    fn calendar_after(&self, home: u32, name: &[u8]) -> Option<(&[u8], &CalendarData)> {
        self.state.calendar_after(home, name)
    }

    fn object(&self, home: u32, calendar: &[u8], name: &[u8]) -> Option<(&Arc<Stored>, u64)> {
        self.state.object(home, calendar, name)
    }

    fn object_after(&self, home: u32, calendar: &[u8], name: &[u8]) -> Option<(&Arc<Stored>, u64)> {
        self.state.object_after(home, calendar, name)
    }

    fn user_name(&self, who: u32) -> &[u8] {
        self.state.users().name(who)
    }

    fn find_user(&self, name: &[u8]) -> Option<u32> {
        self.state.users().find(name)
    }

    fn user_count(&self) -> u32 {
        self.state.users().len()
    }

    fn group_count(&self) -> u32 {
        self.state.users().groups()
    }

    fn find_group(&self, name: &[u8]) -> Option<u32> {
        self.state.users().find_group(name)
    }

    fn group_name(&self, group: u32) -> &[u8] {
        self.state.users().group_name(group)
    }

    fn is_member(&self, group: u32, who: u32) -> bool {
        self.state.users().is_member(group, who)
    }
}

impl Walks for ShownView {
    fn objects(&self, home: u32, calendar: &[u8]) -> ObjectWalk<'_> {
        self.state.objects(home, calendar)
    }
}
