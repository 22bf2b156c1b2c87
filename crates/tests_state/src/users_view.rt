//! The users of a file, as those look at them who ask what is held: nobody has a calendar.
ghost use Rattle.std.specs.Prelude.{◌≡◌};
ghost use Rattle.cal_model.specs.State.ServerState.{directory_of};

use cal_base::Arc;
use cal_model::view::View;
use cal_model::{CalendarData, Stored};
use privileges::Users;
use std::marker::Model;

/// The users of a file, of whom nobody has a calendar.
#[derive(Drop)]
pub struct UsersView<'a> {
    users: &'a Users,
}

impl<'a> Model for UsersView<'a> {
    ghost use Rattle.cal_model.specs.State.ServerState.{directory_of};
    ghost use Rattle.cal_model.specs.State.UserNames.{AreToldApart};
    ghost use Rattle.cal_model.specs.Users.UsersFile as file;

    ghost Value = { file.Users };

    ghost view = { λ v. v.users.now };

    ghost invariant = { λ v. AreToldApart (directory_of v.users.now) };
}

impl<'a> UsersView<'a> {
    /// The view of the users of a file.
    pub fn new(users: &'a Users) -> UsersView<'a>
        ensures { result ≡ users.now }
    {
        // A look at how many they are, which tells a proof that their names tell them apart.
        let _count = users.len();
        UsersView { users }
    }
}

impl<'a> View for UsersView<'a> {
    ghost use Rattle.cal_model.specs.State.ServerState.{directory_of};
    ghost use Rattle.tests_state.specs.UsersAlone.{bare_state, no_origins};

    ghost directory = { directory_of };

    ghost state = { bare_state };

    ghost origins = { no_origins };

    #[tactic(auto, using(crate::proofs::UsersAloneLaws::no_data, crate::proofs::UsersAloneLaws::bare_sound))]
    fn calendar(&self, _home: u32, _name: &[u8]) -> Option<&CalendarData> {
        None
    }

    #[tactic(auto, using(crate::proofs::UsersAloneLaws::no_next, crate::proofs::UsersAloneLaws::bare_sound))]
    fn calendar_after(&self, _home: u32, _name: &[u8]) -> Option<(&[u8], &CalendarData)> {
        None
    }

    #[tactic(auto, unfolding(crate::specs::UsersAlone::no_origins), using(crate::proofs::UsersAloneLaws::no_octets, crate::proofs::UsersAloneLaws::bare_origins))]
    fn object(&self, _home: u32, _calendar: &[u8], _name: &[u8]) -> Option<(&Arc<Stored>, u64)> {
        None
    }

    #[tactic(auto, using(crate::proofs::UsersAloneLaws::no_object, crate::proofs::UsersAloneLaws::bare_sound))]
    fn object_after(
        &self,
        _home: u32,
        _calendar: &[u8],
        _name: &[u8],
    ) -> Option<(&Arc<Stored>, u64)> {
        None
    }

    fn user_name(&self, who: u32) -> &[u8] {
        self.users.name(who)
    }

    fn find_user(&self, name: &[u8]) -> Option<u32> {
        self.users.find(name)
    }

    fn user_count(&self) -> u32 {
        self.users.len()
    }

    fn group_count(&self) -> u32 {
        self.users.groups()
    }

    fn find_group(&self, name: &[u8]) -> Option<u32> {
        self.users.find_group(name)
    }

    fn group_name(&self, group: u32) -> &[u8] {
        self.users.group_name(group)
    }

    fn is_member(&self, group: u32, who: u32) -> bool {
        self.users.is_member(group, who)
    }
}
