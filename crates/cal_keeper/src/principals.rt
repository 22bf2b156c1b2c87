//! How many users and groups a journal file is of.
ghost use Rattle.std.specs.Prelude.{◌≡◌, ◌<◌, ◌^◌, length};
ghost use Rattle.cal_keeper.specs.Files.Headers.{users_text};
ghost use Rattle.cal_keeper.specs.Principals.{counts_of, AreFew};

use privileges::Users;

/// How many users and groups a journal file is of, which is all that numbers in its records are held
/// against.
#[derive(Clone, Copy)]
pub(crate) struct PrincipalCounts {
    pub(crate) users: u32,
    pub(crate) groups: u32,
}

/// How many users and groups there are. (That their text is short holds of all users of a file.)
pub(crate) fn counts_of(users: &Users) -> PrincipalCounts
    ensures counts { result ≡ counts_of users.now }
    ensures few { AreFew result }
    ensures short { length (users_text users.now) < 2 ^ 32 }
{
    PrincipalCounts {
        users: users.len(),
        groups: users.groups(),
    }
}
