//! The users: one for each session.
ghost use Rattle.std.specs.Prelude.{◌≡◌, ◌≤◌, ◌<◌, length, Some, IfOk, IsTrue};
ghost use Rattle.cal_model.specs.Load.LoadRequests.{load_user};
ghost use Rattle.cal_model.specs.Load.LoadSummary as spec;
ghost use Rattle.cal_model.specs.State.ServerState.{directory_of, user_name, user_number};
ghost use Rattle.load_requests.specs.NumberedUsers.{AreNumbered};

use crate::texts::user_name;
use cal_base::{Arc, NoMemory, Octets};
use privileges::{Users, read_users};
use std::alloc::Global;

/// The SHA-256 of the password `abc`.
const DIGEST: &str = "ba7816bf8f01cfea414140de5dae2223b00361a396177a9cb410ff61f20015ad";

/// The users u00, u01 and so on, one for each session, with the password `abc`.
///
/// (Also where they are not read as those users there is no memory, which does not come.)
pub fn load_users(alloc: Global, sessions: u32) -> Result<Arc<Users>, NoMemory>
    requires { sessions ≤ 32 }
    ensures named { IfOk result (λ users. directory_of users ≡ spec.load_users sessions) }
    ensures found { IfOk result (λ users. AreNumbered users sessions) }
{
    let file = users_file(alloc, sessions)?;
    match read_users(alloc, file.as_slice()) {
        Ok(users) if are_named(&users, sessions) => Arc::new(alloc, users),
        _ => Err(NoMemory),
    }
}

/// The users file that names them.
fn users_file(alloc: Global, sessions: u32) -> Result<Octets, NoMemory> {
    let mut file = Octets::new(alloc);
    'lines: for session in 0..sessions {
        let line = format!(in alloc; "user u{session:02} {DIGEST}\n")?;
        file.extend_from_slice(line.as_bytes())?;
    }
    Ok(file)
}

/// Whether these are those users, and there is no group.
fn are_named(users: &Users, sessions: u32) -> bool
    requires { sessions ≤ 32 }
    ensures named { IsTrue result → directory_of users.now ≡ spec.load_users sessions }
    ensures found { IsTrue result → AreNumbered users.now sessions }
{
    if users.len() != sessions || users.groups() != 0 {
        return false;
    }
    'names: for session in 0..sessions {
        if !is_named(users, session) {
            return false;
        }
    }
    true
}

/// Whether the user of a number is that of the session.
fn is_named(users: &Users, session: u32) -> bool
    requires there { session < length users.now.people }
    requires session { session < 100 }
    ensures name { IsTrue result → user_name (directory_of users.now) session ≡ load_user session }
    ensures number { IsTrue result → user_number (directory_of users.now) (load_user session) ≡ Some session }
{
    let name = user_name(session);
    users.name(session) == name.as_slice() && users.find(&name) == Some(session)
}
