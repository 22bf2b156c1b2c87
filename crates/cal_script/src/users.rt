//! The users file.
ghost use Rattle.std.specs.Prelude.{◌≡◌, ◌≤◌, ℕ, IfOk, Some, IsErrOf, length};
ghost use Rattle.cal_base.specs.World.Outside.{Rose};
ghost use Rattle.cal_script.specs.UsersTaken.{AreUsersAt, AreUsersOf, IfTold, IsRefusedAt, file_limit};

use cal_base::{Arc, FileFault, Files};
use privileges::{Users, UsersFault, read_users};
use std::alloc::Global;

/// The most octets of a users file.
const FILE_LIMIT: u64 = 65_536;

/// Why a users file is not taken.
pub enum NoUsers {
    /// It is too long, which is said of the place behind its limit, or has a bad line at this place.
    Line(u64),
    /// Reading it failed.
    Files,
    /// There was no memory for it.
    NoMemory,
}

/// The users of the users file, of at most 65,536 octets.
pub fn take_users<F: Files>(alloc: Global, files: &mut F, path: &str) -> Result<Arc<Users>, NoUsers>
    ensures taken { IfOk result (AreUsersAt (Some path.now) (F.content files.old)) }
    ensures refused { (place : ℕ) → IsErrOf result (NoUsers.Line place) → IfTold (Some path.now) (F.content files.old) (λ octets. IsRefusedAt octets place) }
    ensures fault { IsErrOf result NoUsers.Files → Rose (F.faults files.old) (F.faults files.new) }
    ensures never_falls { F.faults files.old ≤ F.faults files.new }
{
    match files.read(alloc, path, FILE_LIMIT) {
        Ok(octets) => users_in(alloc, octets.as_slice()),
        Err(FileFault::Failed) => Err(NoUsers::Files),
        Err(FileFault::TooLong) => Err(NoUsers::Line(FILE_LIMIT)),
        Err(FileFault::NoMemory) => Err(NoUsers::NoMemory),
    }
}

/// The users of the octets of a file.
fn users_in(alloc: Global, octets: &[u8]) -> Result<Arc<Users>, NoUsers>
    requires { length octets.now ≤ file_limit }
    ensures taken { IfOk result (AreUsersOf octets.now) }
    ensures refused { (place : ℕ) → IsErrOf result (NoUsers.Line place) → IsRefusedAt octets.now place }
    ensures read { ¬ IsErrOf result NoUsers.Files }
{
    match read_users(alloc, octets) {
        Ok(users) => match Arc::new(alloc, users) {
            Ok(shared) => Ok(shared),
            Err(_) => Err(NoUsers::NoMemory),
        },
        Err(UsersFault::Line { place }) => Err(NoUsers::Line(place)),
        Err(UsersFault::NoMemory) => Err(NoUsers::NoMemory),
    }
}
