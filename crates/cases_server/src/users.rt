//! The users of the cases, each with the password `abc`.
ghost use Rattle.std.specs.Prelude.{◌≡◌, IfOk};

use cal_base::{Arc, NoMemory};
use cal_book::Book;
use privileges::{Users, read_users};
use std::alloc::Global;

/// The user alice.
pub const ALICE: &[u8] =
    b"user alice ba7816bf8f01cfea414140de5dae2223b00361a396177a9cb410ff61f20015ad\n";

/// The users alice and bob.
pub const TWO: &[u8] =
    b"user alice ba7816bf8f01cfea414140de5dae2223b00361a396177a9cb410ff61f20015ad\n\
    user bob ba7816bf8f01cfea414140de5dae2223b00361a396177a9cb410ff61f20015ad\n";

/// The users alice, bob and carol.
pub const THREE: &[u8] =
    b"user alice ba7816bf8f01cfea414140de5dae2223b00361a396177a9cb410ff61f20015ad\n\
    user bob ba7816bf8f01cfea414140de5dae2223b00361a396177a9cb410ff61f20015ad\n\
    user carol ba7816bf8f01cfea414140de5dae2223b00361a396177a9cb410ff61f20015ad\n";

/// The users of a file, shared.
pub fn shared_users(alloc: Global, file: &[u8]) -> Result<Arc<Users>, NoMemory> {
    match read_users(alloc, file) {
        Ok(users) => Arc::new(alloc, users),
        Err(_) => Err(NoMemory),
    }
}

/// The users of a file, and a book of them at its start.
pub fn book_of(alloc: Global, file: &[u8]) -> Result<(Arc<Users>, Book), NoMemory>
    ensures { IfOk result (λ made. made.1.users ≡ made.0) }
{
    let users = shared_users(alloc, file)?;
    let book = Book::start(alloc, Arc::try_clone(&users)?)?;
    Ok((users, book))
}
