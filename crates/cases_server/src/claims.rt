//! A script that is run at a book, which is asked then which entries it has and what it would have
//! expanded next. So it shows that an entry has the number of the connection, the user and the moment of
//! its request; which pieces the script's workers published; and that the others are open again, those
//! too that a worker still held.
ghost use Rattle.std.specs.Prelude.{◌≡◌};

use crate::desks::{End, framed, next_claim, source_of};
use crate::users::{TWO, book_of};
use cal_base::{List, MemorySink, MemorySource, NoMemory};
use cal_book::Book;
use privileges::Users;
use std::io;

/// Prints the entries of a book.
pub fn print_entries(rt: &HostRuntime, book: &Book) -> io::Result<()> {
    for number in 0..book.entries() {
        if let Some(entry) = book.entry(number) {
            println!(rt;
                "entry {number}: session {}, user {}, moment {}, status {}",
                entry.session, entry.who, entry.moment, entry.status
            )?;
        }
    }
    Ok(())
}

/// Prints the next claim of a book.
fn print_claim(rt: &HostRuntime, book: &mut Book) -> io::Result<()> {
    match next_claim(book) {
        Some((origin, window)) => println!(rt; "object {origin}, window {window}"),
        None => println!(rt; "no claim"),
    }
}

/// Runs the script at the book.
fn run(rt: &HostRuntime, users: &Users, book: &mut Book, input: &mut MemorySource) -> io::Result<()>
    requires { book.old.users ≡ users.now }
{
    let mut output = MemorySink::new(rt.alloc(), List::new(rt.alloc()));
    match framed(rt.alloc(), book, users, input, &mut output) {
        End::Done(place) => println!(rt; "done {place}"),
        _ => println!(rt; "cut short"),
    }
}

/// Prints how the run ends, the entries of the book behind it, and its next two claims.
fn print_run(
    rt: &HostRuntime,
    users: &Users,
    book: &mut Book,
    input: &mut MemorySource,
) -> io::Result<()>
    requires { book.old.users ≡ users.now }
{
    run(rt, users, book, input)?;
    print_entries(rt, book)?;
    print_claim(rt, book)?;
    print_claim(rt, book)
}

/// The same of the frames of a script, with the requests of the users alice and bob.
pub fn print_claims(rt: &HostRuntime, frames: &[u8]) -> io::Result<()> {
    let Ok(mut input) = source_of(rt.alloc(), frames) else {
        return println!(rt; "out of memory");
    };
    match book_of(rt.alloc(), TWO) {
        Ok((users, mut book)) => print_run(rt, &users, &mut book, &mut input),
        Err(NoMemory) => println!(rt; "no book"),
    }
}
