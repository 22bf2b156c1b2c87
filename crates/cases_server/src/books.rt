//! Walks through books, so that what a script does not show can be compared: which piece is claimed,
//! what becomes of it, and how many entries there are.
ghost use Rattle.std.specs.Prelude.{◌≡◌, ◌<◌};
ghost use Rattle.cases_server.specs.Slots.{IsSlotIn};

use crate::slot::{Slot, drop_slot};
use crate::texts::parts;
use crate::users::{THREE, book_of};
use crate::walk::take_step;
use cal_base::{NoMemory, Steps};
use cal_book::Book;
use http_wire::Wire;
use privileges::Users;
use std::alloc::Global;
use std::io;
use std::marker::Brand;
use std::sync::ledger::{Blank, Ledger};

/// Takes the steps one after the other.
fn take_steps<L: Ledger>(
    rt: &HostRuntime,
    users: &Users,
    book: &mut Book,
    wire: &mut Wire,
    slot: &mut Slot,
    letters: &[u8],
    blank: Blank,
) -> io::Result<()>
    requires users { book.old.users ≡ users.now }
    requires slot { IsSlotIn book.old.work.journal slot.old }
    requires name { L.name ≡ blank.name }
    requires parts { L.parts ≡ blank.parts }
    requires some { 0 < blank.parts }
{
    let mut steps = Steps::<L>::open(blank);
    'walking: for letter in letters {
        take_step(rt, users, book, wire, slot, *letter, &mut steps)?;
    }
    Ok(())
}

/// The wire of a stream of these octets.
fn wire(alloc: Global, octets: &[u8]) -> Result<Wire, NoMemory> {
    let mut wire = Wire::new(alloc);
    wire.feed(alloc, octets)?;
    Ok(wire)
}

/// Prints what comes of the steps of a walk at a book, whose requests come in these octets.
fn print_steps(
    rt: &HostRuntime,
    users: &Users,
    book: &mut Book,
    letters: &[u8],
    octets: &[u8],
) -> io::Result<()>
    requires users { book.old.users ≡ users.now }
{
    match wire(rt.alloc(), octets) {
        Ok(mut wire) => {
            let mut slot = Slot::Empty;
            let blank = Blank::new(1);
            let taken = take_steps::<Brand>(rt, users, book, &mut wire, &mut slot, letters, blank);
            drop_slot(slot);
            taken
        }
        Err(NoMemory) => println!(rt; "out of memory"),
    }
}

/// Prints what a case gives, a line of steps and the octets of a connection behind it: a line for what came of
/// each step, with the body of a reply behind it.
pub fn print_book(rt: &HostRuntime, text: &[u8]) -> io::Result<()> {
    let (letters, octets) = parts(text, b'\n');
    match book_of(rt.alloc(), THREE) {
        Ok((users, mut book)) => print_steps(rt, &users, &mut book, letters, octets),
        Err(NoMemory) => println!(rt; "out of memory"),
    }
}
