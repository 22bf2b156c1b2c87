//! A change that is asked of a book again.
ghost use Rattle.std.specs.Prelude.{◌≡◌, ◌≤ℤ◌, pos, slice_get, Some};
ghost use Rattle.cal_model.specs.Requests.BookableRequests.{IsBookable};
ghost use Rattle.cal_model.specs.State.Changes.{Change, change_of};
ghost use Rattle.cal_book.specs.Cores.{directory_in};
ghost use Rattle.journal_migration.specs.Carrying.{remade_by, IsRemade};

use cal_base::Steps;
use cal_book::Book;
use cal_model::Event;
use std::alloc::Global;
use std::sync::ledger::Ledger;

/// What became of a change that was asked for again.
#[derive(Drop)]
pub(crate) enum Remade {
    /// It was accepted with the status that is kept.
    Same,
    /// It was accepted with this other status; 0 where it was not accepted.
    Other(u16),
    /// There was no memory, and nothing is changed.
    NoMemory,
}

/// Asks a book for a change that is kept with a status.
pub(crate) fn ask_again<G: Ledger>(
    alloc: Global,
    event: &Event,
    status: u16,
    book: &mut Book,
    steps: &mut Steps<G>,
) -> Remade
    requires bookable { IsBookable book.old.users event.now.who event.now.request }
    requires from_1970 { pos 0 ≤ℤ event.now.moment }
    requires to_9999 { event.now.moment ≤ℤ pos 253_402_300_799 }
    requires asks { (change : Change) × (change_of (directory_in book.old) event.now.request ≡ Some change) }
    ensures users { book.new.users ≡ book.old.users }
    ensures remade { IsRemade book.old event.now status book.new result }
{
    let before = book.entries();
    let reply = book.request(alloc, event, &mut None, steps);
    let busy = reply.status == 503;
    drop(reply);
    if busy {
        Remade::NoMemory
    } else {
        remade_at(book, before, status)
    }
}

/// Whether the entry of a number is there, and has a status.
fn remade_at(book: &Book, number: u64, status: u16) -> Remade
    ensures { result ≡ remade_by (slice_get book.now.work.journal number) status }
{
    match book.entry(number) {
        None => Remade::Other(0),
        Some(entry) => {
            if entry.status == status {
                Remade::Same
            } else {
                Remade::Other(entry.status)
            }
        }
    }
}
