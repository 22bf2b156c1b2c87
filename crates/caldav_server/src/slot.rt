//! The command `slot`.
ghost use Rattle.std.specs.Prelude.{◌≡◌, ◌≤◌, ◌<◌, ◌⊎◌, [], Some, None, IfSome};
ghost use Rattle.cal_base.specs.World.Outside.{Adds, Rose};
ghost use Rattle.cal_model.specs.Users.UsersFile.{Users};
ghost use Rattle.cal_keeper.specs.Disks.CrashModel.{reading};
ghost use Rattle.cal_book.specs.Cores.{directory_in, state_in};
ghost use Rattle.cal_script.specs.UsersTaken.{AreUsersAt, IsRefusedAt};
ghost use Rattle.command_words.specs.SlotSaid.{IsWithin};
ghost use Rattle.command_words.specs.SlotWords.{TakesSlot, users_path};
ghost use Rattle.caldav_server.specs.SlotEnds as spec;
ghost use Rattle.slot_times.specs.SlotAnswers.{IsSeenAs};
ghost use Rattle.slot_times.specs.SlotTimes.{SlotsAreAlike};

use crate::serve::without_place;
use cal_base::{Arc, Files, List, Octets, Sink, Word, write_all};
use cal_book::Book;
use cal_keeper::Disk;
use cal_script::{NoUsers, ScriptEnd, take_users};
use cal_session::{Loaded, load_kept};
use command_words::{SlotWords, Untaken, read_slot};
use privileges::Users;
use slot_times::{Question, Unseen, slots_are_alike, text_in_view};
use std::alloc::Global;

/// Runs the command: looks at its words, then at the users file, then loads the journal, whose file has to
/// have an octet, and then looks at the user and the calendars that the words name. It prints the times at
/// which these are all free. Nothing is written to the file. The disk is given back in any case.
///
/// Status 8 comes where a call of the disk failed. At status 9 the file is empty, which is told at 0, or it
/// stands for no legal history of these users. At status 10 the place is the number of the first word that
/// is refused: 0 for the user, and 1 for the first path. Where the disk tells its past, the file stands for
/// the journal in whose state the calendars are looked at.
pub(crate) fn run_slot<F: Files, D: Disk, O: Sink>(
    alloc: Global,
    words: &List<Word>,
    files: &mut F,
    disk: D,
    output: &mut O,
) -> (ScriptEnd, D)
    ensures known { spec.IsSlotStatus result.0.status }

    // The words, and then the users file.
    ensures words_refused { result.0.status ≡ 2 → ¬ TakesSlot words.now }
    ensures words_taken { (result.0.status ≡ 2) ⊎ (result.0.status ≡ 7) ⊎ TakesSlot words.now }
    ensures words_first { result.0.status ≡ 2 → (files.new ≡ files.old) × (result.1 ≡ disk) }
    ensures users_refused { result.0.status ≡ 3 → IfSome (F.content files.old (users_path words.now)) (λ octets. IsRefusedAt octets result.0.place) }
    ensures users_first { (result.0.status ≡ 3) ⊎ (result.0.status ≡ 4) → result.1 ≡ disk }
    ensures users_fault { result.0.status ≡ 4 → Rose (F.faults files.old) (F.faults files.new) }

    // The journal.
    ensures journal_fault { result.0.status ≡ 8 → Rose (D.faults disk) (D.faults result.1) × (users : Users) × AreUsersAt (Some (users_path words.now)) (F.content files.old) users }
    ensures journal_refused { result.0.status ≡ 9 → (users : Users) × AreUsersAt (Some (users_path words.now)) (F.content files.old) users × spec.IsNotTaken D.past D.faults users disk result.1 result.0.place }
    ensures only_read { (result.0.status ≡ 8) ⊎ spec.IsOnlyRead (D.past disk) (D.past result.1) }

    // The user, the calendars, and what is printed.
    ensures word_refused { result.0.status ≡ 10 → spec.Looked words.now (F.content files.old) (D.past disk) (Some result.0.place) (λ _. output.new ≡ output.old) }
    ensures done { result.0.status ≡ 0 → spec.Looked words.now (F.content files.old) (D.past disk) None (λ text. Adds (O.written output.old) text (O.written output.new)) }
    ensures in_part { result.0.status ≡ 5 → spec.Looked words.now (F.content files.old) (D.past disk) None (spec.WroteFront (O.written output.old) (O.written output.new)) }
    ensures output_fault { result.0.status ≡ 5 → Rose (O.faults output.old) (O.faults output.new) }
    ensures quiet { (result.0.status ≡ 0) ⊎ (result.0.status ≡ 5) ⊎ (output.new ≡ output.old) }
    ensures placed { (result.0.status ≡ 3) ⊎ (result.0.status ≡ 9) ⊎ (result.0.status ≡ 10) ⊎ (result.0.place ≡ 0) }

    // No user learns more than the states show in which the same is seen.
    ensures alike { SlotsAreAlike }

    // No count falls.
    ensures files_never_fall { F.faults files.old ≤ F.faults files.new }
    ensures disk_never_falls { D.faults disk ≤ D.faults result.1 }
    ensures output_never_falls { O.faults output.old ≤ O.faults output.new }
{
    slots_are_alike();
    match read_slot(alloc, words.as_slice()) {
        Ok(said) => slot_of_files(alloc, &said, files, disk, output),
        Err(Untaken::Words) => (without_place(2), disk),
        Err(Untaken::NoMemory) => (without_place(7), disk),
    }
}

/// Looks at the users file, and then at the journal.
fn slot_of_files<F: Files, D: Disk, O: Sink>(
    alloc: Global,
    said: &SlotWords<'_>,
    files: &mut F,
    disk: D,
    output: &mut O,
) -> (ScriptEnd, D)
    requires { IsWithin said.now }
    ensures known { spec.IsSlotStatus result.0.status × ¬ (result.0.status ≡ 2) }
    ensures users_refused { result.0.status ≡ 3 → IfSome (F.content files.old said.now.users.now) (λ octets. IsRefusedAt octets result.0.place) }
    ensures users_first { (result.0.status ≡ 3) ⊎ (result.0.status ≡ 4) → result.1 ≡ disk }
    ensures users_fault { result.0.status ≡ 4 → Rose (F.faults files.old) (F.faults files.new) }
    ensures behind { spec.IsBefore result.0.status ⊎ ((users : Users) × AreUsersAt (Some said.now.users.now) (F.content files.old) users × spec.IsEnd D.past D.faults users disk result.1 (spec.asked_in said.now) (O.written output.old) (O.written output.new) result.0) }
    ensures only_read { (result.0.status ≡ 8) ⊎ spec.IsOnlyRead (D.past disk) (D.past result.1) }
    ensures journal_fault { result.0.status ≡ 8 → Rose (D.faults disk) (D.faults result.1) }
    ensures output_fault { result.0.status ≡ 5 → Rose (O.faults output.old) (O.faults output.new) }
    ensures quiet { (result.0.status ≡ 0) ⊎ (result.0.status ≡ 5) ⊎ (output.new ≡ output.old) }
    ensures placed { (result.0.status ≡ 3) ⊎ (result.0.status ≡ 9) ⊎ (result.0.status ≡ 10) ⊎ (result.0.place ≡ 0) }
    ensures files_never_fall { F.faults files.old ≤ F.faults files.new }
    ensures disk_never_falls { D.faults disk ≤ D.faults result.1 }
    ensures output_never_falls { O.faults output.old ≤ O.faults output.new }
{
    match take_users(alloc, files, said.users) {
        Ok(users) => slot_of_journal(alloc, said, users, disk, output),
        Err(NoUsers::Line(place)) => (ScriptEnd { status: 3, place }, disk),
        Err(NoUsers::Files) => (without_place(4), disk),
        Err(NoUsers::NoMemory) => (without_place(7), disk),
    }
}

/// Loads the journal, unless its file is empty: a file is not made for a look. Then looks at the words.
fn slot_of_journal<D: Disk, O: Sink>(
    alloc: Global,
    said: &SlotWords<'_>,
    users: Arc<Users>,
    disk: D,
    output: &mut O,
) -> (ScriptEnd, D)
    requires { IsWithin said.now }
    ensures end { spec.IsEnd D.past D.faults users disk result.1 (spec.asked_in said.now) (O.written output.old) (O.written output.new) result.0 }
    ensures only_read { (result.0.status ≡ 8) ⊎ spec.IsOnlyRead (D.past disk) (D.past result.1) }
    ensures journal_fault { result.0.status ≡ 8 → Rose (D.faults disk) (D.faults result.1) }
    ensures output_fault { result.0.status ≡ 5 → Rose (O.faults output.old) (O.faults output.new) }
    ensures quiet { (result.0.status ≡ 0) ⊎ (result.0.status ≡ 5) ⊎ (output.new ≡ output.old) }
    ensures disk_never_falls { D.faults disk ≤ D.faults result.1 }
    ensures output_never_falls { O.faults output.old ≤ O.faults output.new }
{
    let mut disk = disk;
    let Ok(size) = disk.len() else {
        return (without_place(8), disk);
    };
    if size == 0 {
        return (without_place(9), disk);
    }
    slot_of_octets(alloc, said, users, disk, output)
}

/// Loads the journal of a file that is not empty, and looks at the words in its book.
fn slot_of_octets<D: Disk, O: Sink>(
    alloc: Global,
    said: &SlotWords<'_>,
    users: Arc<Users>,
    disk: D,
    output: &mut O,
) -> (ScriptEnd, D)
    requires within { IsWithin said.now }
    requires some { IfSome (D.past disk) (λ p. ¬ (reading p ≡ [])) }
    ensures end { spec.IsEnd D.past D.faults users disk result.1 (spec.asked_in said.now) (O.written output.old) (O.written output.new) result.0 }
    ensures only_read { (result.0.status ≡ 8) ⊎ spec.IsOnlyRead (D.past disk) (D.past result.1) }
    ensures journal_fault { result.0.status ≡ 8 → Rose (D.faults disk) (D.faults result.1) }
    ensures output_fault { result.0.status ≡ 5 → Rose (O.faults output.old) (O.faults output.new) }
    ensures quiet { (result.0.status ≡ 0) ⊎ (result.0.status ≡ 5) ⊎ (output.new ≡ output.old) }
    ensures disk_never_falls { D.faults disk ≤ D.faults result.1 }
    ensures output_never_falls { O.faults output.old ≤ O.faults output.new }
{
    match load_kept(alloc, users, disk) {
        Loaded::Ready(kept) => {
            let end = slot_in_book(alloc, said, kept.book(), output);
            (end, kept.into_disk())
        }
        Loaded::Refused(disk, place) => (ScriptEnd { status: 9, place }, disk),
        Loaded::Mismatch(disk, place, _kept, _made) => (ScriptEnd { status: 9, place }, disk),
        Loaded::Failed(disk) => (without_place(8), disk),
        Loaded::NoMemory(disk) => (without_place(7), disk),
    }
}

/// Looks at the words in a book, and prints the free times.
fn slot_in_book<O: Sink>(
    alloc: Global,
    said: &SlotWords<'_>,
    book: &Book,
    output: &mut O,
) -> ScriptEnd
    requires { IsWithin said.now }
    ensures seen { spec.IsSeenEnd (directory_in book.now) (state_in book.now) (spec.asked_in said.now) (O.written output.old) (O.written output.new) result }
    ensures output_fault { result.status ≡ 5 → Rose (O.faults output.old) (O.faults output.new) }
    ensures quiet { (result.status ≡ 0) ⊎ (result.status ≡ 5) ⊎ (output.new ≡ output.old) }
    ensures never_falls { O.faults output.old ≤ O.faults output.new }
{
    match text_in_book(alloc, said, book) {
        Ok(text) => match write_all(output, text.as_slice()) {
            Ok(()) => without_place(0),
            Err(_) => without_place(5),
        },
        Err(Unseen::Word(place)) => ScriptEnd { status: 10, place },
        Err(Unseen::NoMemory) => without_place(7),
    }
}

/// What is printed in the state of a book, or the word that is refused.
fn text_in_book(alloc: Global, said: &SlotWords<'_>, book: &Book) -> Result<Octets, Unseen>
    requires { IsWithin said.now }
    ensures { IsSeenAs (directory_in book.now) (state_in book.now) (spec.asked_in said.now) result }
{
    let view = book.view();
    let question = Question {
        user: said.user,
        range: said.range,
        minutes: said.minutes,
        most: said.most,
        paths: said.paths.as_slice(),
    };
    text_in_view(alloc, &view, &question)
}
