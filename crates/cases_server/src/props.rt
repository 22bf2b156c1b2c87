//! PROPFINDs, single properties and settings, in a store at its start.
ghost use Rattle.std.specs.Prelude.{◌≡◌, ◌<◌, false, [], length};
ghost use Rattle.cal_model.specs.Access.Privileges.{same_name};
ghost use Rattle.cal_model.specs.History.Origins.{AreLive};
ghost use Rattle.cal_model.specs.Serving.SeenResources.{calendar_data};
ghost use Rattle.collections.specs.Kept.{users_of, origins_of};
ghost use Rattle.cal_book.specs.Showing.ShownStates.{shown_directory};

use crate::props_texts::{name_of, props_of, sets_of};
use crate::texts::{parts, print_octets};
use crate::users::{TWO, shared_users};
use cal_base::{NoMemory, Octets};
use cal_book::BookView;
use cal_model::{Path, PropAnswers, PropName, PropSet, Props, Reply, Seen};
use collections::Store;
use dav_props::{DavAnswers, PatchCheck, check_make, check_patch, find};
use dav_write::read_path;
use std::alloc::Global;
use std::io;

/// What a case gives.
#[derive(Drop)]
enum Answer {
    /// What became of it, a status, and the body of a reply or the element of a property.
    Told {
        word: &'static str,
        status: u16,
        text: Octets,
    },
    /// It is none of the cases.
    Unknown,
}

/// What a case gives in a store at its start.
fn answer_to(alloc: Global, case: &[u8]) -> Result<Answer, NoMemory> {
    let store = Store::new(alloc, shared_users(alloc, TWO)?)?;
    answer_in(alloc, &store, case)
}

/// What a case gives in a store, by its form.
fn answer_in(alloc: Global, store: &Store, case: &[u8]) -> Result<Answer, NoMemory>
    requires no_objects { AreLive [] (origins_of store.now) }
{
    let (form, words) = parts(case, b' ');
    if form == b"find".as_slice() {
        let (who, words) = parts(words, b' ');
        let (depth, words) = parts(words, b' ');
        let (path, words) = parts(words, b' ');
        shown(alloc, store, who, path, Some(depth), words)
    } else if form == b"ask".as_slice() {
        let (who, words) = parts(words, b' ');
        let (path, words) = parts(words, b' ');
        shown(alloc, store, who, path, None, words)
    } else {
        settled(alloc, store, form, words)
    }
}

/// What a user is shown at a path: the reply to a PROPFIND of a depth, or one property where there is no depth.
fn shown(
    alloc: Global,
    store: &Store,
    who: &[u8],
    path: &[u8],
    depth: Option<&[u8]>,
    words: &[u8],
) -> Result<Answer, NoMemory>
    requires no_objects { AreLive [] (origins_of store.now) }
{
    let Some(who) = store.users().find(who) else {
        return Ok(Answer::Unknown);
    };
    let Some(path) = read_path(alloc, path)? else {
        return Ok(Answer::Unknown);
    };
    match depth {
        Some(depth) => found(alloc, store, who, &path, depth, words),
        None => asked(alloc, store, who, &path, words),
    }
}

/// What becomes of settings, in a new calendar or in alice's.
fn settled(alloc: Global, store: &Store, form: &[u8], words: &[u8]) -> Result<Answer, NoMemory> {
    let sets = sets_of(alloc, words)?;
    if form == b"make".as_slice() {
        checked(check_make(alloc, sets.as_slice()))
    } else if form == b"patch".as_slice() {
        patched(alloc, store, sets.as_slice())
    } else {
        Ok(Answer::Unknown)
    }
}

/// What a reply says.
fn told(word: &'static str, reply: Reply) -> Answer {
    Answer::Told {
        word,
        status: reply.status,
        text: reply.body,
    }
}

/// What became of settings.
fn checked(check: PatchCheck) -> Result<Answer, NoMemory> {
    match check {
        PatchCheck::Fine(reply) => Ok(told("fine", reply)),
        PatchCheck::Refused(reply) => Ok(told("refused", reply)),
        PatchCheck::NoMemory => Err(NoMemory),
    }
}

/// Settings of alice's calendar.
fn patched(alloc: Global, store: &Store, sets: &[PropSet]) -> Result<Answer, NoMemory> {
    let home = Octets::of(alloc, b"alice")?;
    let calendar = Octets::of(alloc, b"calendar")?;
    let path = Path::Calendar(home, calendar);
    match store.calendar(0, b"calendar") {
        Some(data) => checked(check_patch(alloc, &path, sets, data)),
        None => Ok(Answer::Unknown),
    }
}

/// A store at its start, as those look at it who answer requests.
#[tactic(auto, using(crate::proofs::OpeningOrigins::opening_apart))]
fn opening_view(store: &Store) -> BookView<'_>
    requires { AreLive [] (origins_of store.now) }
    ensures { shown_directory result ≡ users_of store.now }
{
    BookView::new(store)
}

/// A PROPFIND of a user.
fn found(
    alloc: Global,
    store: &Store,
    who: u32,
    path: &Path,
    depth: &[u8],
    words: &[u8],
) -> Result<Answer, NoMemory>
    requires no_objects { AreLive [] (origins_of store.now) }
    requires user { who < length store.now.users.people }
{
    let props = props_of(alloc, words)?;
    let deep = depth == b"1".as_slice();
    let view = opening_view(store);
    let seen = Seen { view: &view, who };
    let reply = find(alloc, &seen, path, &props, deep);
    let Seen {
        view: _view,
        who: _who,
    } = seen;
    match reply {
        Ok(reply) => Ok(told("found", reply)),
        Err(NoMemory) => Err(NoMemory),
    }
}

/// One property as a user sees it.
fn asked(
    alloc: Global,
    store: &Store,
    who: u32,
    path: &Path,
    word: &[u8],
) -> Result<Answer, NoMemory>
    requires no_objects { AreLive [] (origins_of store.now) }
    requires user { who < length store.now.users.people }
{
    let name = name_of(alloc, word)?;
    if is_calendar_data(&name) {
        Ok(Answer::Unknown)
    } else {
        answered(alloc, store, who, path, &name)
    }
}

/// The same of a name that is not of reports alone.
fn answered(
    alloc: Global,
    store: &Store,
    who: u32,
    path: &Path,
    name: &PropName,
) -> Result<Answer, NoMemory>
    requires no_objects { AreLive [] (origins_of store.now) }
    requires user { who < length store.now.users.people }
    requires not_data { same_name name.now calendar_data ≡ false }
{
    let view = opening_view(store);
    let seen = Seen { view: &view, who };
    let mut text = Octets::new(alloc);
    let status = DavAnswers.answer(alloc, &seen, path, name, &mut text);
    let Seen {
        view: _view,
        who: _who,
    } = seen;
    match status {
        Ok(status) => Ok(Answer::Told {
            word: "answered",
            status,
            text,
        }),
        Err(NoMemory) => Err(NoMemory),
    }
}

/// Whether a name is that of the property which reports alone have.
fn is_calendar_data(name: &PropName) -> bool
    ensures { result ≡ same_name name.now calendar_data }
{
    name.space.as_slice() == b"urn:ietf:params:xml:ns:caldav".as_slice()
        && name.name.as_slice() == b"calendar-data".as_slice()
}

/// Prints what a case gives.
fn print_answer(rt: &HostRuntime, answer: &Answer) -> io::Result<()> {
    match answer {
        Answer::Told { word, status, text } => {
            println!(rt; "{word} {status}")?;
            print_octets(rt, text.as_slice())
        }
        Answer::Unknown => println!(rt; "no case"),
    }
}

/// Prints a case and what it gives.
fn print_case(rt: &HostRuntime, case: &[u8]) -> io::Result<()> {
    print_octets(rt, case)?;
    match answer_to(rt.alloc(), case) {
        Ok(answer) => print_answer(rt, &answer),
        Err(NoMemory) => println!(rt; "out of memory"),
    }
}

/// Prints for each case, one a line, the line, then what became of it and a status, then the body of
/// the reply or the element of the property.
pub fn print_props(rt: &HostRuntime, cases: &[u8]) -> io::Result<()> {
    for case in cases.split(|octet| *octet == b'\n') {
        if !case.is_empty() {
            print_case(rt, case)?;
        }
    }
    Ok(())
}
