//! The calendars that paths name, and the times at which they are all free, as a user sees them.
ghost use Rattle.std.specs.Prelude.{◌≡◌, ◌<◌, All, IfOk, Some, length};
ghost use Rattle.request_checks.specs.Sightings.{held_of};
ghost use Rattle.slot_finder.specs.FreeTimes.{AreInOrder};
ghost use Rattle.slot_times.specs.SlotCalendars as spec;

use cal_base::{List, NoMemory, Octets, Steps, Word};
use cal_model::privilege::READ_FREE_BUSY;
use cal_model::view::{Pieces, View};
use cal_model::{Path, Range, Row, Seen};
use dav_reports::calendar_runs;
use dav_write::read_path;
use freebusy::Run;
use object_walk::Walks;
use request_checks::{Look, Scene, scene_at};
use slot_finder::free_times;
use std::alloc::Global;
use std::marker::Brand;
use std::sync::ledger::{Blank, Ledger};

/// Why no free times are printed.
#[derive(Drop)]
pub enum Unseen {
    /// The word of this number is refused: 0 for the user, 1 for the first path.
    Word(u64),
    /// There was no memory.
    NoMemory,
}

/// A calendar: the number of its owner, and its name.
#[derive(Drop)]
pub(crate) struct CalendarPlace {
    pub(crate) home: u32,
    pub(crate) name: Octets,
}

/// No pieces: all rows are found anew.
struct NoPieces;

impl Pieces for NoPieces {
    ghost use Rattle.std.specs.Prelude.{None};

    ghost held = { λ _ _ _. None };

    fn rows(&self, _origin: u64, _window: i32) -> Option<&List<Row>> {
        None
    }
}

/// The calendars of some paths, or the number of the first path, counted from 1, that names no calendar
/// which the user may see as busy or free.
pub(crate) fn calendars_of<V: View>(
    alloc: Global,
    seen: &Seen<'_, V>,
    paths: &[Word],
) -> Result<List<CalendarPlace>, Unseen>
    requires { seen.now.who < length (V.directory seen.now.view.now).names }
    ensures { spec.AreCalendarsOf (V.directory seen.now.view.now) (V.state seen.now.view.now) seen.now.who paths.now result }
{
    let mut found = List::new(alloc);
    let mut rest = paths;
    'paths: while let Some((path, behind)) = rest.split_first() {
        let number = (paths.len() - behind.len()) as u64;
        match push_calendar(alloc, seen, path.as_str(), number, &mut found) {
            Ok(()) => rest = behind,
            Err(unseen) => return Err(unseen),
        }
    }
    Ok(found)
}

/// Puts the calendar of a path behind others, or tells the path's number where it has none.
fn push_calendar<V: View>(
    alloc: Global,
    seen: &Seen<'_, V>,
    path: &str,
    number: u64,
    found: &mut List<CalendarPlace>,
) -> Result<(), Unseen>
    requires { seen.now.who < length (V.directory seen.now.view.now).names }
    ensures { spec.IsPut (V.directory seen.now.view.now) (V.state seen.now.view.now) seen.now.who path.now number found.old found.new result }
{
    match calendar_of(alloc, seen, path) {
        Ok(Some(place)) => match found.push(place) {
            Ok(()) => Ok(()),
            Err(NoMemory) => Err(Unseen::NoMemory),
        },
        Ok(None) => Err(Unseen::Word(number)),
        Err(NoMemory) => Err(Unseen::NoMemory),
    }
}

/// The calendar that a path names, where the user may see it as busy or free.
fn calendar_of<V: View>(
    alloc: Global,
    seen: &Seen<'_, V>,
    text: &str,
) -> Result<Option<CalendarPlace>, NoMemory>
    requires { seen.now.who < length (V.directory seen.now.view.now).names }
    ensures { IfOk result (λ place. spec.IsCalendarOf (V.directory seen.now.view.now) (V.state seen.now.view.now) seen.now.who text.now place) }
{
    match read_path(alloc, text.as_bytes()) {
        Ok(Some(path)) => Ok(place_of(seen, path)),
        Ok(None) => Ok(None),
        Err(NoMemory) => Err(NoMemory),
    }
}

/// The calendar at a path, where it is one and the user may see it as busy or free.
fn place_of<V: View>(seen: &Seen<'_, V>, path: Path) -> Option<CalendarPlace>
    requires { seen.now.who < length (V.directory seen.now.view.now).names }
    ensures { spec.IsSeenAt (V.directory seen.now.view.now) (V.state seen.now.view.now) seen.now.who path result }
{
    match owner_of(seen, &path) {
        Some(home) => named_in(home, path),
        None => None,
    }
}

/// The owner of the calendar at a path, where the user may see it as busy or free. The path may be gone
/// before what is seen.
fn owner_of<V: View>(seen: &Seen<'_, V>, path: &Path) -> Option<u32>
    requires { seen.now.who < length (V.directory seen.now.view.now).names }
    ensures { spec.IsSeenAt (V.directory seen.now.view.now) (V.state seen.now.view.now) seen.now.who path.now (spec.place_with path.now result) }
{
    let near = Seen {
        view: seen.view,
        who: seen.who,
    };
    let owner = owner_at(&near, path);
    let Seen {
        view: _view,
        who: _who,
    } = near;
    owner
}

/// The same of a path that lives as long.
fn owner_at<'a, V: View>(seen: &Seen<'a, V>, path: &'a Path) -> Option<u32>
    requires { seen.now.who < length (V.directory seen.now.view.now).names }
    ensures { spec.IsSeenAt (V.directory seen.now.view.now) (V.state seen.now.view.now) seen.now.who path.now (spec.place_with path.now result) }
{
    let scene = scene_at(seen, path, Look::Own);
    owner_in(&scene)
}

/// The calendar of a path in the home of its owner.
fn named_in(home: u32, path: Path) -> Option<CalendarPlace>
    ensures { result ≡ spec.place_with path (Some home) }
{
    match path {
        Path::Calendar(_user, name) => Some(CalendarPlace { home, name }),
        _ => None,
    }
}

/// The owner of what a scene is about, where the user may see its calendar as busy or free.
fn owner_in(scene: &Scene<'_>) -> Option<u32>
    ensures { result ≡ spec.owner_by (held_of scene.now.calendar) scene.now.user }
{
    match scene.calendar {
        Some((held, _)) => owner_by(held, scene.user),
        None => None,
    }
}

/// The owner of a calendar, where whoever holds these privileges may see it as busy or free.
fn owner_by(held: u16, user: Option<u32>) -> Option<u32>
    ensures { result ≡ spec.owner_by (Some held) user }
{
    if held & READ_FREE_BUSY == READ_FREE_BUSY {
        user
    } else {
        None
    }
}

/// The first free times of a range, in which so many seconds are free in all of some calendars.
pub(crate) fn times_of_calendars<V: Walks>(
    alloc: Global,
    seen: &Seen<'_, V>,
    calendars: &[CalendarPlace],
    range: Range,
    seconds: u32,
    most: u32,
) -> Result<List<Range>, NoMemory>
    requires some { 0 < seconds }
    requires served { spec.IsServedRange range }
    requires there { All (spec.IsThere (V.state seen.now.view.now)) calendars.now }
    ensures { IfOk result (λ times. times ≡ spec.times_of (V.state seen.now.view.now) calendars.now range seconds most) }
{
    match runs_under::<V, Brand>(alloc, seen, calendars, range, Blank::new(1)) {
        Ok(runs) => free_times(alloc, &runs, range, seconds, most),
        Err(NoMemory) => Err(NoMemory),
    }
}

/// The runs of each calendar. The steps of expansion are not counted here.
fn runs_under<V: Walks, L: Ledger>(
    alloc: Global,
    seen: &Seen<'_, V>,
    calendars: &[CalendarPlace],
    range: Range,
    blank: Blank,
) -> Result<List<List<Run>>, NoMemory>
    requires name { blank.name ≡ L.name }
    requires parts { blank.parts ≡ L.parts }
    requires some { 0 < blank.parts }
    requires there { All (spec.IsThere (V.state seen.now.view.now)) calendars.now }
    ensures runs { IfOk result (spec.AreRunsOf (V.state seen.now.view.now) range calendars.now) }
    ensures order { IfOk result (All AreInOrder) }
{
    let mut steps = Steps::<L>::open(blank);
    let mut runs = List::new(alloc);
    let mut rest = calendars;
    'calendars: while let Some((place, behind)) = rest.split_first() {
        let name = place.name.as_slice();
        let found = calendar_runs(
            alloc,
            seen,
            (place.home, name),
            &NoPieces,
            range,
            &mut steps,
        )?;
        runs.push(found)?;
        rest = behind;
    }
    Ok(runs)
}
