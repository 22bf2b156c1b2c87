//! What a user is told of the times at which calendars are free.
ghost use Rattle.std.specs.Prelude.{◌≡◌, ◌≤◌, ◌<◌, ◌*◌, All, IfOk, Some, length};
ghost use Rattle.cal_model.specs.State.ServerState.{user_number};
ghost use Rattle.slot_times.specs.SlotAnswers as spec;
ghost use Rattle.slot_times.specs.SlotCalendars.{IsServedRange, IsThere, times_of};
ghost use Rattle.slot_times.specs.SlotTimes.{SlotsAreAlike, times_text};

use crate::slot_calendars::{CalendarPlace, Unseen, calendars_of, times_of_calendars};
use crate::slot_text::text_of_times;
use cal_base::{NoMemory, Octets, Word};
use cal_model::{Range, Seen};
use object_walk::Walks;
use std::alloc::Global;

/// What is asked about the free times of calendars.
#[derive(Drop)]
pub struct Question<'a> {
    /// The name of the user who looks.
    pub user: &'a str,
    /// The range in which a free time lies.
    pub range: Range,
    /// How many minutes a free time has at least.
    pub minutes: u32,
    /// How many free times are asked for.
    pub most: u32,
    /// The paths of the calendars.
    pub paths: &'a [Word],
}

/// The text that tells the first free times of the calendars that a question names: a line for each, or
/// `none`. Or the number of the word that is refused: 0 where no user has the name, and else that of the
/// first path, counted from 1, which names no calendar that the user may see as busy or free.
///
/// In all states that look alike to the user the answer is the same.
pub fn text_in_view<V: Walks>(
    alloc: Global,
    view: &V,
    question: &Question<'_>,
) -> Result<Octets, Unseen>
    requires some { 0 < question.now.minutes }
    requires few { question.now.minutes ≤ 100_000 }
    requires served { IsServedRange question.now.range }
    ensures answer { spec.IsSeenAs (V.directory view.now) (V.state view.now) (spec.asked_in question.now) result }
    ensures alike { SlotsAreAlike }
{
    slots_are_alike();
    let Some(who) = view.find_user(question.user.as_bytes()) else {
        return Err(Unseen::Word(0));
    };
    let seen = Seen { view, who };
    let text = text_seen(alloc, question, &seen);
    let Seen {
        view: _view,
        who: _who,
    } = seen;
    text
}

/// What is printed of what the user sees, or the path that is refused.
fn text_seen<V: Walks>(
    alloc: Global,
    question: &Question<'_>,
    seen: &Seen<'_, V>,
) -> Result<Octets, Unseen>
    requires some { 0 < question.now.minutes }
    requires few { question.now.minutes ≤ 100_000 }
    requires served { IsServedRange question.now.range }
    requires user { seen.now.who < length (V.directory seen.now.view.now).names }
    requires named { user_number (V.directory seen.now.view.now) question.now.user.now ≡ Some seen.now.who }
    ensures { spec.IsSeenAs (V.directory seen.now.view.now) (V.state seen.now.view.now) (spec.asked_in question.now) result }
{
    match calendars_of(alloc, seen, question.paths) {
        Ok(calendars) => told_times(alloc, question, seen, calendars.as_slice()),
        Err(unseen) => Err(unseen),
    }
}

/// No answer tells states apart that look alike to the user who asks.
pub fn slots_are_alike()
    ensures { SlotsAreAlike }
{}

/// The text of the free times of some calendars, no word about which is refused.
fn told_times<V: Walks>(
    alloc: Global,
    question: &Question<'_>,
    seen: &Seen<'_, V>,
    calendars: &[CalendarPlace],
) -> Result<Octets, Unseen>
    requires some { 0 < question.now.minutes }
    requires few { question.now.minutes ≤ 100_000 }
    requires served { IsServedRange question.now.range }
    requires there { All (IsThere (V.state seen.now.view.now)) calendars.now }
    ensures { spec.IsTextOf (times_of (V.state seen.now.view.now) calendars.now question.now.range (60 * question.now.minutes) question.now.most) result }
{
    match written_times(alloc, question, seen, calendars) {
        Ok(text) => Ok(text),
        Err(NoMemory) => Err(Unseen::NoMemory),
    }
}

/// The same, which fails for want of memory alone.
fn written_times<V: Walks>(
    alloc: Global,
    question: &Question<'_>,
    seen: &Seen<'_, V>,
    calendars: &[CalendarPlace],
) -> Result<Octets, NoMemory>
    requires some { 0 < question.now.minutes }
    requires few { question.now.minutes ≤ 100_000 }
    requires served { IsServedRange question.now.range }
    requires there { All (IsThere (V.state seen.now.view.now)) calendars.now }
    ensures { IfOk result (λ text. text ≡ times_text (times_of (V.state seen.now.view.now) calendars.now question.now.range (60 * question.now.minutes) question.now.most)) }
{
    let seconds = 60 * question.minutes;
    let times = times_of_calendars(
        alloc,
        seen,
        calendars,
        question.range,
        seconds,
        question.most,
    )?;
    text_of_times(alloc, times.as_slice())
}
