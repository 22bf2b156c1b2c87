//! What holds of events, of journals, and of what users see of a state.
ghost use Rattle.std.specs.Prelude.{◌++◌, List};
ghost use Rattle.cal_model.specs.History.HistoryLaws.{AcceptedIsReplayed, AcceptedKeepsLegal, BeginningsAreLegal, PiecesStayRight, OriginsFollow};
ghost use Rattle.cal_model.specs.History.Journal.{Entry};
ghost use Rattle.cal_model.specs.Serving.ServingLaws.{AcceptedHasItsEffect, StatesStaySound, NoReplyWantsMemory, ShownRunsAreTheCalendars};
ghost use Rattle.cal_model.specs.Sight.SightLaws.{RepliesAreAlike, ReadingChangesNothing, HiddenIsAbsent, ViewsDecide};
ghost use Rattle.cal_book.specs.Answering.HeldReadings.{HeldReadingsAreFree};
ghost use Rattle.cal_book.specs.EventSteps.{JournalsFollow, ReadingsEnterNothing};
ghost use Rattle.cal_book.specs.LegalJournals.{LegalIsTold};
ghost use Rattle.cal_book.specs.Publishing.{IsClaimIn};
ghost use Rattle.cal_book.specs.ReplyReasons.{RepliesHaveReasons};
ghost use Rattle.cal_book.specs.Completeness.{ReportsAreAnswered, ReadingsAreAnswered, ChangesAreMade};
ghost use Rattle.cal_book.specs.declared.claims.Claim.{Claim};

/// The journal after an event is legal, and leads to the state after the event.
pub fn journals_follow()
    ensures { JournalsFollow }
{}

/// A request that only reads enters nothing in any journal.
pub fn readings_enter_nothing()
    ensures { ReadingsEnterNothing }
{}

/// A claim stays one of the journal's objects, whatever is entered behind it.
pub fn claims_stay()
    ensures { (journal more : List Entry) (claim : Claim) → IsClaimIn journal claim → IsClaimIn (journal ++ more) claim }
{}

/// The test of legal journals, by which the lock knows them, tells them.
pub fn journals_are_told()
    ensures { LegalIsTold }
{}

/// Each reply has a status with a reason phrase, so that its octets can be written; and no request that
/// a book can be asked is answered 501 in any state, nor 503: that tells of a want of memory alone.
pub fn replies_have_reasons()
    ensures { RepliesHaveReasons }
{}

/// A request for a report adds no step once pieces are kept of each window that it needs: what it costs
/// at most is then 0.
pub fn held_readings_are_free()
    ensures { HeldReadingsAreFree }
{}

/// What is not refused is done, in any state: a report whose caller holds what it needs is answered 207,
/// or 200 for busy times, unless a row of its own refuses it or the answer is too long; each request
/// that only reads is answered 200 or 207 unless a row refuses it; a change is made unless a row refuses
/// it; and no reply is 503 unless the content of its request is that refusal.
pub fn requests_are_complete()
    ensures reported { ReportsAreAnswered }
    ensures answered { ReadingsAreAnswered }
    ensures changed { ChangesAreMade }
    ensures no_want { NoReplyWantsMemory }
{}

/// What journals promise: an accepted change has its effect and no other, is accepted again from its
/// entry, and a legal journal stays legal with it, as does each front of one; what holds of states
/// stays; and the pieces and origins that are kept follow.
pub fn history_laws()
    ensures effect { AcceptedHasItsEffect }
    ensures replayed { AcceptedIsReplayed }
    ensures legal { AcceptedKeepsLegal }
    ensures fronts { BeginningsAreLegal }
    ensures sound { StatesStaySound }
    ensures pieces { PiecesStayRight }
    ensures origins { OriginsFollow }
{}

/// What users see: a request that only reads is answered alike in all states that look alike to who
/// asks, and changes none; two states look alike exactly where one view shows both; a calendar on which
/// nothing is held is as one that is not there; and the busy times that are shown are the calendar's.
pub fn sight_laws()
    ensures alike { RepliesAreAlike }
    ensures unchanged { ReadingChangesNothing }
    ensures views { ViewsDecide }
    ensures hidden { HiddenIsAbsent }
    ensures busy { ShownRunsAreTheCalendars }
{}
