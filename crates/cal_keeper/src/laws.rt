//! The laws of journal files.
ghost use Rattle.cal_keeper.specs.Files.DraftLaws.{DraftsAreNoJournals, DraftsGoOn, DraftsAreFinished};
ghost use Rattle.cal_keeper.specs.Files.EntryLaws.{AcceptedHasForm, FormIsBookable, SessionsAreAlike, RecordedIsLegal, RecordedLeadsAlike};
ghost use Rattle.cal_keeper.specs.Files.ReadingLaws.{ReadingsAreExact, StandingFilesAreRead, CrashesAreRecovered, FailuresLeaveFiles, HistoriesAreKept};

/// What opening a file, reading it to its end and appending to it come to, by their contracts: a reading
/// gives exactly the events for which the file stands, whenever a crash came. And of its entries: each
/// accepted change may be one, and what they ask may be asked of a book again, on any session. And of a
/// file that is written whole: what a crash leaves over several calls. It is what a caller needs who
/// speaks of whole runs of these calls.
pub fn file_laws()
    ensures exact { ReadingsAreExact }
    ensures standing { StandingFilesAreRead }
    ensures recovered { CrashesAreRecovered }
    ensures reopened { FailuresLeaveFiles }
    ensures histories { HistoriesAreKept }
    ensures formed { AcceptedHasForm }
    ensures bookable { FormIsBookable }
    ensures sessions { SessionsAreAlike }
    ensures legal { RecordedIsLegal }
    ensures leads { RecordedLeadsAlike }
    ensures unmarked { DraftsAreNoJournals }
    ensures going_on { DraftsGoOn }
    ensures finished { DraftsAreFinished }
{}
