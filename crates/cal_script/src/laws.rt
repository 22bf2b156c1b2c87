//! What holds of the replies that a script prints, and of frames and connections.
ghost use Rattle.cal_model.specs.Transcripts.ConnectionLaws.{StreamsComplete, CompletionsAgree, CompletionsStay};
ghost use Rattle.cal_model.specs.Transcripts.FrameLaws.{CutsAgree};
ghost use Rattle.cal_model.specs.Transcripts.TranscriptLaws.{ScriptsGoOn};
ghost use Rattle.cal_script.specs.ReadersSight.{ReadersSeeAlike};

/// What may be printed for a request that only reads may be printed for it in each state that looks
/// alike to who asks: no such reply tells more of the state than its user sees of it.
pub fn readers_see_alike()
    ensures { ReadersSeeAlike }
{}

/// An input has one cut into frames. The octets of a connection complete one list of requests and
/// faults, which stays whatever octets follow. And a script goes on from where its frames leave it:
/// what one more frame prints stands behind what was printed.
pub fn script_laws()
    ensures cuts { CutsAgree }
    ensures complete { StreamsComplete }
    ensures agree { CompletionsAgree }
    ensures stay { CompletionsStay }
    ensures go_on { ScriptsGoOn }
{}
