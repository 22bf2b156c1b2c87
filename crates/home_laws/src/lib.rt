//! The law of homes: what a request about one home is answered, and what it makes of the state.
//!
//! Given: the definitions of replies, states and journals. Gives: no code that runs, but the law, as
//! the contract of a function. Used by: what speaks of sessions that ask of different homes at the
//! same time.
#![tactic(auto)]

ghost use Rattle.home_laws.specs.Homes.{HomesAreApart, SessionsPlayNoPart, EntriesStayInHomes, HomesFollowTheirEntries};
ghost use Rattle.home_laws.specs.LoneSessions.{SessionsAreAlone};

/// A request about one home is answered from that home alone and changes no other, whatever session
/// it comes on; and a journal leaves a home as its own entries do. So a session that asks of its own
/// home alone is answered as if it were alone.
#[tactic(auto, using(crate::proofs::OutcomeLemmas::homes_are_apart, crate::proofs::OutcomeLemmas::sessions_play_no_part, crate::proofs::EntryLemmas::entries_stay_in_homes, crate::proofs::ReplayLemmas::homes_follow_their_entries, crate::proofs::TurnLemmas::sessions_are_alone))]
pub fn home_laws()
    ensures apart { HomesAreApart }
    ensures sessions { SessionsPlayNoPart }
    ensures entries { EntriesStayInHomes }
    ensures journals { HomesFollowTheirEntries }
    ensures alone { SessionsAreAlone }
{}
