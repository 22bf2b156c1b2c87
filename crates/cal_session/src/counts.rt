//! What a session counts beside the requests that it answers.
ghost use Rattle.std.specs.Prelude.{◌≡◌, pos};

use cal_base::Steps;
use std::sync::ledger::Ledger;

/// The steps of expansion, and a moment that the desk is to be told.
///
/// A request that is answered 503 doesn't count for the focus of the claims, and one that is answered
/// from a look may still be answered so. Its moment is therefore noted here once its reply is known, and
/// told in the session's next turn.
#[derive(Drop)]
pub(crate) struct Counts<G: Ledger> {
    pub(crate) steps: Steps<G>,
    /// The greatest moment that was noted since the last one was told, in seconds since 1970; 0 where
    /// there is none, since every book has come at least so far.
    moment: i64,
}

impl<G: Ledger> Counts<G> {
    /// So many steps, and no moment.
    pub(crate) fn new(steps: Steps<G>) -> Counts<G> {
        Counts { steps, moment: 0 }
    }

    /// Notes the moment of a request that was answered from a look with this status, where it is the
    /// greatest and the desk had come less far. One that was answered 503 is not noted.
    pub(crate) fn note(&mut self, moment: i64, status: u16, desk: i64) {
        if status == 503 {
            return;
        }
        if moment <= desk {
            return;
        }
        if self.moment < moment {
            self.moment = moment;
        }
    }

    /// Whether there is no moment to tell.
    pub(crate) fn is_told(&self) -> bool {
        self.moment == 0
    }

    /// The moment that is to be told; from then on there is none.
    pub(crate) fn take(&mut self) -> i64
        ensures taken { result ≡ self.old.moment }
        ensures none { self.new.moment ≡ pos 0 }
    {
        let moment = self.moment;
        self.moment = 0;
        moment
    }
}
