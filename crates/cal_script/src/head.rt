//! The line at the front of a frame.
ghost use Rattle.std.specs.Prelude.{◌≡◌, ◌≢◌, ℕ, MatchOption};
ghost use Rattle.cal_script.specs.declared.head.Action.{Action};
ghost use Rattle.cal_script.specs.declared.head.Coming.{Coming};
ghost use Rattle.cal_script.specs.FrameHeads.{IsHead, IsNoHead, action_word, AreNumbersOf, IsSlotNumber};

use crate::number::read_number;
use crate::split::split_at_octet;

/// The greatest number of a connection.
const LAST_CONNECTION: u64 = 15;

/// The greatest number of a slot.
const LAST_SLOT: u64 = 63;

/// The last moment that a frame tells, 9999-12-31T23:59:59Z, in seconds since 1970.
const LAST_MOMENT: u64 = 253_402_300_799;

/// The most octets of one payload.
const PAYLOAD_LIMIT: u64 = 1_048_576;

/// What a worker does with its slot.
#[derive(Clone, Copy)]
pub(crate) enum Action {
    /// The book's next claim is put into the slot, if it is empty.
    Claim,
    /// The rows of the slot's claim are made.
    Expand,
    /// Those rows are given to the book, and the slot is empty.
    Publish,
    /// The slot's claim ends, and the slot is empty.
    Abandon,
}

/// Which octets come behind the line.
#[derive(Clone, Copy)]
pub(crate) struct Coming {
    /// On which connection.
    pub(crate) connection: usize,
    /// When, in seconds since 1970.
    pub(crate) moment: u64,
    /// How many.
    pub(crate) size: usize,
}

/// What the line of a frame says.
#[derive(Clone, Copy)]
pub(crate) enum Head {
    /// Octets come.
    Bytes(Coming),
    /// A worker does something with the slot of that number.
    Worker(Action, usize),
}

/// What a line without its line feed says, if it is the line of a frame.
pub(crate) fn read_head(line: &[u8]) -> Option<Head>
    ensures { MatchOption result (IsNoHead line.now) (IsHead line.now) }
{
    let Some((word, numbers)) = split_at_octet(line, b' ') else {
        return None;
    };
    if word == b"bytes".as_slice() {
        return match read_coming(numbers) {
            Some(coming) => Some(Head::Bytes(coming)),
            None => None,
        };
    }
    let Some(action) = action_of(word) else {
        return None;
    };
    match read_slot(numbers) {
        Some(slot) => Some(Head::Worker(action, slot)),
        None => None,
    }
}

/// What a worker does by that word.
fn action_of(word: &[u8]) -> Option<Action>
    ensures { MatchOption result ((action : Action) → word.now ≢ action_word action) (λ action. word.now ≡ action_word action) }
{
    if word == b"claim".as_slice() {
        Some(Action::Claim)
    } else if word == b"expand".as_slice() {
        Some(Action::Expand)
    } else if word == b"publish".as_slice() {
        Some(Action::Publish)
    } else if word == b"abandon".as_slice() {
        Some(Action::Abandon)
    } else {
        None
    }
}

/// The numbers of octets that come: a connection, a moment and a size.
fn read_coming(numbers: &[u8]) -> Option<Coming>
    ensures { MatchOption result ((coming : Coming) → ¬ AreNumbersOf numbers.now coming) (AreNumbersOf numbers.now) }
{
    let Some((connection, rest)) = split_at_octet(numbers, b' ') else {
        return None;
    };
    let Some((moment, size)) = split_at_octet(rest, b' ') else {
        return None;
    };
    let Some(connection) = read_number(connection) else {
        return None;
    };
    let Some(moment) = read_number(moment) else {
        return None;
    };
    let Some(size) = read_number(size) else {
        return None;
    };
    if LAST_CONNECTION < connection || LAST_MOMENT < moment || PAYLOAD_LIMIT < size {
        return None;
    }
    Some(Coming {
        connection: connection as usize,
        moment,
        size: size as usize,
    })
}

/// The number of a slot.
fn read_slot(text: &[u8]) -> Option<usize>
    ensures { MatchOption result ((slot : ℕ) → ¬ IsSlotNumber text.now slot) (IsSlotNumber text.now) }
{
    let Some(slot) = read_number(text) else {
        return None;
    };
    if LAST_SLOT < slot {
        return None;
    }
    Some(slot as usize)
}
