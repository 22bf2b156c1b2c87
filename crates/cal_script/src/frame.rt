//! The first frame of some octets.
ghost use Rattle.cal_script.specs.FirstFrames.{IsFirstFrame};

use crate::head::{Action, Head, read_head};
use crate::split::{behind, split_at_octet};

/// The most octets of a frame's line, which are those of `bytes 15 253402300799 1048576`.
const LONGEST_LINE: usize = 29;

/// Octets that come on a connection.
#[derive(Clone, Copy)]
pub(crate) struct Arrival<'a> {
    /// The number of the connection, from 0 to 15.
    pub(crate) connection: usize,
    /// When they come, in seconds since 1970.
    pub(crate) moment: u64,
    pub(crate) payload: &'a [u8],
}

/// A frame.
#[derive(Clone, Copy)]
pub(crate) enum Frame<'a> {
    /// Octets come on a connection.
    Bytes(Arrival<'a>),
    /// A worker does something with the slot of that number, from 0 to 63.
    Worker(Action, usize),
}

/// What stands at the front of some octets.
pub(crate) enum FirstFrame<'a> {
    /// A frame, and what stands behind it.
    Whole(Frame<'a>, &'a [u8]),
    /// No whole frame, but perhaps the start of one.
    Cut,
    /// What no frame begins with.
    Bad,
}

/// The first frame of some octets. That what stands there is no frame is seen once its line is
/// whole, or longer than the line of a frame.
pub(crate) fn first_frame(octets: &[u8]) -> FirstFrame<'_>
    ensures { IsFirstFrame octets.now result }
{
    let Some((line, rest)) = split_at_octet(octets, b'\n') else {
        return if octets.len() <= LONGEST_LINE {
            FirstFrame::Cut
        } else {
            FirstFrame::Bad
        };
    };
    let coming = match read_head(line) {
        Some(Head::Bytes(coming)) => coming,
        Some(Head::Worker(action, slot)) => {
            return FirstFrame::Whole(Frame::Worker(action, slot), rest);
        }
        None => return FirstFrame::Bad,
    };
    if rest.len() <= coming.size {
        return FirstFrame::Cut;
    }
    if rest[coming.size] != b'\n' {
        return FirstFrame::Bad;
    }
    let arrival = Arrival {
        connection: coming.connection,
        moment: coming.moment,
        payload: &rest[..coming.size],
    };
    FirstFrame::Whole(Frame::Bytes(arrival), behind(rest, coming.size + 1))
}
