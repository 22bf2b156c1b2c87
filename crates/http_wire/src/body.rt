//! Reading a body as its octets come.
ghost use Rattle.std.specs.Prelude.{◌≡◌, ◌<◌};
ghost use Rattle.http_wire.specs.BodyParts.{StepReads, Progressed, closing};

use crate::chunk_line::{ChunkLine, read_chunk_line};
use crate::cuts::{behind, front};
use crate::limits::BODY_LIMIT;
use crate::part::Part;
use crate::search::head_end;
use cal_base::Octets;
use cal_model::WireFault;

/// The most octets of a trailer, and the line feed in front of it.
const TRAILER_LIMIT: usize = 16_385;

/// What a step of reading a body came to.
pub(crate) enum Step {
    /// So many octets are done with, and this part is next.
    On(Part, usize),
    /// So many octets are done with, and the body is whole.
    Whole(usize),
    /// So many octets are done with, and the others are not enough to go on with this part.
    Need(Part, usize),
    Fault(WireFault),
    NoMemory,
}

/// One step.
fn make_step(part: Part, body: &mut Octets, octets: &[u8]) -> Step
    ensures { StepReads result part body.old octets.now body.new }
{
    match part {
        Part::Sized { left } => sized_step(left, body, octets),
        Part::Line => line_step(body, octets),
        Part::Data { left } => {
            if left == 0 {
                data_end(body, octets)
            } else {
                data_step(left, body, octets)
            }
        }
        Part::Trailer { seen } => trailer_step(seen, body, octets),
    }
}

/// Takes octets of a body of a stated length.
fn sized_step(left: usize, body: &mut Octets, octets: &[u8]) -> Step
    ensures { StepReads result (Part.Sized left) body.old octets.now body.new }
{
    if octets.len() < left {
        let Ok(()) = body.extend_from_slice(octets) else {
            return Step::NoMemory;
        };
        let left = left - octets.len();
        return Step::Need(Part::Sized { left }, octets.len());
    }
    let Ok(()) = body.extend_from_slice(front(octets, left)) else {
        return Step::NoMemory;
    };
    Step::Whole(left)
}

/// Goes behind a chunk line.
fn line_step(body: &Octets, octets: &[u8]) -> Step
    ensures { StepReads result Part.Line body.now octets.now body.now }
{
    match read_chunk_line(octets) {
        ChunkLine::Cut => Step::Need(Part::Line, 0),
        ChunkLine::Bad => Step::Fault(WireFault::BadChunk),
        ChunkLine::Whole { len, size } => {
            if size > BODY_LIMIT || body.len() > BODY_LIMIT - size {
                return Step::Fault(WireFault::BodyTooLong);
            }
            if size == 0 {
                return Step::On(Part::Trailer { seen: 0 }, len - 1);
            }
            Step::On(Part::Data { left: size }, len)
        }
    }
}

/// Takes octets of a chunk.
fn data_step(left: usize, body: &mut Octets, octets: &[u8]) -> Step
    requires { 0 < left }
    ensures { StepReads result (Part.Data left) body.old octets.now body.new }
{
    if octets.is_empty() {
        return Step::Need(Part::Data { left }, 0);
    }
    let n = if octets.len() < left {
        octets.len()
    } else {
        left
    };
    let Ok(()) = body.extend_from_slice(front(octets, n)) else {
        return Step::NoMemory;
    };
    Step::On(Part::Data { left: left - n }, n)
}

/// Goes behind the end of a chunk's octets.
fn data_end(body: &Octets, octets: &[u8]) -> Step
    ensures { StepReads result (Part.Data 0) body.now octets.now body.now }
{
    if octets.is_empty() {
        return Step::Need(Part::Data { left: 0 }, 0);
    }
    if octets[0] != b'\r' {
        return Step::Fault(WireFault::BadChunk);
    }
    if octets.len() == 1 {
        return Step::Need(Part::Data { left: 0 }, 0);
    }
    if octets[1] != b'\n' {
        return Step::Fault(WireFault::BadChunk);
    }
    Step::On(Part::Line, 2)
}

/// Looks for the end of a trailer.
fn trailer_step(seen: usize, body: &Octets, octets: &[u8]) -> Step
    ensures { StepReads result (Part.Trailer seen) body.now octets.now body.now }
{
    match head_end(octets) {
        Some(n) => {
            if n > TRAILER_LIMIT || seen > TRAILER_LIMIT - n {
                return Step::Fault(WireFault::BadChunk);
            }
            Step::Whole(n)
        }
        None => {
            let done = octets.len().saturating_sub(2);
            let tail = behind(octets, done);
            let n = tail.len() + to_end(tail);
            if seen > TRAILER_LIMIT
                || done > TRAILER_LIMIT - seen
                || n > TRAILER_LIMIT - seen - done
            {
                return Step::Fault(WireFault::BadChunk);
            }
            Step::Need(Part::Trailer { seen: seen + done }, done)
        }
    }
}

/// How many octets two line feeds behind the last octets of a trailer, two of them at most, give to
/// its end.
fn to_end(tail: &[u8]) -> usize
    ensures { result ≡ closing tail.now }
{
    match tail {
        [] => 2,
        [b] => { if *b == b'\n' { 1 } else { 2 } }
        [b, c, ..] => {
            if *c == b'\n' || (*b == b'\n' && *c == b'\r') {
                1
            } else {
                2
            }
        }
    }
}

/// How far the reading of a body came.
pub(crate) enum Progress {
    /// So many octets are done with, and the body is whole.
    Whole(usize),
    /// So many octets are done with, and the others are not enough to go on with this part.
    Need(Part, usize),
    Fault(WireFault),
    /// So many octets are done with, and this part is next.
    NoMemory(Part, usize),
}

/// Reads of a body what these octets give.
pub(crate) fn read_on(part: Part, body: &mut Octets, octets: &[u8]) -> Progress
    ensures { Progressed result part body.old octets.now body.new }
{
    let mut part = part;
    let mut done: usize = 0;
    'reading: loop {
        match make_step(part, body, behind(octets, done)) {
            Step::On(next, n) => {
                part = next;
                done += n;
            }
            Step::Whole(n) => return Progress::Whole(done + n),
            Step::Need(next, n) => return Progress::Need(next, done + n),
            Step::Fault(why) => return Progress::Fault(why),
            Step::NoMemory => return Progress::NoMemory(part, done),
        }
    }
}
