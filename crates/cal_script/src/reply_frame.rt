//! Frames of the output.
ghost use Rattle.std.specs.Prelude.{◌≡◌, ℕ, ◌≤◌, ◌++◌, take, codes, decimal, string_bytes, OnOk, IfOk, IsErrOf};
ghost use Rattle.cal_base.specs.World.Outside.{Rose, Adds};
ghost use Rattle.cal_model.specs.Transcripts.ScriptFrames.{reply_frame};

use crate::answering::Unwritten;
use cal_base::{NoMemory, Octets, Sink, write_all};
use std::alloc::{AllocError, Global};

/// Writes the frame of a reply on a connection, in one piece. After a failure a front of it was
/// written; without memory, nothing.
pub(crate) fn write_frame<O: Sink>(
    alloc: Global,
    connection: usize,
    octets: &[u8],
    output: &mut O,
) -> Result<(), Unwritten>
    ensures whole { OnOk result (Adds (O.written output.old) (reply_frame connection octets.now) (O.written output.new)) }
    ensures front { (many : ℕ) × Adds (O.written output.old) (take many (reply_frame connection octets.now)) (O.written output.new) }
    ensures fault { IsErrOf result Unwritten.Output → Rose (O.faults output.old) (O.faults output.new) }
    ensures never_falls { O.faults output.old ≤ O.faults output.new }
{
    let Ok(frame) = frame_octets(alloc, connection, octets) else {
        return Err(Unwritten::NoMemory);
    };
    match write_all(output, frame.as_slice()) {
        Ok(()) => Ok(()),
        Err(_) => Err(Unwritten::Output),
    }
}

/// The frame of a reply: its line, its octets and a line feed.
fn frame_octets(alloc: Global, connection: usize, octets: &[u8]) -> Result<Octets, NoMemory>
    ensures { IfOk result (λ frame. frame ≡ reply_frame connection octets.now) }
{
    let head = frame_head(alloc, connection, octets.len())?;
    let mut frame = Octets::new(alloc);
    frame.reserve(octets.len().saturating_add(64))?;
    frame.extend_from_slice(head.as_bytes())?;
    frame.extend_from_slice(octets)?;
    frame.push(b'\n')?;
    Ok(frame)
}

/// The line in front of a reply of so many octets.
fn frame_head(alloc: Global, connection: usize, len: usize) -> Result<String, AllocError>
    ensures { IfOk result (λ head. string_bytes head ≡ codes "reply " ++ (decimal connection ++ (codes " " ++ (decimal len ++ codes "\n")))) }
{
    format!(in alloc; "reply {connection} {len}\n")
}
