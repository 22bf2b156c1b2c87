//! Streams in pieces of one size.

ghost use Rattle.std.specs.Prelude.{◌<◌};

use cal_base::NoMemory;
use http_wire::{Next, Wire};
use std::alloc::Global;
use std::io;

/// What was read so far.
#[derive(Drop)]
struct Read {
    requests: usize,
    octets: usize,
}

/// Takes the requests that stand there, and says how the stream ends so far.
fn take_requests(
    alloc: Global,
    wire: &mut Wire,
    read: &mut Read,
) -> Result<&'static str, NoMemory> {
    for _ in 0..u64::MAX {
        match wire.next(alloc) {
            Next::Request(request) => {
                read.requests = read.requests.saturating_add(1);
                read.octets = read.octets.saturating_add(request.body.len());
            }
            Next::Need if wire.idle() => return Ok("idle"),
            Next::Need => return Ok("cut"),
            Next::Fault(_) => return Ok("a fault"),
            Next::NoMemory => return Err(NoMemory),
        }
    }
    Ok("no end")
}

/// Reads a stream in pieces of so many octets.
fn read_stream(
    alloc: Global,
    stream: &[u8],
    size: usize,
    read: &mut Read,
) -> Result<&'static str, NoMemory> {
    read_pieces(alloc, &mut Wire::new(alloc), stream, size, read)
}

/// The same over a wire.
fn read_pieces(
    alloc: Global,
    wire: &mut Wire,
    stream: &[u8],
    size: usize,
    read: &mut Read,
) -> Result<&'static str, NoMemory> {
    for piece in stream.chunks(at_least_one(size)) {
        wire.feed(alloc, piece)?;
        take_requests(alloc, wire, read)?;
    }
    take_requests(alloc, wire, read)
}

/// A piece has an octet at least.
fn at_least_one(size: usize) -> usize
    ensures { 0 < result }
{
    if size == 0 { 1 } else { size }
}

/// Prints how many requests a stream has in pieces of so many octets, how many octets their bodies
/// have, and how it ends.
pub fn measure(rt: &HostRuntime, stream: &[u8], size: u32) -> io::Result<()> {
    let mut read = Read {
        requests: 0,
        octets: 0,
    };
    match read_stream(rt.alloc(), stream, size as usize, &mut read) {
        Ok(end) => println!(rt; "{} requests, {} octets, {end}", read.requests, read.octets),
        Err(NoMemory) => println!(rt; "out of memory"),
    }
}
