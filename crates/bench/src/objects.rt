//! A calendar object that is read again and again.
ghost use Rattle.std.specs.Prelude.{◌<◌, ◌^◌, length};

use cal_base::List;
use cal_model::Object;
use cal_object::{ReadFault, read_object};
use std::io;
use std::time::Instant;

/// How many octets an object may have.
pub const LIMIT: usize = 1 << 22;

/// Reads an object so often, and keeps what is read: how often it was read, and the nanoseconds of
/// the reading that took least.
fn read_again(
    rt: &HostRuntime,
    octets: &[u8],
    times: u32,
    kept: &mut List<Object>,
) -> io::Result<Result<u128, ReadFault>>
    requires { length octets.now < 2 ^ 32 }
{
    let mut least = u128::MAX;
    for _ in 0..times {
        let begin = Instant::now(rt)?;
        let read = read_object(rt.alloc(), octets);
        let spent = begin.elapsed(rt)?.as_nanos();
        match read {
            Ok(object) => {
                if kept.push(object).is_err() {
                    return Ok(Err(ReadFault::NoMemory));
                }
            }
            Err(fault) => return Ok(Err(fault)),
        }
        least = least.min(spent);
    }
    Ok(Ok(least))
}

/// Prints why there is no object.
pub fn print_fault(rt: &HostRuntime, fault: ReadFault) -> io::Result<()> {
    match fault {
        ReadFault::NotCalendar { place } => println!(rt; "no calendar: octet {place}"),
        ReadFault::NotResource(_) => println!(rt; "no object"),
        ReadFault::DateOutside(_, _) => println!(rt; "a date outside"),
        ReadFault::NoMemory => println!(rt; "out of memory"),
    }
}

/// Reads an object so often, at least once, and prints how many were read and are kept, so that the
/// memory of the program shows what one takes, and the nanoseconds of the reading that took least; or
/// why there is no object. No nanoseconds where it is to be read 0 times.
pub fn measure(rt: &HostRuntime, octets: &[u8], times: u32) -> io::Result<()> {
    if octets.len() > LIMIT {
        return println!(rt; "more octets than are read");
    }
    let mut kept = List::new(rt.alloc());
    match read_again(rt, octets, times.max(1), &mut kept)? {
        Ok(least) => print_least(rt, kept.len(), times > 0, least),
        Err(fault) => print_fault(rt, fault),
    }
}

/// Prints how many are kept, and where it is timed the nanoseconds of the reading that took least.
fn print_least(rt: &HostRuntime, kept: usize, timed: bool, least: u128) -> io::Result<()> {
    println!(rt; "{kept} objects")?;
    if timed {
        println!(rt; "{least} ns")?;
    }
    Ok(())
}
