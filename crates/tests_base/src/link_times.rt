//! How long a connection is read and written, over a connection of the machine to itself and a clock
//! that the test sets.

use crate::tcp::connection;
use cal_base::{Failed, Link, TcpLink};
use std::io;
use std::io::Write;
use std::net::{Net, TcpListener, TcpStream};
use std::sync::atomic::{AtomicU64, Ordering};
use std::time::Duration;

/// A clock that stands at a second.
#[derive(Clone, Copy)]
struct StandingClock<'a> {
    second: &'a AtomicU64,
}

impl std::rt::Clock for StandingClock<'_> {
    fn monotonic(&self) -> io::Result<Duration> {
        Ok(Duration::from_secs(self.second.load(Ordering::SeqCst)))
    }

    fn since_1970(&self) -> io::Result<Duration> {
        self.monotonic()
    }
}

/// A call at a second, what it answers, and how many seconds a read might wait then.
enum Call {
    Read(u64, Result<usize, Failed>, u64),
    Write(u64, Result<usize, Failed>),
}

/// Whether a call answers so. A read is of one octet, a write of five.
fn answers(
    link: &mut TcpLink<StandingClock<'_>>,
    twin: &TcpStream,
    second: &AtomicU64,
    call: &Call,
) -> bool {
    match call {
        Call::Read(at, wanted, waits) => {
            second.store(*at, Ordering::SeqCst);
            let got = link.read(&mut [0u8; 1]);
            got == *wanted && twin.read_timeout().ok() == Some(Some(Duration::from_secs(*waits)))
        }
        Call::Write(at, wanted) => {
            second.store(*at, Ordering::SeqCst);
            link.write(b"reply") == *wanted
        }
    }
}

/// Whether calls of a connection that is made at second 1000 answer so, as a second handle of it shows.
fn all_answer(stream: TcpStream, twin: &TcpStream, calls: &[Call]) -> bool {
    let second = AtomicU64::new(1000);
    let clock = StandingClock { second: &second };
    let mut link = TcpLink::new(&clock, stream);
    let mut same = true;
    for call in calls {
        same = same && answers(&mut link, twin, &second, call);
    }
    same
}

/// Whether calls of a new connection answer so. Ten octets come at once.
fn calls_answer<R: Net<Listener = TcpListener, Stream = TcpStream>>(
    rt: &R,
    calls: &[Call],
) -> io::Result<bool> {
    let (mut client, stream) = connection(rt)?;
    let sent = client.write_all(b"0123456789").is_ok();
    match stream.try_clone() {
        Ok(twin) => {
            let same = all_answer(stream, &twin, calls);
            Ok(sent && same)
        }
        Err(error) => Err(error),
    }
}

/// A read may wait ten seconds, or what is left of thirty from the first octet on.
const THIRTY_SECONDS: &[Call] = &[
    Call::Read(1005, Ok(1), 10),
    Call::Read(1025, Ok(1), 10),
    Call::Read(1026, Ok(1), 9),
    Call::Read(1034, Ok(1), 1),
    Call::Read(1035, Err(Failed), 1),
    Call::Read(9999, Err(Failed), 1),
];

/// The time at work counts for neither: the write at 1300 is made.
const TWO_MINUTES: &[Call] = &[
    Call::Read(1001, Ok(1), 10),
    Call::Write(1300, Ok(5)),
    Call::Write(1419, Ok(5)),
    Call::Write(1421, Err(Failed)),
    Call::Read(1422, Ok(1), 2),
    Call::Write(1423, Ok(5)),
    Call::Write(1543, Ok(5)),
];

/// Behind a reply the first octet may be waited for two seconds, and those behind it ten.
const TWO_SECONDS: &[Call] = &[
    Call::Read(1001, Ok(1), 10),
    Call::Write(1002, Ok(5)),
    Call::Read(1100, Ok(1), 2),
    Call::Read(1101, Ok(1), 10),
    Call::Read(1125, Ok(1), 5),
    Call::Write(1126, Ok(5)),
    Call::Read(1127, Ok(1), 2),
];

/// A request that began before is read on and answered; none begins later.
const TEN_MINUTES: &[Call] = &[
    Call::Read(1001, Ok(1), 10),
    Call::Write(1002, Ok(5)),
    Call::Read(1599, Ok(1), 1),
    Call::Read(1605, Ok(1), 10),
    Call::Write(1620, Ok(5)),
    Call::Read(1621, Err(Failed), 10),
];

const IDLE: &[Call] = &[Call::Read(1600, Err(Failed), 10)];

const CONNECTIONS: &[(&str, &[Call])] = &[
    ("a request is read for thirty seconds", THIRTY_SECONDS),
    ("a reply is written for two minutes", TWO_MINUTES),
    ("an idle connection is read for two seconds", TWO_SECONDS),
    ("no request begins after ten minutes", TEN_MINUTES),
    ("none begins then where none began before", IDLE),
];

#[test]
fn connections_have_their_times(rt: HostRuntime) {
    for (name, calls) in CONNECTIONS {
        assert!(rt; calls_answer(&rt, calls).ok() == Some(true), "{name}");
    }
}
