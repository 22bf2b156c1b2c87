//! Connections over TCP.
ghost use Rattle.std.specs.Prelude.{◌≡◌, ◌≤◌, [], Some, None, if◌then◌else◌};
ghost use Rattle.cal_base.specs.World.Outside.{Rose};
ghost use Rattle.cal_base.specs.World.Adapter.{new_stream};

use crate::counted_stream::CountedStream;
use crate::door::Door;
use crate::failed::Failed;
use crate::stream::{Link, Source};
use crate::system_clock::SystemClock;
use std::alloc::Global;
use std::marker::Model;
use std::net::{Net, TcpListener, TcpStream};
use std::sync::Wait;
use std::time::{Duration, Instant};

/// How many seconds a read or a write of a connection may wait for the other side.
pub const LINK_TIMEOUT_SECONDS: u64 = 10;

/// How many seconds a connection that had a reply may wait for the first octet of another request,
/// so that it does not hold a session that others wait for.
pub const IDLE_SECONDS: u64 = 2;

/// How many seconds after its first octet a request is read, so that a client that sends an octet
/// now and then cannot hold its session longer.
pub const REQUEST_SECONDS: u64 = 30;

/// How many seconds after its first octet a reply is written, so that a client that takes an octet
/// now and then cannot hold its session longer.
pub const REPLY_SECONDS: u64 = 120;

/// How many seconds after a connection was made a request may begin on it.
pub const CONNECTION_SECONDS: u64 = 600;

/// How many milliseconds `rest` of a door waits.
pub const REST_MILLISECONDS: u64 = 100;

/// What a connection is at.
#[derive(Clone, Copy)]
enum Stage {
    /// No octet has come yet.
    New,
    /// A request is read, whose first octets came at that moment.
    Request(Instant),
    /// A reply is written, whose first octets went at that moment, or was written.
    Reply(Instant),
}

/// The moments from which the times of a connection count.
#[derive(Clone, Copy)]
struct Moments {
    made: Instant,
    stage: Stage,
}

impl Moments {
    /// How long a read may wait for an octet, if it may be made.
    fn waiting_time(&self, now: Instant) -> Option<Duration> {
        let (longest, left) = match self.stage {
            Stage::New => (
                LINK_TIMEOUT_SECONDS,
                time_left(self.made, CONNECTION_SECONDS, now),
            ),
            Stage::Request(began) => (LINK_TIMEOUT_SECONDS, time_left(began, REQUEST_SECONDS, now)),
            Stage::Reply(_) => (IDLE_SECONDS, time_left(self.made, CONNECTION_SECONDS, now)),
        };
        Some(left?.min(Duration::from_secs(longest)))
    }

    /// Whether a write may be made.
    fn may_write(&self, now: Instant) -> bool {
        match self.stage {
            Stage::Reply(began) => time_left(began, REPLY_SECONDS, now).is_some(),
            _ => true,
        }
    }

    /// The moments behind a read of octets.
    fn behind_read(self, now: Instant) -> Moments {
        let stage = match self.stage {
            Stage::Request(began) => Stage::Request(began),
            _ => Stage::Request(now),
        };
        Moments {
            made: self.made,
            stage,
        }
    }

    /// The moments behind a write of octets.
    fn behind_write(self, now: Instant) -> Moments {
        let stage = match self.stage {
            Stage::Reply(began) => Stage::Reply(began),
            _ => Stage::Reply(now),
        };
        Moments {
            made: self.made,
            stage,
        }
    }
}

/// What is left of so many seconds from a moment, if they have not passed.
fn time_left(since: Instant, seconds: u64, now: Instant) -> Option<Duration> {
    Duration::from_secs(seconds).checked_sub(now.duration_since(since))
}

/// A connection. It tells nothing of what is left until its end, nor of what was written.
#[derive(Drop)]
pub struct TcpLink<R: std::rt::Clock + Copy + Drop> {
    rt: R,
    stream: CountedStream<TcpStream>,
    /// None where the system did not take the options of the connection, or once gave no moment.
    moments: Option<Moments>,
}

impl<R: std::rt::Clock + Copy + Drop> Model for TcpLink<R> {
    ghost use Rattle.cal_base.specs.World.Adapter.{StreamState};

    ghost Value = { StreamState };

    ghost view = { λ l. l.stream };
}

impl<R: std::rt::Clock + Copy + Drop> TcpLink<R> {
    /// A connection whose small writes the kernel does not hold back.
    ///
    /// A read and a write fail after `LINK_TIMEOUT_SECONDS` without an octet, a read for the first
    /// octet behind a reply after `IDLE_SECONDS`. A request is read for `REQUEST_SECONDS` from its
    /// first octet on, and a reply written for `REPLY_SECONDS` from its first; the link takes the
    /// first write behind a read as the first of a reply. `CONNECTION_SECONDS` after the connection
    /// no request begins. Where the system does not grant this, every call of the link fails, since
    /// one without a time-out could hold its session for ever.
    pub fn new(rt: &R, stream: TcpStream) -> TcpLink<R>
        ensures { result ≡ new_stream }
    {
        let moments = first_moments(rt, &stream);
        TcpLink {
            rt: *rt,
            stream: CountedStream::new(stream),
            moments,
        }
    }

    /// How long the next read may wait for an octet, if it may be made.
    fn waiting_time(&self) -> Option<Duration> {
        let now = Instant::now(&self.rt).ok()?;
        self.moments?.waiting_time(now)
    }

    /// Whether the next read may be made, and the system took how long it may wait. (A time of no
    /// length is not taken.)
    fn may_read(&self) -> bool {
        match self.waiting_time() {
            Some(time) => self.stream.stream().set_read_timeout(Some(time)).is_ok(),
            None => false,
        }
    }

    /// Whether the next write may be made.
    fn may_write(&self) -> bool {
        match (self.moments, Instant::now(&self.rt)) {
            (Some(moments), Ok(now)) => moments.may_write(now),
            _ => false,
        }
    }

    /// Keeps that octets came. Without a moment nothing could bound a request, and the link fails
    /// from then on.
    fn note_read(&mut self)
        ensures { self.new ≡ self.old }
    {
        self.moments = match (self.moments, Instant::now(&self.rt)) {
            (Some(moments), Ok(now)) => Some(moments.behind_read(now)),
            _ => None,
        };
    }

    /// Keeps that octets went, as `note_read` does.
    fn note_write(&mut self)
        ensures { self.new ≡ self.old }
    {
        self.moments = match (self.moments, Instant::now(&self.rt)) {
            (Some(moments), Ok(now)) => Some(moments.behind_write(now)),
            _ => None,
        };
    }
}

/// The moments of a connection that was just made, if the system took its options.
fn first_moments<R: std::rt::Clock>(rt: &R, stream: &TcpStream) -> Option<Moments> {
    if !is_prepared(stream) {
        return None;
    }
    let made = Instant::now(rt).ok()?;
    Some(Moments {
        made,
        stage: Stage::New,
    })
}

/// Whether the system took the options of a connection.
fn is_prepared(stream: &TcpStream) -> bool {
    let time = Duration::from_secs(LINK_TIMEOUT_SECONDS);
    stream.set_nodelay(true).is_ok()
        && stream.set_read_timeout(Some(time)).is_ok()
        && stream.set_write_timeout(Some(time)).is_ok()
}

impl<R: std::rt::Clock + Copy + Drop> Link for TcpLink<R> {
    ghost faults = { λ l. l.faults };

    ghost left = { λ l. if l.ended then Some [] else None };

    ghost written = { λ _. None };

    ghost allowance = { λ l. l.allowance };

    fn read(&mut self, into: &mut [u8]) -> Result<usize, Failed> {
        if !self.may_read() {
            return Err(self.stream.fail());
        }
        let n = self.stream.read(into)?;
        if 0 < n {
            self.note_read();
        }
        Ok(n)
    }

    fn write(&mut self, piece: &[u8]) -> Result<usize, Failed> {
        if !self.may_write() {
            return Err(self.stream.fail());
        }
        let n = self.stream.write(piece)?;
        if 0 < n {
            self.note_write();
        }
        Ok(n)
    }
}

/// A listener at an address of the network.
#[derive(Drop)]
pub struct TcpDoor<
    R: Net<Listener = TcpListener, Stream = TcpStream> + std::rt::Clock + Copy + Drop,
> {
    rt: R,
    listener: Option<TcpListener>,
    faults: u64,
    tries: u64,
}

impl<R: Net<Listener = TcpListener, Stream = TcpStream> + std::rt::Clock + Copy + Drop> Model
    for TcpDoor<R> {
    ghost use Rattle.cal_base.specs.World.Adapter.{ListenerState};

    ghost Value = { ListenerState };

    ghost view = { λ d. record { faults = d.faults; tries = d.tries } };
}

impl<R: Net<Listener = TcpListener, Stream = TcpStream> + std::rt::Clock + Copy + Drop> TcpDoor<R> {
    /// A door that does not listen yet: until `open` each `another` and each `accept` fails.
    pub fn new(rt: &R) -> TcpDoor<R>
        ensures { result ≡ record { faults = 0; tries = 0 } }
    {
        TcpDoor {
            rt: *rt,
            listener: None,
            faults: 0,
            tries: 0,
        }
    }

    fn fail(&mut self) -> Failed
        ensures rose { Rose self.old.faults self.new.faults }
        ensures never_falls { self.old.faults ≤ self.new.faults }
        ensures tries_kept { self.new.tries ≡ self.old.tries }
    {
        self.faults = self.faults.saturating_add(1);
        Failed
    }
}

impl<R: Net<Listener = TcpListener, Stream = TcpStream> + std::rt::Clock + Copy + Drop + Send> Door
    for TcpDoor<R> {
    type Link = TcpLink<R>;

    type Clock = SystemClock<R>;

    ghost faults = { λ d. d.faults };

    ghost tries = { λ d. d.tries };

    ghost moment = { λ _. None };

    fn open(&mut self, address: &str) -> Result<(), Failed> {
        let Ok(listener) = TcpListener::bind(&self.rt, address) else {
            return Err(self.fail());
        };
        self.listener = Some(listener);
        Ok(())
    }

    fn another(&mut self, _alloc: Global) -> Result<TcpDoor<R>, Failed> {
        let Some(listener) = &self.listener else {
            return Err(self.fail());
        };
        let Ok(listener) = listener.try_clone() else {
            return Err(self.fail());
        };
        Ok(TcpDoor {
            rt: self.rt,
            listener: Some(listener),
            faults: 0,
            tries: 0,
        })
    }

    fn accept<W: Wait>(&mut self, _rt: &W) -> Result<TcpLink<R>, Failed> {
        self.tries = self.tries.saturating_add(1);
        let Some(listener) = &self.listener else {
            return Err(self.fail());
        };
        let Ok((stream, _)) = listener.accept() else {
            return Err(self.fail());
        };
        Ok(TcpLink::new(&self.rt, stream))
    }

    fn clock(&self) -> SystemClock<R> {
        SystemClock::new(&self.rt)
    }

    /// Waits `REST_MILLISECONDS`.
    fn rest<W: Wait>(&mut self, _rt: &W) {
        self.rt.sleep(Duration::from_millis(REST_MILLISECONDS));
    }
}
