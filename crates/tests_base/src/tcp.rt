//! Connections over TCP, to the machine itself.

use crate::wanted::Wanted;
use cal_base::tcp::LINK_TIMEOUT_SECONDS;
use cal_base::{Clock, Door, Failed, Link, TcpDoor, TcpLink, send_all};
use std::alloc::Global;
use std::io;
use std::io::{Read, Write};
use std::net::{Net, Shutdown, SocketAddr, TcpListener, TcpStream};
use std::sync::Wait;
use std::test::Fail;
use std::time::Duration;

/// An address at which nobody listens: one that the system gave a moment ago.
fn free_address<R: Net<Listener = TcpListener, Stream = TcpStream>>(
    rt: &R,
) -> io::Result<SocketAddr> {
    TcpListener::bind(rt, "127.0.0.1:0")?.local_addr()
}

/// Whether a link gives the octets of its other side to the end, and sends a reply. A real connection gives
/// its octets in any pieces, and not more of them than there are octets.
fn is_answered<L: Link>(link: &mut L, octets: &[u8]) -> bool {
    let mut wanted = Wanted::new(octets);
    for _ in 0..octets.len().saturating_add(1) {
        let mut place = [0u8; 16];
        let Ok(n) = link.read(&mut place) else {
            return false;
        };
        if n == 0 {
            break;
        }
        wanted.put(&place[..n]);
    }
    let ended = link.read(&mut [0u8; 16]) == Ok(0);
    let sent = send_all(link, b"reply") == Ok(());
    ended && sent && wanted.is_whole()
}

/// Sends a question to its end.
fn asks(client: &mut TcpStream) -> bool {
    client.write_all(b"hello").is_ok() && client.shutdown(Shutdown::Write).is_ok()
}

/// Whether the five octets of the reply come.
fn hears(client: &mut TcpStream) -> bool {
    let mut reply = [0u8; 5];
    client.read_exact(&mut reply).is_ok() && reply == *b"reply"
}

#[test]
fn a_door_that_is_not_open_fails(rt: HostRuntime) {
    let mut door = TcpDoor::new(&rt);
    assert!(rt; door.accept(&rt).is_err());
    assert!(rt; door.another(rt.alloc()).is_err());
    assert!(rt; door.open("no address") == Err(Failed));
    door.rest(&rt);
    assert!(rt; 0 < door.clock().now());
}

/// Whether a client's question comes over a link, and the reply to it back.
fn is_heard<L: Link>(client: &mut TcpStream, link: &mut L) -> bool {
    asks(client) && is_answered(link, b"hello") && hears(client)
}

/// Whether a door accepts the connection of a client, and serves it to its end.
fn accepts<D: Door, R: Wait>(rt: &R, door: &mut D, client: &mut TcpStream) -> bool {
    match door.accept(rt) {
        Ok(mut link) => is_heard(client, &mut link),
        Err(_) => false,
    }
}

/// Whether another door than the one that was opened serves a client.
fn another_serves<D: Door, R: Wait>(
    rt: &R,
    alloc: Global,
    door: &mut D,
    client: &mut TcpStream,
) -> bool {
    match door.another(alloc) {
        Ok(mut other) => accepts(rt, &mut other, client),
        Err(_) => false,
    }
}

/// Whether a door is opened at an address, and another than it serves a client there.
fn is_served<D: Door, R: Net<Listener = TcpListener, Stream = TcpStream> + Wait>(
    rt: &R,
    alloc: Global,
    door: &mut D,
    address: SocketAddr,
    text: &str,
) -> bool {
    let is_open = door.open(text) == Ok(());
    match TcpStream::connect(rt, address) {
        Ok(mut client) => is_open && another_serves(rt, alloc, door, &mut client),
        Err(_) => false,
    }
}

#[test]
fn a_connection_is_accepted_and_closes(rt: HostRuntime) -> Result<(), Fail> {
    let address = free_address(&rt)?;
    let text = format!(in rt.alloc(); "{address}")?;
    let mut door = TcpDoor::new(&rt);
    assert!(rt; is_served(&rt, rt.alloc(), &mut door, address, text.as_str()));
    Ok(())
}

/// The client's side of a connection to a listener of the machine, and the other side.
fn connected<R: Net<Listener = TcpListener, Stream = TcpStream>>(
    rt: &R,
    listener: &TcpListener,
) -> io::Result<(TcpStream, TcpStream)> {
    let client = TcpStream::connect(rt, listener.local_addr()?)?;
    match listener.accept() {
        Ok((stream, _)) => Ok((client, stream)),
        Err(error) => Err(error),
    }
}

/// The two sides of a connection of the machine to itself.
pub fn connection<R: Net<Listener = TcpListener, Stream = TcpStream>>(
    rt: &R,
) -> io::Result<(TcpStream, TcpStream)> {
    let listener = TcpListener::bind(rt, "127.0.0.1:0")?;
    connected(rt, &listener)
}

/// Whether a connection holds small writes back or not, and waits so long for the other side.
fn has_options(stream: &TcpStream, no_delay: bool, time: Option<Duration>) -> bool {
    stream.nodelay().ok() == Some(no_delay)
        && stream.read_timeout().ok() == Some(time)
        && stream.write_timeout().ok() == Some(time)
}

/// Whether a link sets the options of its connection, as a second handle of it shows.
fn sets_options<C: std::rt::Clock + Copy + Drop>(
    clock: &C,
    stream: TcpStream,
    twin: &TcpStream,
) -> bool {
    let time = Some(Duration::from_secs(LINK_TIMEOUT_SECONDS));
    let before = has_options(twin, false, None);
    let _link = TcpLink::new(clock, stream);
    before && has_options(twin, true, time)
}

#[test]
fn a_link_sets_its_time_out(rt: HostRuntime) -> Result<(), Fail> {
    let (_client, stream) = connection(&rt)?;
    match stream.try_clone() {
        Ok(twin) => assert!(rt; sets_options(&rt, stream, &twin)),
        Err(_) => assert!(rt; false),
    }
    Ok(())
}
