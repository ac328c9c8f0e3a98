//! Connections over TCP to this machine.

use crate::connections::SOUND;
use crate::starts::floor;
use lf_server::{TcpServed, serve_tcp};
use std::alloc::Global;
use std::io;
use std::io::{Read, Write};
use std::net::{Ipv4Addr, Net, OpenListener, SocketAddr};
use std::test::Fail;

/// The result of `connections` connections that were all accepted.
fn all(connections: u32) -> TcpServed {
    TcpServed {
        connections,
        accept_fault: false,
    }
}

/// Serves `connections` connections to the floor of the built-in design.
fn served<T: Net + AllocGlobal>(
    rt: &T,
    listener: &T::Listener,
    connections: u32,
) -> Result<TcpServed, Fail> {
    let mut floor = floor(rt.alloc())?;
    Ok(serve_tcp(rt, &mut floor, listener, connections, SOUND.limits))
}

/// A client that has sent these bytes.
fn client<T: Net>(rt: &T, listener: &T::Listener, bytes: &[u8]) -> io::Result<T::Stream> {
    let mut client = rt.connect(listener.local_addr()?)?;
    client.write_all(bytes)?;
    Ok(client)
}

/// Returns true if the client receives exactly these bytes.
fn is_printed<S: Read>(alloc: Global, client: &mut S, replies: &[u8]) -> io::Result<bool> {
    let mut all = Vec::new(alloc);
    client.read_to_end(&mut all)?;
    Ok(all.as_slice() == replies)
}

/// Returns true if a client that opens a session and ends its connection gets these replies. It is
/// the last of `connections` connections.
fn is_answered<T: Net + AllocGlobal>(
    rt: &T,
    listener: &T::Listener,
    connections: u32,
    replies: &[u8],
) -> Result<bool, Fail> {
    let mut client = client(rt, listener, b"open A\nbye\n")?;
    if served(rt, listener, connections)? != all(connections) {
        return Ok(false);
    }
    Ok(is_printed(rt.alloc(), &mut client, replies)?)
}

#[test]
fn a_client_is_answered(rt: HostRuntime) -> Result<(), Fail> {
    let listener = rt.bind(SocketAddr::from((Ipv4Addr::LOCALHOST, 0)))?;
    assert!(rt; is_answered(&rt, &listener, 1, b"ok 0 0\nok\n")?);
    Ok(())
}

#[test]
fn half_a_line_is_not_carried_to_the_next_client(rt: HostRuntime) -> Result<(), Fail> {
    let listener = rt.bind(SocketAddr::from((Ipv4Addr::LOCALHOST, 0)))?;
    drop(client(&rt, &listener, b"open A\nplace A 0 a1 0")?);
    assert!(rt; is_answered(&rt, &listener, 2, b"ok 1 0\nok\n")?);
    Ok(())
}
