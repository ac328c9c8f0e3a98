//! Connections served one after the other.

ghost use Rattle.std.specs.Prelude.{◌≡◌, ◌↔◌, ◌≤◌, ◌||◌, List, OnErr, OnOk, false, is_err, length};
ghost use Rattle.lf_rules.specs.Legalizer.{Legalizer};
ghost use Rattle.lf_server.specs.Connections.{AreServed, ClientBytes, ServesConnections, IsUnused, ServesClient, ServesNext, ConnectionState, KeepsDesign, client, connection_state};
ghost use Rattle.lf_server.specs.Devices.{writer};

use crate::acceptor::{Acceptor, Connection, FromListener};
use crate::serve_loop::{ServeLimits, serve};
use lf_floor::Floor;
use lf_io::{DeviceFault, Sink, Source};
use lf_legalize::Seeker;
use std::alloc::Global;
use std::net::Net;

/// How connections were served, one after the other.
#[derive(Clone, Copy, Debug, PartialEq, Eq)]
pub struct TcpServed {
    /// The connections that were accepted and served to their ends.
    pub connections: u32,
    /// Whether the service ended early: a connection could not be accepted, or not be both read
    /// from and written to.
    pub accept_fault: bool,
}

/// Serves a connection to its end and returns it.
fn serve_connection<R: Source + Drop, W: Sink + Drop, K: Seeker + Drop>(
    alloc: Global,
    floor: &mut Floor<K>,
    connection: Connection<R, W>,
    limits: ServeLimits,
) -> Connection<R, W>
    requires unused { IsUnused (R.reads connection.reader) (R.has_failed connection.reader)
        (W.is_flushed connection.writer)
        (W.has_failed connection.writer) }
    ensures served { (l : Legalizer) → ServesClient l limits.lines limits.reads
        (client (R.remaining connection.reader) (W.contents connection.writer))
        (connection_state (R.remaining result.reader) (R.reads result.reader) (R.has_failed result.reader)
        (writer (W.contents result.writer) (W.is_flushed result.writer) (W.has_failed result.writer)))
        floor.old floor.new }
    ensures stays { KeepsDesign floor.old floor.new }
{
    let Connection {
        mut reader,
        mut writer,
    } = connection;
    serve(alloc, floor, &mut reader, &mut writer, limits);
    Connection { reader, writer }
}

/// Accepts one connection, serves it to its end, and closes it. `Err` if no connection is accepted;
/// then no line is read.
fn serve_next<A: Acceptor, K: Seeker + Drop>(
    alloc: Global,
    floor: &mut Floor<K>,
    acceptor: &mut A,
    limits: ServeLimits,
) -> Result<(), DeviceFault>
    ensures served { OnOk result
        (ServesNext limits.lines limits.reads (A.accepted acceptor.old) (A.accepted acceptor.new) floor.old floor.new) }
    ensures kept { OnErr result (floor.new ≡ floor.old) }
    ensures unaccepted { OnErr result (A.accepted acceptor.new ≡ A.accepted acceptor.old) }
    ensures offers { A.offers acceptor.new ≡ A.offers acceptor.old }
    ensures failed { A.has_failed acceptor.new ≡ (is_err result || A.has_failed acceptor.old) }
    ensures stays { KeepsDesign floor.old floor.new }
{
    let connection = acceptor.accept()?;
    let served = serve_connection(alloc, floor, connection, limits);
    acceptor.close(served);
    Ok(())
}

/// Accepts `connections` connections and serves each to its end before the next. Sessions, places
/// and commits of one remain for the next. How a connection ends does not matter. If one cannot be
/// accepted, or not be both read from and written to, the service ends; otherwise all are served.
///
/// Each is served as by `serve`, within the limits, over what its client sends, and its client
/// receives the replies. A connection ends at a fault of its reader or writer only if that has
/// failed or the limit on reads is reached. If the acceptor had not failed before, it has failed
/// exactly if there is an accept fault. The frame and the positions of components are unchanged,
/// and a fully legal committed design stays fully legal.
pub fn serve_connections<A: Acceptor, K: Seeker + Drop>(
    alloc: Global,
    floor: &mut Floor<K>,
    acceptor: &mut A,
    connections: u32,
    limits: ServeLimits,
) -> TcpServed
    ensures most { result.connections ≤ connections }
    ensures all { (result.connections ≡ connections) ↔ (result.accept_fault ≡ false) }
    ensures offers { A.offers acceptor.new ≡ A.offers acceptor.old }
    ensures failed { A.has_failed acceptor.new ≡ (result.accept_fault || A.has_failed acceptor.old) }
    ensures served { AreServed limits.lines limits.reads result.connections (A.accepted acceptor.old)
        (A.accepted acceptor.new)
        floor.old floor.new }
    ensures stays { KeepsDesign floor.old floor.new }
{
    for served in 0..connections {
        match serve_next(alloc, floor, acceptor, limits) {
            Ok(()) => {}
            Err(_) => {
                return TcpServed {
                    connections: served,
                    accept_fault: true,
                };
            }
        }
    }
    TcpServed {
        connections,
        accept_fault: false,
    }
}

/// Serves `connections` connections of the listener, as `serve_connections` does. A client that
/// leaves its replies unread for 60 seconds ends its connection.
pub fn serve_tcp<T: Net + AllocGlobal, K: Seeker + Drop>(
    rt: &T,
    floor: &mut Floor<K>,
    listener: &T::Listener,
    connections: u32,
    limits: ServeLimits,
) -> TcpServed
    ensures most { result.connections ≤ connections }
    ensures all { (result.connections ≡ connections) ↔ (result.accept_fault ≡ false) }
    ensures served { (clients : List ClientBytes) × (closed : List ConnectionState)
        × (length clients ≡ result.connections)
        × ((l : Legalizer) → ServesConnections l limits.lines limits.reads clients closed floor.old floor.new) }
    ensures stays { KeepsDesign floor.old floor.new }
{
    let mut acceptor = FromListener::<T>::new(listener);
    serve_connections(rt.alloc(), floor, &mut acceptor, connections, limits)
}
