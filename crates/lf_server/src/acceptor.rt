//! The source of connections.

ghost use Rattle.std.specs.Prelude.{◌≡◌, List, None, ℕ, Option, Bool, ◌||◌, IfOk, OnErr, is_err, false, true};
ghost use Rattle.lf_server.specs.Connections.{Accepted, Accepts, Closes, IsUnused, client, connection_state};
ghost use Rattle.lf_server.specs.Devices.{writer};

use crate::serve_loop::ServeLimits;
use crate::tcp_client::{ClientReader, ClientWriter};
use lf_io::{DeviceFault, Sink, Source};
use std::io;
use std::io::{Read, Write};
use std::net::{Ipv4Addr, Net, OpenListener, OpenStream};
use std::time::Duration;

/// The seconds a client may leave its replies unread before its connection ends.
const PATIENCE: u64 = 60;

/// A service: the address it listens on, the number of connections it serves, and the limits on
/// each.
#[derive(Clone, Copy, Debug, PartialEq, Eq)]
pub struct ServiceConfig {
    /// The address to listen on.
    pub ip: Ipv4Addr,
    pub port: u16,
    /// The number of connections to serve, one after the other.
    pub connections: u32,
    /// The limits on each connection.
    pub limits: ServeLimits,
}

/// An accepted connection.
#[derive(Drop)]
pub struct Connection<R, W> {
    /// The source of what the client sends.
    pub reader: R,
    /// The sink of what is sent to the client.
    pub writer: W,
}

/// A source of connections.
pub trait Acceptor {
    ghost use Rattle.lf_server.specs.declared.acceptor.ServiceConfig.{ServiceConfig};

    /// The source of what a client sends.
    type Reader: Source + Drop;

    /// The sink of what is sent to a client.
    type Writer: Sink + Drop;

    /// The clients accepted so far and the final states of the closed connections, if known.
    ghost accepted: { Self → Option Accepted } = { λ _. None };

    /// The services offered so far, the latest first, if known.
    ghost offers: { Self → Option (List ServiceConfig) } = { λ _. None };

    /// Whether a call has failed.
    ghost has_failed: { Self → Bool };

    /// Accepts the next connection, which is unused: no byte is read from it or written to it yet.
    /// `Err` if no connection can be accepted, or it cannot be both read from and written to.
    fn accept(&mut self) -> Result<Connection<Self::Reader, Self::Writer>, DeviceFault>
        ensures ok { IfOk result (λ connection. Accepts (accepted self.old) (accepted self.new)
            (client (Self.Reader.remaining connection.reader) (Self.Writer.contents connection.writer))) }
        ensures unused { IfOk result
            (λ connection. IsUnused (Self.Reader.reads connection.reader) (Self.Reader.has_failed connection.reader)
            (Self.Writer.is_flushed connection.writer) (Self.Writer.has_failed connection.writer)) }
        ensures err { OnErr result (accepted self.new ≡ accepted self.old) }
        ensures offers { offers self.new ≡ offers self.old }
        ensures failed { has_failed self.new ≡ (is_err result || has_failed self.old) };

    /// Closes a connection that was served to its end.
    fn close(&mut self, connection: Connection<Self::Reader, Self::Writer>)
        ensures closed { Closes (accepted self.old) (accepted self.new)
            (connection_state (Self.Reader.remaining connection.reader) (Self.Reader.reads connection.reader)
            (Self.Reader.has_failed connection.reader)
            (writer (Self.Writer.contents connection.writer) (Self.Writer.is_flushed connection.writer)
            (Self.Writer.has_failed connection.writer))) }
        ensures offers { offers self.new ≡ offers self.old }
        ensures failed { has_failed self.new ≡ has_failed self.old };
}

/// Makes a connection over a stream. `Err` if the stream cannot be duplicated.
fn connection_over<S: Read + Write + OpenStream + Drop>(
    stream: S,
) -> io::Result<Connection<ClientReader<S>, ClientWriter<S>>>
    ensures { IfOk result (λ connection. IsUnused connection.reader.reads connection.reader.failed
        connection.writer.flushed connection.writer.failed) }
{
    let copy = stream.try_clone()?;
    let _ = stream.set_nodelay(true);
    let _ = stream.set_write_timeout(Some(Duration::from_secs(PATIENCE)));
    Ok(Connection {
        reader: ClientReader::new(stream),
        writer: ClientWriter::new(copy),
    })
}

/// Accepts the next connection of the listener. A client that leaves its replies unread for 60
/// seconds ends its connection. `Err` if no connection can be accepted, or it cannot be both read
/// from and written to.
pub fn accept_from<T: Net>(
    listener: &T::Listener,
) -> io::Result<Connection<ClientReader<T::Stream>, ClientWriter<T::Stream>>>
    ensures { IfOk result (λ connection. IsUnused connection.reader.reads connection.reader.failed
        connection.writer.flushed connection.writer.failed) }
{
    let (stream, _) = listener.accept()?;
    connection_over(stream)
}

/// The connections of a borrowed listener. Contracts know nothing of who connects.
#[derive(Drop)]
pub(crate) struct FromListener<'a, T: Net> {
    listener: &'a T::Listener,
    failed: bool,
}

impl<'a, T: Net> FromListener<'a, T> {
    /// Makes an acceptor over the listener. No call of it has failed yet.
    pub(crate) fn new(listener: &'a T::Listener) -> FromListener<'a, T> {
        FromListener {
            listener,
            failed: false,
        }
    }
}

impl<'a, T: Net> Acceptor for FromListener<'a, T> {
    type Reader = ClientReader<T::Stream>;

    type Writer = ClientWriter<T::Stream>;

    ghost has_failed = { λ a. a.failed };

    fn accept(
        &mut self,
    ) -> Result<Connection<ClientReader<T::Stream>, ClientWriter<T::Stream>>, DeviceFault> {
        match accept_from::<T>(self.listener) {
            Ok(connection) => Ok(connection),
            Err(_) => {
                self.failed = true;
                Err(DeviceFault)
            }
        }
    }

    fn close(&mut self, connection: Connection<ClientReader<T::Stream>, ClientWriter<T::Stream>>)
        ensures failed { self.new.failed ≡ self.old.failed }
    {
        drop(connection);
    }
}
