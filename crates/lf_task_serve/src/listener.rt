//! The ports of services.

ghost use Rattle.std.specs.Prelude.{◌≡◌, ◌||◌, IfOk, false, is_err};
ghost use Rattle.lf_server.specs.Connections.{IsUnused};
ghost use Rattle.lf_task_serve.specs.Services.{IsLocal, Offers};

use crate::serve_lines::{MOST_LINES, limits_of};
use lf_io::DeviceFault;
use lf_server::{Acceptor, ClientReader, ClientWriter, Connection, ServiceConfig, accept_from};
use lf_task_faults::BindFailure;
use std::io;
use std::io::ErrorKind;
use std::net::{Ipv4Addr, Net, SocketAddr};

/// Offers services: listens on ports and accepts connections there.
pub trait PortListener: Acceptor {
    /// Listens on the port of the service. Further connections are accepted there. `Err` if it
    /// cannot listen on the port.
    fn listen(&mut self, offer: &ServiceConfig) -> Result<(), BindFailure>
        ensures offered { Offers (Self.offers self.old) (Self.offers self.new) offer.now }
        ensures unaccepted { Self.accepted self.new ≡ Self.accepted self.old }
        ensures failed { Self.has_failed self.new ≡ (is_err result || Self.has_failed self.old) };
}

/// Returns the service at this port of this machine, for `connections` connections.
pub(crate) fn local_service(port: u16, connections: u32) -> ServiceConfig
    ensures { IsLocal port connections result }
{
    ServiceConfig {
        ip: Ipv4Addr::LOCALHOST,
        port,
        connections,
        limits: limits_of(MOST_LINES),
    }
}

/// The network of a runtime, and the port on which it listens. Contracts know nothing of who
/// connects.
#[derive(Drop)]
pub struct NetListener<'a, T: Net> {
    net: &'a T,
    listener: Option<T::Listener>,
    failed: bool,
}

impl<'a, T: Net> NetListener<'a, T> {
    /// Makes a listener over this network. It listens on no port yet.
    pub fn new(net: &'a T) -> Self
        ensures fresh { ⟦<NetListener<'a, T> as Acceptor>⟧.has_failed result ≡ false }
    {
        NetListener {
            net,
            listener: None,
            failed: false,
        }
    }
}

/// Returns why the program could not listen on a port, by the system's error.
fn unbound_of(error: &io::Error) -> BindFailure {
    match error.kind() {
        ErrorKind::AddrInUse => BindFailure::InUse,
        ErrorKind::PermissionDenied => BindFailure::Denied,
        _ => BindFailure::Other,
    }
}

/// Accepts the next connection of the listener. `Err` if there is no listener, or no connection can
/// be accepted.
fn accepted<T: Net>(
    listener: &Option<T::Listener>,
) -> Result<Connection<ClientReader<T::Stream>, ClientWriter<T::Stream>>, DeviceFault>
    ensures { IfOk result (λ connection. IsUnused connection.reader.reads connection.reader.failed
        connection.writer.flushed connection.writer.failed) }
{
    let Some(listener) = listener else {
        return Err(DeviceFault);
    };
    match accept_from::<T>(listener) {
        Ok(connection) => Ok(connection),
        Err(_) => Err(DeviceFault),
    }
}

impl<'a, T: Net> Acceptor for NetListener<'a, T> {
    type Reader = ClientReader<T::Stream>;

    type Writer = ClientWriter<T::Stream>;

    ghost has_failed = { λ s. s.failed };

    fn accept(
        &mut self,
    ) -> Result<Connection<ClientReader<T::Stream>, ClientWriter<T::Stream>>, DeviceFault> {
        match accepted::<T>(&self.listener) {
            Ok(connection) => Ok(connection),
            Err(fault) => {
                self.failed = true;
                Err(fault)
            }
        }
    }

    fn close(&mut self, connection: Connection<ClientReader<T::Stream>, ClientWriter<T::Stream>>)
        ensures failed { self.new.failed ≡ self.old.failed }
    {
        drop(connection);
    }
}

impl<'a, T: Net> PortListener for NetListener<'a, T> {
    fn listen(&mut self, offer: &ServiceConfig) -> Result<(), BindFailure> {
        match self.net.bind(SocketAddr::from((offer.ip, offer.port))) {
            Ok(listener) => {
                self.listener = Some(listener);
                Ok(())
            }
            Err(error) => {
                self.failed = true;
                Err(unbound_of(&error))
            }
        }
    }
}
