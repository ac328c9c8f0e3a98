//! Listening sockets in a folder.

use lf_hub_clients::Access;
use mio::net::{UnixListener, UnixStream};
use std::fs::Permissions;
use std::io::ErrorKind;
use std::os::unix::fs::{FileTypeExt, PermissionsExt, chown};
use std::{fs, io};

/// The mode of a socket to which its owner and its group may connect.
const SHARED: u32 = 0o660;

/// The mode of a socket to which only its owner may connect.
const PRIVATE: u32 = 0o600;

/// The sockets of a team: `NAME.sock` for changes, and `NAME.query.sock` for queries.
#[derive(Clone, Copy)]
pub struct Door<'a> {
    pub name: &'a str,
    pub team: u32,
    /// The group that may connect. `None` for the group of the process.
    pub group: Option<u32>,
}

/// A listening socket of a team.
#[derive(Drop)]
pub(crate) struct Listener {
    pub(crate) inner: UnixListener,
    pub(crate) team: u32,
    pub(crate) access: Access,
    /// Whether a client may wait.
    pub(crate) is_ready: bool,
}

/// Returns whether a socket is at the path, to which nobody listens. `Err` if somebody does, or if
/// another thing is there.
fn is_stale(rt: &HostRuntime, path: &str) -> io::Result<bool> {
    match fs::symlink_metadata(rt, path) {
        Ok(found) => {
            if !found.file_type().is_socket() {
                return Err(ErrorKind::AlreadyExists.into());
            }
        }
        Err(error) => {
            if error.kind() == ErrorKind::NotFound {
                return Ok(false);
            }
            return Err(error);
        }
    }
    match UnixStream::connect(rt, path) {
        Ok(_) => Err(ErrorKind::AddrInUse.into()),
        Err(error) => match error.kind() {
            ErrorKind::ConnectionRefused => Ok(true),
            ErrorKind::WouldBlock => Err(ErrorKind::AddrInUse.into()),
            _ => Err(error),
        },
    }
}

/// Listens at a path. A socket that an earlier process has left there is removed, if nobody listens
/// to it.
fn listen(rt: &HostRuntime, path: &str, mode: u32, group: Option<u32>) -> io::Result<UnixListener> {
    if is_stale(rt, path)? {
        fs::remove_file(rt, path)?;
    }
    let listener = UnixListener::bind(rt, path)?;
    if group.is_some() {
        chown(rt, path, None, group)?;
    }
    fs::set_permissions(rt, path, Permissions::from_mode(mode))?;
    Ok(listener)
}

/// Listens to the socket of a team's clients with this access.
pub(crate) fn listen_to_team(
    rt: &HostRuntime,
    folder: &str,
    door: &Door<'_>,
    access: Access,
) -> io::Result<Listener> {
    let name = door.name;
    let path = match access {
        Access::Changes => format!(in rt.alloc(); "{folder}/{name}.sock")?,
        Access::Queries => format!(in rt.alloc(); "{folder}/{name}.query.sock")?,
    };
    Ok(Listener {
        inner: listen(rt, path.as_str(), SHARED, door.group)?,
        team: door.team,
        access,
        is_ready: true,
    })
}

/// Listens to the operator's socket.
pub(crate) fn listen_to_operator(rt: &HostRuntime, folder: &str) -> io::Result<UnixListener> {
    let path = format!(in rt.alloc(); "{folder}/operator.sock")?;
    listen(rt, path.as_str(), PRIVATE, None)
}
