//! The sockets of teams, and their names.

use lf_floor::{Floor, team_name};
use lf_hub_wire::Door;
use lf_legalize::IndexSeeker;
use lf_task_run::is_selected;
use std::alloc::{AllocError, Global};

/// A team that is served, and the name of its socket without the ending.
#[derive(Drop)]
pub(crate) struct TeamSocket {
    team: u32,
    name: String,
}

/// Returns whether a byte of a team's name stands for itself in the name of its socket.
fn is_plain(byte: u8) -> bool {
    byte.is_ascii_alphanumeric() || byte == b'_' || byte == b'-'
}

/// Returns the digit of a number below 16.
fn hex_digit(number: u8) -> char {
    if number < 10 {
        return (b'0' + number) as char;
    }
    (b'A' + (number & 15) - 10) as char
}

/// Appends `%` and the two digits of a byte.
fn put_escaped(name: &mut String, byte: u8) -> Result<(), AllocError> {
    name.push('%')?;
    name.push(hex_digit(byte / 16))?;
    name.push(hex_digit(byte % 16))
}

/// Returns the name of a team's socket without its ending. Bytes other than letters, digits, `_` and `-`
/// become `%XX`. A team of the name `operator` gets `%6Fperator`, since `operator.sock` is the operator's.
fn socket_name(alloc: Global, team: &[u8]) -> Result<String, AllocError> {
    let mut name = String::new(alloc);
    for (at, byte) in team.iter().enumerate() {
        let is_first_of_operator = at == 0 && team == b"operator".as_slice();
        if is_plain(*byte) && !is_first_of_operator {
            name.push(*byte as char)?;
        } else {
            put_escaped(&mut name, *byte)?;
        }
    }
    Ok(name)
}

/// Returns the sockets of the selected teams.
pub(crate) fn sockets_of(
    alloc: Global,
    floor: &Floor<IndexSeeker>,
    teams: &[&str],
) -> Result<Vec<TeamSocket>, AllocError> {
    let frame = floor.placement().frame();
    let mut sockets = Vec::new(alloc);
    for team in 0..frame.teams.len() + 1 {
        if let Some(name) = team_name(frame, team) {
            if is_selected(teams, name) {
                sockets.push(TeamSocket {
                    team: team as u32,
                    name: socket_name(alloc, name)?,
                })?;
            }
        }
    }
    Ok(sockets)
}

/// Returns the doors of these sockets.
pub(crate) fn doors_of(alloc: Global, sockets: &[TeamSocket]) -> Result<Vec<Door<'_>>, AllocError> {
    let mut doors = Vec::new(alloc);
    for socket in sockets {
        doors.push(Door {
            name: socket.name.as_str(),
            team: socket.team,
            group: None,
        })?;
    }
    Ok(doors)
}
