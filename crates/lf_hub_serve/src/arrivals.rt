//! Clients that connect, and what they send.

ghost use Rattle.std.specs.Prelude.{◌≡◌, ◌<◌, ◌≤◌, OnErr, OnOk, length};
ghost use Rattle.lf_hub_clients.specs.Connections.{room_of};
ghost use Rattle.lf_hub_clients.specs.Turns.{IsAnswered};
ghost use Rattle.lf_hub.specs.Machine.{connection_at};
ghost use Rattle.lf_hub_serve.specs.Serving.{end_of_line};
ghost use Rattle.lf_hub_serve.specs.Servers.{BreaksOff, GoesOn};

use crate::departures::hang_up;
use crate::server::Server;
use lf_hub_clients::{Client, Floor};
use lf_hub_wire::{Incoming, Wire};
use std::alloc::AllocError;

/// The most clients that are accepted in a round.
const ARRIVALS: u32 = 64;

/// Accepts a client that waits, and returns whether there was one.
fn accept_client<F: Floor, W: Wire>(server: &mut Server<F, W>) -> Result<bool, AllocError>
    ensures ok { OnOk result (GoesOn (IsAnswered F.answers F.shows) W.calls server.old server.new) }
    ensures err { OnErr result (BreaksOff (IsAnswered F.answers F.shows) W.calls server.old server.new) }
{
    let Some(arrival) = server.wire.accept() else {
        return Ok(false);
    };
    let slot = server.core.opens(arrival.team, arrival.access)?;
    let Some(client) = server.core.client(slot) else {
        unreachable!();
    };
    server.wire.seat(client.number(), arrival.stream);
    Ok(true)
}

/// Accepts clients that wait, and returns whether there was one.
pub(crate) fn accept_clients<F: Floor, W: Wire>(
    server: &mut Server<F, W>,
) -> Result<bool, AllocError>
    ensures ok { OnOk result (GoesOn (IsAnswered F.answers F.shows) W.calls server.old server.new) }
    ensures err { OnErr result (BreaksOff (IsAnswered F.answers F.shows) W.calls server.old server.new) }
{
    for count in 0..ARRIVALS {
        if !accept_client(server)? {
            return Ok(count > 0);
        }
    }
    Ok(true)
}

/// Returns the line feed that ends the line that a client has begun, if it has begun one.
fn end_of_line(client: &Client) -> &'static [u8]
    ensures { result.now ≡ end_of_line client.now }
{
    if client.has_begun() { b"\n" } else { b"" }
}

/// Reads from the client in a slot, which has room for so many bytes, and returns whether anything has
/// come. A client whose connection has failed leaves.
fn read_client<F: Floor, W: Wire>(
    server: &mut Server<F, W>,
    slot: usize,
    number: u64,
    line_end: &[u8],
    buffer: &mut [u8],
) -> Result<bool, AllocError>
    requires slot { slot < length server.old.core.hub.slots }
    requires number { number ≡ (connection_at slot server.old.core.hub.slots).number }
    requires line_end { line_end.now ≡ end_of_line (connection_at slot server.old.core.hub.slots) }
    requires room { length buffer.old ≤ room_of (connection_at slot server.old.core.hub.slots) }
    requires some { 0 < length buffer.old }
    ensures ok { OnOk result (GoesOn (IsAnswered F.answers F.shows) W.calls server.old server.new) }
    ensures err { OnErr result (BreaksOff (IsAnswered F.answers F.shows) W.calls server.old server.new) }
{
    match server.wire.read(number, buffer) {
        Incoming::Bytes { count } => {
            server.core.comes(slot, &buffer[..count])?;
            Ok(true)
        }
        Incoming::Nothing => Ok(false),
        Incoming::End => {
            server.core.comes(slot, line_end)?;
            Ok(true)
        }
        Incoming::Failed => {
            hang_up(server, slot)?;
            Ok(true)
        }
    }
}

/// Reads what the client in a slot has sent, if there is room for it, and returns whether anything has
/// come. `None` if there is no such slot.
fn read_slot<F: Floor, W: Wire>(
    server: &mut Server<F, W>,
    slot: usize,
    buffer: &mut [u8],
) -> Result<Option<bool>, AllocError>
    ensures ok { OnOk result (GoesOn (IsAnswered F.answers F.shows) W.calls server.old server.new) }
    ensures err { OnErr result (BreaksOff (IsAnswered F.answers F.shows) W.calls server.old server.new) }
{
    let Some(client) = server.core.client(slot) else {
        return Ok(None);
    };
    let room = client.room().min(buffer.len());
    if room == 0 {
        return Ok(Some(false));
    }
    let number = client.number();
    let line_end = end_of_line(client);
    let has_come = read_client(server, slot, number, line_end, &mut buffer[..room])?;
    Ok(Some(has_come))
}

/// Reads what all clients have sent, and returns whether anything has come.
pub(crate) fn read_clients<F: Floor, W: Wire>(
    server: &mut Server<F, W>,
    buffer: &mut [u8],
) -> Result<bool, AllocError>
    ensures ok { OnOk result (GoesOn (IsAnswered F.answers F.shows) W.calls server.old server.new) }
    ensures err { OnErr result (BreaksOff (IsAnswered F.answers F.shows) W.calls server.old server.new) }
{
    let mut is_busy = false;
    for slot in 0..usize::MAX {
        match read_slot(server, slot, buffer)? {
            Some(has_come) => is_busy |= has_come,
            None => return Ok(is_busy),
        }
    }
    Ok(is_busy)
}
