//! Replies that are sent, and clients that leave.

ghost use Rattle.std.specs.Prelude.{◌≡◌, OnErr, OnOk};
ghost use Rattle.lf_hub_clients.specs.Turns.{IsAnswered};
ghost use Rattle.lf_hub_serve.specs.Servers.{BreaksOff, GoesOn};

use crate::server::Server;
use lf_hub_clients::{Client, Floor, Stage};
use lf_hub_wire::{Outgoing, Wire};
use std::alloc::AllocError;

/// Has the client in a slot leave, and closes its connection.
pub(crate) fn hang_up<F: Floor, W: Wire>(
    server: &mut Server<F, W>,
    slot: usize,
) -> Result<(), AllocError>
    ensures ok { OnOk result (GoesOn (IsAnswered F.answers F.shows) W.calls server.old server.new) }
    ensures records { server.new.core.hub.records ≡ server.old.core.hub.records }
    ensures err { OnErr result (BreaksOff (IsAnswered F.answers F.shows) W.calls server.old server.new) }
{
    if !server.core.is_live(slot) {
        return Ok(());
    }
    let Some(client) = server.core.client(slot) else {
        return Ok(());
    };
    let number = client.number();
    server.core.leaves(slot)?;
    server.wire.close(number);
    Ok(())
}

/// Sends the client in a slot what may be sent. A client whose connection has failed leaves. Returns
/// whether there was anything to do.
fn send_client<F: Floor, W: Wire>(
    server: &mut Server<F, W>,
    slot: usize,
) -> Result<bool, AllocError>
    ensures ok { OnOk result (GoesOn (IsAnswered F.answers F.shows) W.calls server.old server.new) }
    ensures records { server.new.core.hub.records ≡ server.old.core.hub.records }
    ensures err { OnErr result (BreaksOff (IsAnswered F.answers F.shows) W.calls server.old server.new) }
{
    let Some(client) = server.core.client(slot) else {
        return Ok(false);
    };
    if client.ready().is_empty() {
        return Ok(false);
    }
    match server.wire.write(client.number(), client.ready()) {
        Outgoing::Bytes { count } => {
            server.core.sends(slot, count)?;
            Ok(true)
        }
        Outgoing::Nothing => Ok(false),
        Outgoing::Failed => {
            hang_up(server, slot)?;
            Ok(true)
        }
    }
}

/// Returns whether nothing is left to do for a client that sends no more or has ended the connection:
/// all its lines are answered, and it was sent all replies that may be sent.
fn is_finished(client: &Client, has_ended: bool) -> bool {
    if !client.ready().is_empty() {
        return false;
    }
    match client.stage() {
        Stage::Open => has_ended && !client.may_answer(),
        Stage::Done => true,
        Stage::Leaving => false,
        Stage::Free => false,
    }
}

/// Has the client in a slot leave if nothing is left to do for it.
fn end_client<F: Floor, W: Wire>(server: &mut Server<F, W>, slot: usize) -> Result<(), AllocError>
    ensures ok { OnOk result (GoesOn (IsAnswered F.answers F.shows) W.calls server.old server.new) }
    ensures records { server.new.core.hub.records ≡ server.old.core.hub.records }
    ensures err { OnErr result (BreaksOff (IsAnswered F.answers F.shows) W.calls server.old server.new) }
{
    let Some(client) = server.core.client(slot) else {
        return Ok(());
    };
    let has_ended = server.wire.has_ended(client.number());
    if !is_finished(client, has_ended) {
        return Ok(());
    }
    hang_up(server, slot)
}

/// Sends the client in a slot what may be sent, and ends it if nothing is left to do for it. Returns
/// whether there was anything to do. `None` if there is no such slot.
fn serve_slot<F: Floor, W: Wire>(
    server: &mut Server<F, W>,
    slot: usize,
) -> Result<Option<bool>, AllocError>
    ensures ok { OnOk result (GoesOn (IsAnswered F.answers F.shows) W.calls server.old server.new) }
    ensures records { server.new.core.hub.records ≡ server.old.core.hub.records }
    ensures err { OnErr result (BreaksOff (IsAnswered F.answers F.shows) W.calls server.old server.new) }
{
    if server.core.client(slot).is_none() {
        return Ok(None);
    }
    let was_sent = send_client(server, slot)?;
    end_client(server, slot)?;
    Ok(Some(was_sent))
}

/// Sends all clients what may be sent, and ends those for which nothing is left to do. Returns whether
/// there was anything to do. If there was, more lines may be answered now.
pub(crate) fn send_replies<F: Floor, W: Wire>(server: &mut Server<F, W>) -> Result<bool, AllocError>
    ensures ok { OnOk result (GoesOn (IsAnswered F.answers F.shows) W.calls server.old server.new) }
    ensures records { server.new.core.hub.records ≡ server.old.core.hub.records }
    ensures err { OnErr result (BreaksOff (IsAnswered F.answers F.shows) W.calls server.old server.new) }
{
    let mut is_busy = false;
    for slot in 0..usize::MAX {
        match serve_slot(server, slot)? {
            Some(was_sent) => is_busy |= was_sent,
            None => return Ok(is_busy),
        }
    }
    Ok(is_busy)
}
