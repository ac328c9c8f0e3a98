//! The rounds of a hub.

ghost use Rattle.std.specs.Prelude.{◌≡◌, ◌++◌, [], List, ℕ, IsTrue, IfErr, OnErr, OnOk};
ghost use Rattle.lf_hub_clients.specs.Turns.{IsAnswered, Turn};
ghost use Rattle.lf_journal.specs.Journals.{IsSettled};
ghost use Rattle.lf_hub_serve.specs.Saving.{KeepsRecords, records_of_file};
ghost use Rattle.lf_hub_serve.specs.Served.{IsNew, IsServed, records_of};
ghost use Rattle.lf_hub_serve.specs.Serving.{Breaks, Serves};
ghost use Rattle.lf_hub_serve.specs.Servers.{BreaksOff, GoesOn, HasCause, HasFailed, service_of};

use crate::answers::answer_lines;
use crate::arrivals::{accept_clients, read_clients};
use crate::departures::send_replies;
use crate::operator::answer_operator;
use crate::saving::save;
use crate::server::{Ending, Failure, Server};
use lf_hub_clients::Floor;
use lf_hub_wire::Wire;
use lf_journal::Journal;
use sqlite_disk::Disk;
use std::alloc::{AllocError, Global};
use std::time::Clock;

/// The milliseconds for which a hub waits that has nothing to do.
const PAUSE: u32 = 1000;

/// The bytes that are read at once.
const PIECE: usize = 16_384;

/// Waits until there is something to do, at most this many milliseconds. Accepts clients, reads what
/// they have sent, and answers their lines. Returns whether there was anything to do.
fn gather<F: Floor, W: Wire>(
    clock: &impl Clock,
    server: &mut Server<F, W>,
    buffer: &mut [u8],
    limit: u32,
) -> Result<bool, AllocError>
    ensures ok { OnOk result (GoesOn (IsAnswered F.answers F.shows) W.calls server.old server.new) }
    ensures err { OnErr result (BreaksOff (IsAnswered F.answers F.shows) W.calls server.old server.new) }
{
    server.wire.wait(limit);
    let has_arrived = accept_clients(server)?;
    let has_come = read_clients(server, buffer)?;
    let was_answered = answer_lines(clock, server)?;
    Ok(has_arrived | has_come | was_answered)
}

/// Serves one round: gathers lines and answers them, saves the records, and sends the replies. Returns
/// whether there was anything to do.
fn serve_round<F: Floor, W: Wire, D: Disk>(
    alloc: Global,
    clock: &impl Clock,
    server: &mut Server<F, W>,
    journal: &mut Journal<D>,
    buffer: &mut [u8],
    slots: &mut Vec<usize>,
    limit: u32,
) -> Result<bool, Failure>
    requires usable { IsTrue (D.Disk.is_usable journal.old.disk) }
    requires settled { IsTrue (D.Disk.is_clean journal.old.disk)
        → IsSettled D.Disk.seen D.Disk.may_leave journal.old.disk journal.old.end journal.old.len }
    ensures ok { OnOk result ((saved : List ℕ) × Serves (IsAnswered F.answers F.shows)
        (service_of W.calls server.old []) (service_of W.calls server.new saved)
        × (IsTrue (D.Disk.is_clean journal.new.disk) → records_of_file (D.Disk.seen journal.new.disk)
        ≡ records_of_file (D.Disk.seen journal.old.disk) ++ saved)) }
    ensures err { OnErr result ((saved : List ℕ) × Breaks (IsAnswered F.answers F.shows)
        (service_of W.calls server.old []) (service_of W.calls server.new saved)
        × (IsTrue (D.Disk.is_clean journal.new.disk) → (c : List ℕ) → D.Disk.may_leave journal.new.disk c
        → KeepsRecords (records_of_file (D.Disk.seen journal.old.disk) ++ saved) server.new.core.hub.records c)) }
    ensures saved { OnOk result (server.new.core.hub.records ≡ []) }
    ensures cause { IfErr result (λ failure. HasFailed failure (D.Disk.faults journal.old.disk)
        (D.Disk.faults journal.new.disk) server.new.core.hub.records journal.new.end) }
    ensures calm { OnOk result (D.Disk.faults journal.new.disk ≡ D.Disk.faults journal.old.disk) }
    ensures settled { OnOk result (IsTrue (D.Disk.is_clean journal.new.disk)
        → IsSettled D.Disk.seen D.Disk.may_leave journal.new.disk journal.new.end journal.new.len) }
    ensures usable { OnOk result (IsTrue (D.Disk.is_usable journal.new.disk)) }
    ensures clean { IsTrue (D.Disk.is_clean journal.new.disk) → IsTrue (D.Disk.is_clean journal.old.disk) }
{
    let is_busy = gather(clock, server, buffer, limit)?;
    save(alloc, clock, server, journal, slots)?;
    let was_sent = send_replies(server)?;
    Ok(is_busy | was_sent)
}

/// Serves rounds until the operator stops the hub, or something fails.
fn serve_rounds<F: Floor, W: Wire, D: Disk>(
    alloc: Global,
    clock: &impl Clock,
    server: &mut Server<F, W>,
    journal: &mut Journal<D>,
    buffer: &mut [u8],
) -> Ending
    requires usable { IsTrue (D.Disk.is_usable journal.old.disk) }
    requires settled { IsTrue (D.Disk.is_clean journal.old.disk)
        → IsSettled D.Disk.seen D.Disk.may_leave journal.old.disk journal.old.end journal.old.len }
    ensures served { (saved : List ℕ) × Breaks (IsAnswered F.answers F.shows)
        (service_of W.calls server.old []) (service_of W.calls server.new saved)
        × (IsTrue (D.Disk.is_clean journal.new.disk) → (c : List ℕ) → D.Disk.may_leave journal.new.disk c
        → KeepsRecords (records_of_file (D.Disk.seen journal.old.disk) ++ saved) server.new.core.hub.records c) }
    ensures saved { result ≡ Ending.Stopped → server.new.core.hub.records ≡ [] }
    ensures cause { HasCause result (W.orders server.new.wire) (D.Disk.faults journal.old.disk)
        (D.Disk.faults journal.new.disk) server.new.core.hub.records journal.new.end }
{
    let mut slots = Vec::new(alloc);
    let mut operator_line = Vec::new(alloc);
    let mut limit = 0;
    for _ in 0..u64::MAX {
        match serve_round(alloc, clock, server, journal, buffer, &mut slots, limit) {
            Ok(is_busy) => limit = if is_busy { 0 } else { PAUSE },
            Err(failure) => return Ending::Failed(failure),
        }
        if answer_operator(server, &mut operator_line) {
            return Ending::Stopped;
        }
    }
    Ending::Spent
}

/// Serves the clients of a hub until the operator stops it, or something fails.
///
/// Each client is sent the replies to its own lines, and each of them only after the sync of the
/// changes that it may show. A crash at any moment leaves the records of all changes accepted before
/// the last sync, and all or none of those since.
pub fn serve_hub<F: Floor, W: Wire, D: Disk>(
    alloc: Global,
    clock: &impl Clock,
    server: &mut Server<F, W>,
    journal: &mut Journal<D>,
) -> Ending
    requires usable { IsTrue (D.Disk.is_usable journal.old.disk) }
    requires settled { IsTrue (D.Disk.is_clean journal.old.disk)
        → IsSettled D.Disk.seen D.Disk.may_leave journal.old.disk journal.old.end journal.old.len }
    ensures served { IsNew W.calls server.old → (safe held : List Turn)
        × IsServed (IsAnswered F.answers F.shows) server.old.floor (W.calls server.new.wire) safe held server.new.floor
        × (result ≡ Ending.Stopped → records_of held ≡ [])
        × (IsTrue (D.Disk.is_clean journal.new.disk) → (c : List ℕ) → D.Disk.may_leave journal.new.disk c
        → KeepsRecords (records_of_file (D.Disk.seen journal.old.disk) ++ records_of safe) (records_of held) c) }
    ensures cause { HasCause result (W.orders server.new.wire) (D.Disk.faults journal.old.disk)
        (D.Disk.faults journal.new.disk) server.new.core.hub.records journal.new.end }
{
    let Ok(mut buffer) = Vec::from_elem(alloc, 0u8, PIECE) else {
        return Ending::Failed(Failure::OutOfMemory);
    };
    serve_rounds(alloc, clock, server, journal, &mut buffer)
}
