//! The whole task of a hub.

ghost use Rattle.std.specs.Prelude.{◌≡◌, [], IfErr, IfOk, IsTrue, map};
ghost use Rattle.lf_journal.specs.Journals.{IsSettled};
ghost use Rattle.lf_task_files.specs.Inputs.{path_of};
ghost use Rattle.lf_task_hub.specs.Hubs.{IsHubFault, IsHubServed, IsOfHub, ServesAfterClosing, ServesFrom, ServesRestored};

use crate::failure::{journal_fault, serving_fault, socket_fault};
use crate::input::HubInput;
use crate::journal::{due_beginning, open_journal};
use crate::socket_names::{TeamSocket, doors_of, sockets_of};
use lf_floor::Floor;
use lf_hub::Core;
use lf_hub_floor::TeamFloor;
use lf_hub_host::HubHost;
use lf_hub_serve::{Ending, Server, close_sessions, serve_hub, time_of};
use lf_hub_wire::Wire;
use lf_journal::Journal;
use lf_legalize::IndexSeeker;
use lf_task_designs::{InputFiles, load_files};
use lf_task_faults::{Fault, HubFailure};
use lf_task_files::open_floor;
use lf_task_run::all_known;
use sqlite_disk::Disk;
use std::alloc::Global;
use std::time::Clock;

/// Serves the clients of this wire over a floor, until the operator stops the hub.
fn serve_wire<'a, W: Wire + Drop, D: Disk>(
    alloc: Global,
    clock: &impl Clock,
    floor: TeamFloor<IndexSeeker>,
    teams: usize,
    wire: W,
    journal: &mut Journal<D>,
    folder: &'a str,
) -> Result<u8, Fault<'a>>
    requires unused { W.calls wire ≡ [] }
    requires usable { IsTrue (D.Disk.is_usable journal.old.disk) }
    requires settled { IsTrue (D.Disk.is_clean journal.old.disk)
        → IsSettled D.Disk.seen D.Disk.may_leave journal.old.disk journal.old.end journal.old.len }
    ensures ok { IfOk result (λ status. ServesFrom floor × (status ≡ 0)) }
    ensures err { IfErr result IsOfHub }
{
    let Ok(core) = Core::new(alloc, teams) else {
        return Err(Fault::SetupOutOfMemory);
    };
    let mut server = Server { core, floor, wire };
    match serve_hub(alloc, clock, &mut server, journal) {
        Ending::Stopped => Ok(0),
        Ending::Failed(failure) => Err(serving_fault(folder, failure)),
        Ending::Spent => Ok(0),
    }
}

/// Closes the sessions that an earlier process has left open, and serves the clients of these sockets over
/// the floor, until the operator stops the hub.
fn serve_floor<'a, H: HubHost>(
    alloc: Global,
    host: &H,
    floor: Floor<IndexSeeker>,
    journal: &mut Journal<H::Segment>,
    sockets: &[TeamSocket],
    input: HubInput<'a>,
) -> Result<u8, Fault<'a>>
    requires usable { IsTrue (H.Segment.Disk.is_usable journal.old.disk) }
    requires settled { IsTrue (H.Segment.Disk.is_clean journal.old.disk)
        → IsSettled H.Segment.Disk.seen H.Segment.Disk.may_leave journal.old.disk journal.old.end journal.old.len }
    ensures ok { IfOk result (λ status. ServesAfterClosing floor × (status ≡ 0)) }
    ensures err { IfErr result IsOfHub }
{
    let teams = floor.placement().frame().teams.len() + 1;
    let mut floor = TeamFloor::new(floor);
    let time = time_of(host.clock());
    let sessions = input.design.limits.sessions;
    if let Err(failure) = close_sessions(alloc, time, &mut floor, journal, teams as u32, sessions) {
        return Err(serving_fault(input.journal, failure));
    }
    let doors = doors_of(alloc, sockets)?;
    match host.listen(input.sockets, doors.as_slice()) {
        Ok(wire) => {
            host.tell("ready: clients may connect");
            serve_wire(
                alloc,
                host.clock(),
                floor,
                teams,
                wire,
                journal,
                input.journal,
            )
        }
        Err(error) => Err(socket_fault(input.sockets, &error)),
    }
}

/// Locks the journal in this folder. `Err` if another hub has locked it, or if the system refuses.
fn lock_journal<'a, H: HubHost>(host: &H, folder: &'a str) -> Result<H::Lock, Fault<'a>>
    ensures { IfErr result IsOfHub }
{
    match host.lock(folder) {
        Ok(Some(lock)) => Ok(lock),
        Ok(None) => Err(Fault::Hub(folder, HubFailure::InUse)),
        Err(error) => Err(journal_fault(folder, &error)),
    }
}

/// Runs the journal on the floor, and serves the clients of these sockets over it.
fn serve_restored<'a, H: HubHost, T: InputFiles>(
    alloc: Global,
    texts: &T,
    host: &H,
    floor: Floor<IndexSeeker>,
    sockets: &[TeamSocket],
    input: HubInput<'a>,
) -> Result<u8, Fault<'a>>
    ensures ok { IfOk result (λ status. ServesRestored input.entry.design.limits (T.gives texts.now)
        input.entry.design.def.now (map (λ lef. lef.now) input.entry.design.lefs.now)
        (path_of input.entry.design.state) floor × (status ≡ 0)) }
    ensures err { IfErr result IsOfHub }
{
    let mut floor = floor;
    let due = due_beginning(alloc, texts, input)?;
    let _lock = lock_journal(host, input.journal)?;
    let segment = match host.open_segment(input.journal) {
        Ok(segment) => segment,
        Err(error) => return Err(journal_fault(input.journal, &error)),
    };
    let time = time_of(host.clock());
    let mut journal = open_journal(alloc, time, segment, &mut floor, &due, input.journal)?;
    host.tell("the journal is restored");
    serve_floor(alloc, host, floor, &mut journal, sockets, input)
}

/// Serves the clients of a hub over the design of files, until the operator stops it. Returns the exit
/// status 0.
///
/// `Err` is the first fault, in this order: the LEF files, the DEF file, the design, the state, the names
/// of the teams, the journal, the sockets.
pub fn serve_hub_files<'a, T: InputFiles, H: HubHost>(
    alloc: Global,
    texts: &T,
    host: &H,
    input: HubInput<'a>,
) -> Result<u8, Fault<'a>>
    ensures ok { IfOk result (λ status. IsHubServed input.entry.design.limits (T.gives texts.now)
        input.entry.design.def.now (map (λ lef. lef.now) input.entry.design.lefs.now)
        (path_of input.entry.design.state) × (status ≡ 0)) }
    ensures err { IfErr result (λ fault. IsHubFault input.entry.design.limits (T.gives texts.now)
        input.entry.design.def.now (map (λ lef. lef.now) input.entry.design.lefs.now)
        (path_of input.entry.design.state) fault × IsOfHub fault) }
{
    let design = input.design;
    let loaded = load_files(alloc, design.limits, texts, design.def, design.lefs)?;
    let floor = open_floor(alloc, texts, loaded, design.state)?;
    all_known(&floor, input.teams)?;
    let sockets = sockets_of(alloc, &floor, input.teams)?;
    serve_restored(alloc, texts, host, floor, sockets.as_slice(), input)
}
