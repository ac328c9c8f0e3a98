//! The sessions that an earlier process has left open.

ghost use Rattle.std.specs.Prelude.{◌≡◌, ◌<◌, ◌^◌, ◌++◌, IfOk, IsTrue, OnOk};
ghost use Rattle.lf_hub_clients.specs.Turns.{IsAnswered};
ghost use Rattle.lf_journal.specs.Journals.{IsSettled};
ghost use Rattle.lf_hub_serve.specs.Saving.{records_of_file};
ghost use Rattle.lf_hub_serve.specs.Leftovers.{Closes, start_record};

use crate::saving::write_records;
use crate::server::Failure;
use lf_hub_clients::{Floor, is_change};
use lf_journal::Journal;
use sqlite_disk::Disk;
use std::alloc::{AllocError, Global};

/// The bytes of a buffer for a line or a short reply.
const ROOM: usize = 4096;

/// Returns the text of the record of a line that the start of a hub has sent. The reply has its line feed.
fn start_record(alloc: Global, line: &[u8], reply: &[u8]) -> Result<Vec<u8>, AllocError>
    ensures { IfOk result (λ text. text.items ≡ start_record line.now reply.now) }
{
    let mut text = Vec::new(alloc);
    text.extend_from_slice(b"start\n")?;
    text.extend_from_slice(line)?;
    text.extend_from_slice(b"\n")?;
    text.extend_from_slice(reply)?;
    Ok(text)
}

/// Closes a session of a team, if it is open, and puts this into the journal.
fn close_session<F: Floor, D: Disk>(
    alloc: Global,
    time: u64,
    floor: &mut F,
    journal: &mut Journal<D>,
    team: u32,
    session: u32,
) -> Result<(), Failure>
    requires usable { IsTrue (D.Disk.is_usable journal.old.disk) }
    requires settled { IsTrue (D.Disk.is_clean journal.old.disk)
        → IsSettled D.Disk.seen D.Disk.may_leave journal.old.disk journal.old.end journal.old.len }
    requires time { time < 10 ^ 13 }
    ensures closes { OnOk result (Closes (IsAnswered F.answers F.shows) floor.old floor.new
        (IsTrue (D.Disk.is_clean journal.new.disk)) (records_of_file (D.Disk.seen journal.old.disk))
        (records_of_file (D.Disk.seen journal.new.disk))) }
    ensures settled { OnOk result (IsTrue (D.Disk.is_clean journal.new.disk)
        → IsSettled D.Disk.seen D.Disk.may_leave journal.new.disk journal.new.end journal.new.len) }
    ensures usable { OnOk result (IsTrue (D.Disk.is_usable journal.new.disk)) }
    ensures clean { IsTrue (D.Disk.is_clean journal.new.disk) → IsTrue (D.Disk.is_clean journal.old.disk) }
{
    let mut line = Vec::with_capacity(alloc, ROOM)?;
    let mut reply = Vec::with_capacity(alloc, ROOM)?;
    let outcome = floor.close(team, session, &mut line, &mut reply);
    if !is_change(outcome) {
        return Ok(());
    }
    let record = start_record(alloc, &line, &reply)?;
    write_records(alloc, time, journal, &record)
}

/// Closes all sessions of a team.
fn close_team<F: Floor, D: Disk>(
    alloc: Global,
    time: u64,
    floor: &mut F,
    journal: &mut Journal<D>,
    team: u32,
    sessions: u32,
) -> Result<(), Failure>
    requires usable { IsTrue (D.Disk.is_usable journal.old.disk) }
    requires settled { IsTrue (D.Disk.is_clean journal.old.disk)
        → IsSettled D.Disk.seen D.Disk.may_leave journal.old.disk journal.old.end journal.old.len }
    requires time { time < 10 ^ 13 }
    ensures closes { OnOk result (Closes (IsAnswered F.answers F.shows) floor.old floor.new
        (IsTrue (D.Disk.is_clean journal.new.disk)) (records_of_file (D.Disk.seen journal.old.disk))
        (records_of_file (D.Disk.seen journal.new.disk))) }
    ensures settled { OnOk result (IsTrue (D.Disk.is_clean journal.new.disk)
        → IsSettled D.Disk.seen D.Disk.may_leave journal.new.disk journal.new.end journal.new.len) }
    ensures usable { OnOk result (IsTrue (D.Disk.is_usable journal.new.disk)) }
    ensures clean { IsTrue (D.Disk.is_clean journal.new.disk) → IsTrue (D.Disk.is_clean journal.old.disk) }
{
    for session in 0..sessions {
        close_session(alloc, time, floor, journal, team, session)?;
    }
    Ok(())
}

/// Closes all sessions of so many teams, and puts this into the journal. So none is left that a client of
/// an earlier process has opened.
pub fn close_sessions<F: Floor, D: Disk>(
    alloc: Global,
    time: u64,
    floor: &mut F,
    journal: &mut Journal<D>,
    teams: u32,
    sessions: u32,
) -> Result<(), Failure>
    requires usable { IsTrue (D.Disk.is_usable journal.old.disk) }
    requires settled { IsTrue (D.Disk.is_clean journal.old.disk)
        → IsSettled D.Disk.seen D.Disk.may_leave journal.old.disk journal.old.end journal.old.len }
    requires time { time < 10 ^ 13 }
    ensures closes { OnOk result (Closes (IsAnswered F.answers F.shows) floor.old floor.new
        (IsTrue (D.Disk.is_clean journal.new.disk)) (records_of_file (D.Disk.seen journal.old.disk))
        (records_of_file (D.Disk.seen journal.new.disk))) }
    ensures settled { OnOk result (IsTrue (D.Disk.is_clean journal.new.disk)
        → IsSettled D.Disk.seen D.Disk.may_leave journal.new.disk journal.new.end journal.new.len) }
    ensures usable { OnOk result (IsTrue (D.Disk.is_usable journal.new.disk)) }
    ensures clean { IsTrue (D.Disk.is_clean journal.new.disk) → IsTrue (D.Disk.is_clean journal.old.disk) }
{
    for team in 0..teams {
        close_team(alloc, time, floor, journal, team, sessions)?;
    }
    Ok(())
}
