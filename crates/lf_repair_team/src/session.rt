//! The session of a team: it is opened, committed, moved back and closed.

ghost use Rattle.std.specs.Prelude.{◌≡◌, IfOk, IsTrue, OnErr, OnOk, false, true};
ghost use Rattle.lf_rules.specs.Legalizer.{Legalizer};
ghost use Rattle.lf_floor_model.specs.Steps.{AllCommittedIn};
ghost use Rattle.lf_floor_model.specs.VerbLaws.{is_ok};
ghost use Rattle.lf_repair_team.specs.CellEdits.{AreBackAtCommitted, KeepsCommittedAndSettings, KeepsOtherSettings, KeepsPlaces, SameCells, SaysOpened, settings_without};
ghost use Rattle.lf_repair_team.specs.TeamRepairs.{ChangesOnly, settings_in};
ghost use Rattle.lf_repair_team.specs.Runs.{IsRunWithCutLine, IsWrittenRun};

use crate::cell_edits::{Buffers, TeamSession, continue_unless_exhausted, run_action};
use crate::run_command::{RepairFault, is_accepted, run_command};
use lf_floor::{Floor, query_keeps_state};
use lf_io::Sink;
use lf_legalize::Seeker;
use lf_proto::{Action, Change, Command, Refusal, Reply, TeamCommand};
use lf_rules::legalizer_exists;

/// Opens a session of the team.
pub fn open<S: Seeker + Drop, K: Sink>(
    floor: &mut Floor<S>,
    team: &[u8],
    buffers: &mut Buffers,
    lines: &mut K,
) -> Result<u32, RepairFault>
    ensures run { (l : Legalizer) → IfOk result (λ _.
        IsWrittenRun l team.now floor.old (K.contents lines.old) (K.contents lines.new) floor.new) }
    ensures err { (l : Legalizer) → OnErr result (
        IsRunWithCutLine l team.now floor.old (K.contents lines.old) (K.contents lines.new) floor.new) }
    ensures only { ChangesOnly team.now floor.old floor.new }
    ensures cells { SameCells team.now floor.old floor.new }
    ensures settings { IfOk result (λ session.
        settings_without session floor.new team.now ≡ settings_in floor.old team.now) }
{
    legalizer_exists();
    query_keeps_state();
    let request = Command::To {
        team,
        order: TeamCommand::Open,
    };
    match run_command(floor, &request, &mut buffers.line, lines) {
        Ok(reply) => session_of(&reply),
        Err(fault) => Err(fault),
    }
}

/// The number of the opened session.
fn session_of(reply: &Reply) -> Result<u32, RepairFault>
    ensures { IfOk result (λ session. SaysOpened session reply.now) }
{
    match reply {
        Reply::Opened { session, .. } => Ok(*session),
        Reply::Refused(refusal) => Err(RepairFault::Refused(*refusal)),
        _ => Err(RepairFault::Refused(Refusal::NoSession)),
    }
}

/// Commits the team.
pub(crate) fn commit<S: Seeker + Drop, K: Sink>(
    floor: &mut Floor<S>,
    session: &TeamSession<'_>,
    buffers: &mut Buffers,
    lines: &mut K,
) -> Result<(), RepairFault>
    ensures run { (l : Legalizer) → IfOk result (λ _.
        IsWrittenRun l session.now.team.now floor.old (K.contents lines.old) (K.contents lines.new) floor.new) }
    ensures err { (l : Legalizer) → OnErr result (
        IsRunWithCutLine l session.now.team.now floor.old (K.contents lines.old) (K.contents lines.new) floor.new) }
    ensures only { ChangesOnly session.now.team.now floor.old floor.new }
    ensures places { KeepsPlaces session.now.team.now floor.old floor.new }
    ensures settings { KeepsOtherSettings session.now.team.now session.now.session floor.old floor.new }
    ensures committed { (l : Legalizer) → IfOk result (λ _. AllCommittedIn l floor.new session.now.team.now) }
{
    legalizer_exists();
    let action = Action::Change(Change::Commit);
    match run_action(floor, session, action, &mut buffers.line, lines) {
        Ok(reply) => accepted(&reply),
        Err(fault) => Err(fault),
    }
}

/// Commits the team. Returns whether the floor accepted it; if not, the floor is unchanged. `Err` if
/// memory ran out.
pub fn try_commit<S: Seeker + Drop, K: Sink>(
    floor: &mut Floor<S>,
    session: &TeamSession<'_>,
    buffers: &mut Buffers,
    lines: &mut K,
) -> Result<bool, RepairFault>
    ensures run { (l : Legalizer) → IfOk result (λ _.
        IsWrittenRun l session.now.team.now floor.old (K.contents lines.old) (K.contents lines.new) floor.new) }
    ensures err { (l : Legalizer) → OnErr result (
        IsRunWithCutLine l session.now.team.now floor.old (K.contents lines.old) (K.contents lines.new) floor.new) }
    ensures only { ChangesOnly session.now.team.now floor.old floor.new }
    ensures places { KeepsPlaces session.now.team.now floor.old floor.new }
    ensures settings { KeepsOtherSettings session.now.team.now session.now.session floor.old floor.new }
    ensures committed { (l : Legalizer) → IfOk result (λ is_done.
        IsTrue is_done → AllCommittedIn l floor.new session.now.team.now) }
    ensures refused { IfOk result (λ is_done. is_done ≡ false → floor.new ≡ floor.old) }
{
    legalizer_exists();
    let action = Action::Change(Change::Commit);
    match run_action(floor, session, action, &mut buffers.line, lines) {
        Ok(reply) => done_unless_out_of_memory(&reply),
        Err(fault) => Err(fault),
    }
}

/// Whether the reply is no refusal. `Err` if memory ran out.
fn done_unless_out_of_memory(reply: &Reply) -> Result<bool, RepairFault>
    ensures { IfOk result (λ is_done. is_done ≡ is_ok reply.now) }
{
    match reply {
        Reply::Refused(Refusal::OutOfMemory) => Err(RepairFault::OutOfMemory),
        _ => Ok(is_accepted(reply)),
    }
}

/// `Err` with the refusal if the reply is one.
fn accepted(reply: &Reply) -> Result<(), RepairFault>
    ensures { IfOk result (λ _. is_ok reply.now ≡ true) }
{
    match reply {
        Reply::Refused(refusal) => Err(RepairFault::Refused(*refusal)),
        _ => Ok(()),
    }
}

/// Moves all cells of the team back to their committed places. `Err` if the floor refuses it.
pub fn revert<S: Seeker + Drop, K: Sink>(
    floor: &mut Floor<S>,
    session: &TeamSession<'_>,
    buffers: &mut Buffers,
    lines: &mut K,
) -> Result<(), RepairFault>
    ensures run { (l : Legalizer) → IfOk result (λ _.
        IsWrittenRun l session.now.team.now floor.old (K.contents lines.old) (K.contents lines.new) floor.new) }
    ensures err { (l : Legalizer) → OnErr result (
        IsRunWithCutLine l session.now.team.now floor.old (K.contents lines.old) (K.contents lines.new) floor.new) }
    ensures only { ChangesOnly session.now.team.now floor.old floor.new }
    ensures committed { KeepsCommittedAndSettings session.now.team.now session.now.session floor.old floor.new }
    ensures back { OnOk result (AreBackAtCommitted session.now.team.now floor.old floor.new) }
{
    legalizer_exists();
    let action = Action::Change(Change::Revert);
    match run_action(floor, session, action, &mut buffers.line, lines) {
        Ok(reply) => accepted(&reply),
        Err(fault) => Err(fault),
    }
}

/// Closes the session, which frees its slot.
pub fn close<S: Seeker + Drop, K: Sink>(
    floor: &mut Floor<S>,
    session: &TeamSession<'_>,
    buffers: &mut Buffers,
    lines: &mut K,
) -> Result<(), RepairFault>
    ensures run { (l : Legalizer) → IfOk result (λ _.
        IsWrittenRun l session.now.team.now floor.old (K.contents lines.old) (K.contents lines.new) floor.new) }
    ensures err { (l : Legalizer) → OnErr result (
        IsRunWithCutLine l session.now.team.now floor.old (K.contents lines.old) (K.contents lines.new) floor.new) }
    ensures only { ChangesOnly session.now.team.now floor.old floor.new }
    ensures cells { SameCells session.now.team.now floor.old floor.new }
    ensures settings { OnOk result (settings_in floor.new session.now.team.now
        ≡ settings_without session.now.session floor.old session.now.team.now) }
{
    legalizer_exists();
    query_keeps_state();
    match run_action(floor, session, Action::Close, &mut buffers.line, lines) {
        Ok(reply) => continue_unless_exhausted(&reply),
        Err(fault) => Err(fault),
    }
}
