//! Sends commands to a floor, and writes them if it accepts them.

ghost use Rattle.std.specs.Prelude.{◌≡◌, IfOk, List, OnErr, OnOk, ℕ};
ghost use Rattle.std.specs.Io.KnownBytes.{Appends};
ghost use Rattle.lf_proto.specs.Lines.{IsLineName};
ghost use Rattle.lf_rules.specs.Legalizer.{Legalizer};
ghost use Rattle.lf_proto.specs.Commands.{command_with_names};
ghost use Rattle.lf_proto.specs.Requests.{IsPlain};
ghost use Rattle.lf_floor_model.specs.VerbLaws.{is_ok};
ghost use Rattle.lf_floor_model.specs.Steps.{CommitsLegally, IsTo, KeepsIfRefused, Step};
ghost use Rattle.lf_repair_team.specs.CellEdits.{IsUnchangedOrStepped};
ghost use Rattle.lf_repair_team.specs.Runs.{AppendsSomeOf, IsRunWithCutLine, IsWrittenRun};
ghost use Rattle.lf_repair_team.specs.TeamRepairs.{ChangesOnly};

use lf_floor::Floor;
use lf_io::{DeviceFault, Sink};
use lf_legalize::Seeker;
use lf_proto::{Refusal, Reply, Request, write_request};
use lf_rules::legalizer_exists;

/// Why the repair of a team stopped early.
#[derive(Clone, Copy, Debug, PartialEq, Eq)]
pub enum RepairFault {
    /// No team has this name. No command was sent.
    NoTeam,
    /// An allocation failed.
    OutOfMemory,
    /// The lines could not be written. A prefix of the last command's line, possibly empty, was
    /// written.
    Lines,
    /// The floor refused to open a session, to commit the team, or to unplace or legalize an
    /// unrepaired cell; or it refused any command because the team has no revision left.
    Refused(Refusal),
}

/// Whether the reply is no refusal.
pub(crate) fn is_accepted(reply: &Reply) -> bool
    ensures { result ≡ is_ok reply.now }
{
    !matches!(reply, Reply::Refused(_))
}

/// Writes all the bytes, in as many calls as it takes.
fn write_whole<K: Sink>(lines: &mut K, bytes: &[u8]) -> Result<(), DeviceFault>
    ensures ok { OnOk result (Appends (K.contents lines.old) (K.contents lines.new) bytes.now) }
    ensures err { OnErr result (AppendsSomeOf (K.contents lines.old) (K.contents lines.new) bytes.now) }
{
    let mut at = 0;
    while at < bytes.len() {
        at += lines.write(&bytes[at..])?;
    }
    Ok(())
}

/// Sends a command to the floor, and writes its line if the reply is not a refusal. The line is
/// built first. If there is no memory for it, no command is sent.
pub(crate) fn run_command<S: Seeker + Drop, K: Sink>(
    floor: &mut Floor<S>,
    request: &Request,
    line: &mut Vec<u8>,
    lines: &mut K,
) -> Result<Reply, RepairFault>
    ensures run { (l : Legalizer) (team : List ℕ) → IsTo team (command_with_names request.now) → (IsLineName team
        → IsPlain (command_with_names request.now))
        → IfOk result (λ _. IsWrittenRun l team floor.old (K.contents lines.old) (K.contents lines.new) floor.new) }
    ensures err { (l : Legalizer) (team : List ℕ) → IsTo team (command_with_names request.now) → (IsLineName team
        → IsPlain (command_with_names request.now))
        → OnErr result (IsRunWithCutLine l team floor.old (K.contents lines.old) (K.contents lines.new) floor.new) }
    ensures only { (team : List ℕ) → IsTo team (command_with_names request.now) → ChangesOnly team floor.old floor.new }
    ensures requested { (l : Legalizer) → IsUnchangedOrStepped l floor.old (command_with_names request.now) floor.new }
    ensures replied { (l : Legalizer) → IfOk result (λ reply.
        Step l floor.old (command_with_names request.now) reply floor.new) }
    ensures committed { (l : Legalizer) → IfOk result (λ reply.
        CommitsLegally l (command_with_names request.now) reply floor.new) }
    ensures refused { IfOk result (λ reply. KeepsIfRefused reply floor.old floor.new) }
{
    legalizer_exists();
    line.clear();
    if write_request(line, request).is_err() {
        return Err(RepairFault::OutOfMemory);
    }
    let reply = floor.step(request);
    if !is_accepted(&reply) {
        return Ok(reply);
    }
    if write_whole(lines, line.as_slice()).is_err() {
        return Err(RepairFault::Lines);
    }
    Ok(reply)
}
