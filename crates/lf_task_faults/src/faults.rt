//! The message and the exit status of a task that failed.

ghost use Rattle.std.specs.Prelude.{◌≡◌, true, IsTrue, OnErr, OnOk, option_map};
ghost use Rattle.std.specs.Io.KnownBytes.{Appends};
ghost use Rattle.lf_task_faults.specs.Faults.{EndsWith, byte_words, damage_numbered, journal_numbered, journal_refusal_text};
ghost use Rattle.lf_task_faults.specs.Faults.{fault_line, fault_text, line_words, name_words, numbered_refusal, refusal_text, state_numbered};
ghost use Rattle.lf_task_faults.specs.Faults.{state_refusal_text, status_of, fault_lines_text, team_numbered, team_refusal_text, unread_fault};
ghost use Rattle.lf_task_faults.specs.declared.faults.Fault.TheVariants.{SetupOutOfMemory};

use crate::fault_detail::write_detail_line;
use crate::read_failure::{ReadFailure, ReadFailureKind};
use crate::text_refusal::{StateRefusal, TextRefusal};
use itoa::Buffer;
use lf_io::{DeviceFault, Sink, WriteFailureKind, send};
use lf_journal_text::{DamageKind, Refusal, RefusalKind};
use lf_lex::FaultNumber;
use lf_state_text::StateFaultNumber;
use std::alloc::AllocError;

/// The kind of text that a file is read as.
#[derive(Clone, Copy, Debug, PartialEq, Eq)]
pub enum TextKind {
    /// A LEF text.
    Lef,
    /// The DEF text.
    Def,
    /// The text of a saved state.
    State,
    /// A journal.
    Journal,
}

/// A file of the command line that is read.
#[derive(Clone, Copy, Debug, PartialEq, Eq)]
pub struct TextFile<'a> {
    pub kind: TextKind,
    /// The path, as given.
    pub path: &'a str,
}

/// The kind of a file that a task writes.
#[derive(Clone, Copy, Debug, PartialEq, Eq)]
pub enum OutputKind {
    /// The exported text.
    Export,
    /// The saved state.
    Save,
    /// The commands of a repair.
    Lines,
    /// The text with the working places.
    Working,
    /// The slice of a team.
    Slice,
}

/// What of a hub has failed.
#[derive(Clone, Copy, Debug, PartialEq, Eq)]
pub enum HubFailure {
    /// Its journal in this folder cannot be read or written.
    Journal(WriteFailureKind),
    /// Another hub uses the journal in this folder.
    InUse,
    /// A socket in this folder cannot be made.
    Socket(BindFailure),
}

/// Why the program cannot listen on a port, if the system reports it.
#[derive(Clone, Copy, Debug, PartialEq, Eq)]
pub enum BindFailure {
    /// Another program listens on it.
    InUse,
    /// This user may not listen on it.
    Denied,
    /// Another reason.
    Other,
}

/// Why the floor refused a command without which a team cannot be repaired.
#[derive(Clone, Copy, Debug, PartialEq, Eq)]
pub enum TeamRefusal {
    /// All session slots of the team are taken.
    SessionsFull,
    /// The team is at the last revision.
    RevisionsSpent,
    /// Another refusal.
    Other,
}

/// Why a task failed, with all that is printed about it.
#[derive(Drop)]
pub enum Fault<'a> {
    /// The text of this file was refused, or the design that it makes with the LEF texts, or an
    /// allocation for it failed.
    Refused {
        file: TextFile<'a>,
        refusal: TextRefusal,
    },
    /// A file could not be read.
    File(TextFile<'a>, ReadFailureKind),
    /// The text of the state file of this path was refused: it has no state of the design.
    RefusedState(&'a str, StateRefusal),
    /// The journal of this path was refused.
    RefusedJournal(&'a str, Refusal),
    /// No team of the design has this name.
    NoTeam(&'a str),
    /// The floor refused a command without which the team of this name cannot be repaired.
    RefusedTeam(Vec<u8>, TeamRefusal),
    /// The state file of this path has another state of the team with this name than an earlier
    /// state file, and both have changed it.
    TeamDiffers(&'a str, Vec<u8>),
    /// The text cut for a slice is not one of the design and the team.
    SliceDiffers,
    /// The reader of lines failed, or the limit on reads was reached.
    ReadFault,
    /// A reply could not be written.
    WriteFault,
    /// Another line followed the last one allowed.
    TooManyLines,
    /// An allocation for the lines failed.
    OutOfMemory,
    /// A report, a description, or the line `listening` could not be written.
    Output,
    /// The program could not listen on this port.
    Bind(u16, BindFailure),
    /// A connection could not be accepted.
    Accept,
    /// The journal or a socket of a hub in this folder failed.
    Hub(&'a str, HubFailure),
    /// The file of this kind and path could not be written.
    NotWritten(OutputKind, &'a str, WriteFailureKind),
    /// An allocation failed before the first line, for a report, or for a repair.
    SetupOutOfMemory,
    /// An allocation failed for the exported text, the state, a line of a description, or the
    /// commands of a repair.
    OutputOutOfMemory,
}

impl<'a> From<AllocError> for Fault<'a> {
    ghost from_gives = { λ _ fault. fault ≡ SetupOutOfMemory };

    fn from(_error: AllocError) -> Fault<'a> {
        Fault::SetupOutOfMemory
    }
}

/// How a task ended.
#[derive(Clone, Copy, Debug, PartialEq, Eq)]
pub struct TaskExit {
    /// The exit status.
    pub status: u8,
    /// Whether everything printed about the fault was written. True if there was no fault.
    pub is_printed: bool,
}

/// Returns the number and the name of a refusal of reading or loading.
fn numbered(number: FaultNumber) -> &'static [u8]
    ensures { result.now ≡ numbered_refusal number }
{
    match number {
        FaultNumber::BadToken => b"1 BadToken",
        FaultNumber::UnexpectedEnd => b"2 UnexpectedEnd",
        FaultNumber::Unexpected => b"3 Unexpected",
        FaultNumber::BadNumber => b"4 BadNumber",
        FaultNumber::WrongEnd => b"5 WrongEnd",
        FaultNumber::UnknownStatement => b"6 UnknownStatement",
        FaultNumber::NoUnits => b"7 NoUnits",
        FaultNumber::NoSite => b"8 NoSite",
        FaultNumber::NoRows => b"9 NoRows",
        FaultNumber::VerticalRow => b"10 VerticalRow",
        FaultNumber::BadStep => b"11 BadStep",
        FaultNumber::RowOrient => b"12 RowOrient",
        FaultNumber::RowsOverlap => b"13 RowsOverlap",
        FaultNumber::NoMacro => b"14 NoMacro",
        FaultNumber::NoSize => b"15 NoSize",
        FaultNumber::NotWhole => b"16 NotWhole",
        FaultNumber::SecondName => b"17 SecondName",
        FaultNumber::SecondRegion => b"18 SecondRegion",
        FaultNumber::NoRegion => b"19 NoRegion",
        FaultNumber::TeamName => b"20 TeamName",
        FaultNumber::FencesOverlap => b"21 FencesOverlap",
        FaultNumber::TwoFences => b"22 TwoFences",
        FaultNumber::TooMany => b"23 TooMany",
        FaultNumber::OutOfMemory => b"24 OutOfMemory",
    }
}

/// Returns the number and the name of a refusal of a state text.
fn state_numbered(number: StateFaultNumber) -> &'static [u8]
    ensures { result.now ≡ state_numbered number }
{
    match number {
        StateFaultNumber::UnexpectedEnd => b"2 UnexpectedEnd",
        StateFaultNumber::Unexpected => b"3 Unexpected",
        StateFaultNumber::BadNumber => b"4 BadNumber",
        StateFaultNumber::OtherVersion => b"25 OtherVersion",
        StateFaultNumber::OtherDesign => b"26 OtherDesign",
        StateFaultNumber::OutOfRange => b"27 OutOfRange",
    }
}

/// Returns the number and the name of the damage of a journal.
fn damage_numbered(kind: DamageKind) -> &'static [u8]
    ensures { result.now ≡ damage_numbered kind }
{
    match kind {
        DamageKind::OtherVersion => b"25 OtherVersion",
        DamageKind::BadGate => b"28 BadGate",
        DamageKind::BadLength => b"29 BadLength",
        DamageKind::BadTime => b"30 BadTime",
        DamageKind::BadSum => b"31 BadSum",
        DamageKind::BadRecord => b"32 BadRecord",
    }
}

/// Returns the number and the name of a refusal of a journal.
fn journal_numbered(kind: RefusalKind) -> &'static [u8]
    ensures { result.now ≡ journal_numbered kind }
{
    match kind {
        RefusalKind::Damaged(kind) => damage_numbered(kind),
        RefusalKind::OtherTexts => b"36 OtherTexts",
        RefusalKind::OtherSessions => b"37 OtherSessions",
        RefusalKind::OtherState => b"38 OtherState",
        RefusalKind::OtherReply => b"39 OtherReply",
    }
}

/// Writes the line number of a refusal, if it has one.
fn put_line<W: Sink>(sink: &mut W, line: Option<usize>) -> Result<(), DeviceFault>
    ensures ok { OnOk result (Appends (W.contents sink.old) (W.contents sink.new) (line_words line)) }
    ensures failed { OnErr result (W.has_failed sink.new ≡ true) }
    ensures held { W.holds sink.new ≡ W.holds sink.old }
{
    let Some(line) = line else {
        return Ok(());
    };
    send(sink, b" line ")?;
    send(sink, Buffer::new().format(line).as_bytes())
}

/// Writes the number of a byte.
pub(crate) fn put_byte_number<W: Sink>(sink: &mut W, at: usize) -> Result<(), DeviceFault>
    ensures ok { OnOk result (Appends (W.contents sink.old) (W.contents sink.new) (byte_words at)) }
    ensures failed { OnErr result (W.has_failed sink.new ≡ true) }
    ensures held { W.holds sink.new ≡ W.holds sink.old }
{
    send(sink, b" byte ")?;
    send(sink, Buffer::new().format(at).as_bytes())
}

/// Writes the name of a refusal, if it has one.
fn put_name<W: Sink>(sink: &mut W, name: &Option<Vec<u8>>) -> Result<(), DeviceFault>
    ensures ok { OnOk result (Appends (W.contents sink.old) (W.contents sink.new)
        (name_words (option_map (λ bytes. bytes.items) name.now))) }
    ensures failed { OnErr result (W.has_failed sink.new ≡ true) }
    ensures held { W.holds sink.new ≡ W.holds sink.old }
{
    let Some(name) = name else {
        return Ok(());
    };
    send(sink, b" ")?;
    send(sink, name)
}

/// Writes the text of a refusal.
fn put_refusal<W: Sink>(sink: &mut W, refusal: &TextRefusal) -> Result<(), DeviceFault>
    ensures ok { OnOk result (Appends (W.contents sink.old) (W.contents sink.new) (refusal_text refusal.now)) }
    ensures failed { OnErr result (W.has_failed sink.new ≡ true) }
    ensures held { W.holds sink.new ≡ W.holds sink.old }
{
    send(sink, numbered(refusal.number))?;
    put_line(sink, refusal.line)?;
    put_name(sink, &refusal.name)
}

/// Writes the text of a refusal of a state text.
fn put_state_refusal<W: Sink>(sink: &mut W, refusal: &StateRefusal) -> Result<(), DeviceFault>
    ensures ok { OnOk result (Appends (W.contents sink.old) (W.contents sink.new) (state_refusal_text refusal.now)) }
    ensures failed { OnErr result (W.has_failed sink.new ≡ true) }
    ensures held { W.holds sink.new ≡ W.holds sink.old }
{
    send(sink, state_numbered(refusal.number))?;
    put_line(sink, Some(refusal.line))
}

/// Returns the number and the name of the refusal of a team.
fn team_numbered(why: TeamRefusal) -> &'static [u8]
    ensures { result.now ≡ team_numbered why }
{
    match why {
        TeamRefusal::SessionsFull => b"33 SessionsFull",
        TeamRefusal::RevisionsSpent => b"34 RevisionsSpent",
        TeamRefusal::Other => b"35 CommandRefused",
    }
}

/// Writes the text of the refusal of a team.
fn put_team_refusal<W: Sink>(sink: &mut W, name: &[u8], why: TeamRefusal) -> Result<(), DeviceFault>
    ensures ok { OnOk result (Appends (W.contents sink.old) (W.contents sink.new) (team_refusal_text name.now why)) }
    ensures failed { OnErr result (W.has_failed sink.new ≡ true) }
    ensures held { W.holds sink.new ≡ W.holds sink.old }
{
    send(sink, team_numbered(why))?;
    send(sink, b" ")?;
    send(sink, name)
}

/// Writes the text of a refusal of a journal.
fn put_journal_refusal<W: Sink>(sink: &mut W, refusal: &Refusal) -> Result<(), DeviceFault>
    ensures ok { OnOk result
        (Appends (W.contents sink.old) (W.contents sink.new) (journal_refusal_text refusal.now)) }
    ensures failed { OnErr result (W.has_failed sink.new ≡ true) }
    ensures held { W.holds sink.new ≡ W.holds sink.old }
{
    send(sink, journal_numbered(refusal.kind))?;
    put_byte_number(sink, refusal.at)
}

/// Writes the text of a fault.
fn put_fault<W: Sink>(sink: &mut W, fault: &Fault<'_>) -> Result<(), DeviceFault>
    ensures ok { OnOk result (Appends (W.contents sink.old) (W.contents sink.new) (fault_text fault.now)) }
    ensures failed { OnErr result (W.has_failed sink.new ≡ true) }
    ensures held { W.holds sink.new ≡ W.holds sink.old }
{
    match fault {
        Fault::Refused { refusal, .. } => put_refusal(sink, refusal),
        Fault::File(_, _) => send(sink, b"File"),
        Fault::RefusedState(_, refusal) => put_state_refusal(sink, refusal),
        Fault::RefusedJournal(_, refusal) => put_journal_refusal(sink, refusal),
        Fault::NoTeam(_) => send(sink, b"NoTeam"),
        Fault::RefusedTeam(name, why) => put_team_refusal(sink, name.as_slice(), *why),
        Fault::TeamDiffers(_, _) => send(sink, b"TeamDiffers"),
        Fault::SliceDiffers => send(sink, b"SliceDiffers"),
        Fault::ReadFault => send(sink, b"ReadFault"),
        Fault::WriteFault => send(sink, b"WriteFault"),
        Fault::TooManyLines => send(sink, b"TooManyLines"),
        Fault::OutOfMemory => send(sink, b"OutOfMemory"),
        Fault::Output => send(sink, b"Output"),
        Fault::Bind(_, _) => send(sink, b"Bind"),
        Fault::Accept => send(sink, b"Accept"),
        Fault::Hub(_, _) => send(sink, b"Hub"),
        Fault::NotWritten(_, _, _) => send(sink, b"File"),
        Fault::SetupOutOfMemory => send(sink, b"24 OutOfMemory"),
        Fault::OutputOutOfMemory => send(sink, b"24 OutOfMemory"),
    }
}

/// Writes the line of a fault, without allocating.
pub fn write_fault<W: Sink>(sink: &mut W, fault: &Fault<'_>) -> Result<(), DeviceFault>
    ensures ok { OnOk result (Appends (W.contents sink.old) (W.contents sink.new) (fault_line fault.now)) }
    ensures failed { OnErr result (W.has_failed sink.new ≡ true) }
    ensures held { W.holds sink.new ≡ W.holds sink.old }
{
    send(sink, b"lefence: ")?;
    put_fault(sink, fault)?;
    send(sink, b"\n")
}

/// Returns the exit status of a fault: 1 for `Refused`, `RefusedState`, `RefusedJournal`, `NoTeam`,
/// `RefusedTeam`, `TeamDiffers`, `SliceDiffers`, `SetupOutOfMemory` and `OutputOutOfMemory`,
/// otherwise 3.
pub fn status_of(fault: &Fault<'_>) -> u8
    ensures { result ≡ status_of fault.now }
{
    match fault {
        Fault::Refused { .. } => 1,
        Fault::RefusedState(_, _) => 1,
        Fault::RefusedJournal(_, _) => 1,
        Fault::NoTeam(_) => 1,
        Fault::RefusedTeam(_, _) => 1,
        Fault::TeamDiffers(_, _) => 1,
        Fault::SliceDiffers => 1,
        Fault::SetupOutOfMemory => 1,
        Fault::OutputOutOfMemory => 1,
        _ => 3,
    }
}

/// Returns the exit of a task that succeeded with this status.
pub fn exit_with(status: u8) -> TaskExit
    ensures status { result.status ≡ status }
    ensures reported { IsTrue result.is_printed }
{
    TaskExit {
        status,
        is_printed: true,
    }
}

/// Writes everything printed about a fault: its line, and a second line if a file, a line of it, a
/// port or a team is at fault.
fn write_fault_lines<W: Sink>(sink: &mut W, fault: &Fault<'_>) -> Result<(), DeviceFault>
    ensures ok { OnOk result (Appends (W.contents sink.old) (W.contents sink.new) (fault_lines_text fault.now)) }
    ensures failed { OnErr result (W.has_failed sink.new ≡ true) }
    ensures held { W.holds sink.new ≡ W.holds sink.old }
{
    write_fault(sink, fault)?;
    write_detail_line(sink, fault)
}

/// Reports a fault, and returns how the task ends. Failing to report it is no further fault.
pub fn report_fault<F: Sink>(faults: &mut F, fault: &Fault<'_>) -> TaskExit
    ensures ends { EndsWith fault.now (F.contents faults.old) (F.contents faults.new) (F.has_failed faults.new) result }
    ensures faults_held { F.holds faults.new ≡ F.holds faults.old }
{
    let reported = write_fault_lines(faults, fault);
    TaskExit {
        status: status_of(fault),
        is_printed: reported.is_ok(),
    }
}

/// Returns the fault of a file that was not read.
pub fn unread_fault<'a>(file: TextFile<'a>, unread: ReadFailure) -> Fault<'a>
    ensures { result ≡ unread_fault file.entry unread }
{
    match unread {
        ReadFailure::File(why) => Fault::File(file, why),
        ReadFailure::OutOfMemory => Fault::SetupOutOfMemory,
    }
}
