//! Connections over readers and writers in memory.

ghost use Rattle.std.specs.Prelude.{◌≡◌, ◌≤◌, ◌+◌, false};
ghost use Rattle.lf_rules.specs.Legalizer.{Legalizer};
ghost use Rattle.lf_floor_model.specs.Committed.{IsCommittedLegal};
ghost use Rattle.lf_floor_model.specs.CommittedRuns.{LegalRun};
ghost use Rattle.lf_floor_model.specs.Journals.{IsBackup, lasting, lasting_replies};
ghost use Rattle.lf_server.specs.Devices.{writer};
ghost use Rattle.lf_server.specs.Endings.{ServesLines};
ghost use Rattle.lf_server.specs.Laws.{commands, replies};

use crate::devices::{Log, Pieces};
use crate::starts::floor;
use lf_floor::{Floor, journal_restores, run_stays_legal};
use lf_legalize::{PlainSeeker, Seeker};
use lf_server::{
    Ending, FromRead, ServeLimits, Served, Sink, Source, ToWrite, serve, serving_runs,
};
use std::alloc::{AllocError, Global};
use std::test::Fail;

/// The behavior of the devices of a connection, and its limits.
#[derive(Clone, Copy)]
pub struct Plan {
    /// The most bytes of a read.
    pub piece: usize,
    /// The number of reads that succeed; the next one fails.
    pub good_reads: u32,
    /// The most bytes of a write.
    pub most: usize,
    /// The number of writes that succeed; the next one fails.
    pub good_writes: u32,
    /// The number of flushes that succeed; the next one fails.
    pub good_flushes: u32,
    pub limits: ServeLimits,
}

/// Devices that never fail, and limits that are not reached.
pub const SOUND: Plan = Plan {
    piece: 4096,
    good_reads: u32::MAX,
    most: 4096,
    good_writes: u32::MAX,
    good_flushes: u32::MAX,
    limits: ServeLimits {
        lines: 1_000,
        reads: 100_000,
    },
};

/// The result of a connection, and the bytes written, with a bar for each flush.
#[derive(Drop)]
pub struct Reported {
    pub served: Served,
    pub log: Vec<u8>,
}

/// Serves a connection. By its contract, a fully legal committed design is so after each command of
/// the lines acted on, and the journal of these commands is a backup.
fn serve_safely<K: Seeker + Drop, S: Source, W: Sink>(
    alloc: Global,
    floor: &mut Floor<K>,
    source: &mut S,
    sink: &mut W,
    limits: ServeLimits,
) -> Served
    requires readable { S.has_failed source.old ≡ false }
    requires writable { W.has_failed sink.old ≡ false }
    requires countable { S.reads source.old + limits.reads ≤ 18446744073709551615 }
    ensures legal { (l : Legalizer) → IsCommittedLegal floor.old
        → (served : ServesLines l limits.lines floor.old (S.remaining source.old) (S.remaining source.new)
        (writer (W.contents sink.old) (W.is_flushed sink.old) (W.has_failed sink.old))
        (writer (W.contents sink.new) (W.is_flushed sink.new) (W.has_failed sink.new)) result floor.new)
        × LegalRun l floor.old (commands served.done) (replies served.done) floor.new }
    ensures backed_up { (l : Legalizer)
        → (served : ServesLines l limits.lines floor.old (S.remaining source.old) (S.remaining source.new)
        (writer (W.contents sink.old) (W.is_flushed sink.old) (W.has_failed sink.old))
        (writer (W.contents sink.new) (W.is_flushed sink.new) (W.has_failed sink.new)) result floor.new)
        × IsBackup l floor.old (lasting (commands served.done) (replies served.done))
        (lasting_replies (commands served.done) (replies served.done)) floor.new }
{
    floor.teams_match_frame();
    serving_runs();
    run_stays_legal();
    journal_restores();
    serve(alloc, floor, source, sink, limits)
}

/// Serves a connection over the reader and the writer.
fn served(
    alloc: Global,
    floor: &mut Floor<PlainSeeker>,
    reader: &mut Pieces<'_>,
    writer: &mut Log,
    limits: ServeLimits,
) -> Served {
    let mut source = FromRead::new(reader);
    let mut sink = ToWrite::new(writer);
    serve_safely(alloc, floor, &mut source, &mut sink, limits)
}

/// Serves a connection with these bytes.
pub fn serve_bytes(
    alloc: Global,
    floor: &mut Floor<PlainSeeker>,
    bytes: &[u8],
    plan: &Plan,
) -> Reported {
    let mut reader = Pieces {
        bytes,
        most: plan.piece,
        good_reads: plan.good_reads,
    };
    let mut writer = Log {
        taken: Vec::new(alloc),
        most: plan.most,
        good_writes: plan.good_writes,
        good_flushes: plan.good_flushes,
    };
    let served = served(alloc, floor, &mut reader, &mut writer, plan.limits);
    Reported {
        served,
        log: writer.taken,
    }
}

/// The result when `lines` lines were acted on, and `answered` replies were written and flushed.
pub fn counted(lines: u64, answered: u64, ending: Ending) -> Served {
    Served {
        lines,
        answered,
        ending,
    }
}

/// Returns true if a connection with these bytes to the floor has this result and this log.
pub fn reports_on(
    alloc: Global,
    floor: &mut Floor<PlainSeeker>,
    bytes: &[u8],
    plan: &Plan,
    served: Served,
    log: &[u8],
) -> bool {
    let reported = serve_bytes(alloc, floor, bytes, plan);
    reported.served == served && reported.log.as_slice() == log
}

/// The same for the floor of the built-in design.
pub fn decides(
    alloc: Global,
    bytes: &[u8],
    plan: &Plan,
    served: Served,
    log: &[u8],
) -> Result<bool, Fail> {
    match floor(alloc) {
        Ok(mut floor) => Ok(reports_on(alloc, &mut floor, bytes, plan, served, log)),
        Err(fail) => Err(fail),
    }
}

#[test]
fn a_last_line_needs_no_line_feed(rt: HostRuntime) -> Result<(), Fail> {
    let plan = Plan { piece: 1, ..SOUND };
    let served = counted(2, 2, Ending::Done);
    let log = b"ok 0 0\n|no 6 Unplaced a1\n|";
    assert!(rt; decides(rt.alloc(), b"open A\nwhere A 0 a1", &plan, served, log)?);
    Ok(())
}

#[test]
fn a_reply_that_breaks_off_is_not_answered(rt: HostRuntime) -> Result<(), Fail> {
    let plan = Plan {
        most: 3,
        good_writes: 1,
        ..SOUND
    };
    let served = counted(1, 0, Ending::WriteFault);
    assert!(rt; decides(rt.alloc(), b"open A\nopen A\n", &plan, served, b"ok ")?);
    Ok(())
}

#[test]
fn a_reader_that_fails_ends_it(rt: HostRuntime) -> Result<(), Fail> {
    let plan = Plan {
        good_reads: 1,
        ..SOUND
    };
    let served = counted(1, 1, Ending::ReadFault);
    assert!(rt; decides(rt.alloc(), b"open A\n", &plan, served, b"ok 0 0\n|")?);
    Ok(())
}

#[test]
fn no_line_after_bye_is_acted_on(rt: HostRuntime) -> Result<(), Fail> {
    let served = counted(1, 1, Ending::Bye);
    assert!(rt; decides(rt.alloc(), b"bye\nopen A\n", &SOUND, served, b"ok\n|")?);
    Ok(())
}

/// Returns true if a session of one connection is still open in the next connection to the floor.
fn keeps_sessions(alloc: Global, floor: &mut Floor<PlainSeeker>) -> bool {
    let first = counted(2, 2, Ending::Bye);
    let next = counted(1, 1, Ending::Done);
    reports_on(
        alloc,
        floor,
        b"open A\n bye\t\r\n",
        &SOUND,
        first,
        b"ok 0 0\n|ok\n|",
    ) && reports_on(alloc, floor, b"open A\n", &SOUND, next, b"ok 1 0\n|")
}

/// The same for the floor of the built-in design.
fn sessions_outlive(alloc: Global) -> Result<bool, Fail> {
    match floor(alloc) {
        Ok(mut floor) => Ok(keeps_sessions(alloc, &mut floor)),
        Err(fail) => Err(fail),
    }
}

#[test]
fn sessions_outlive_connections(rt: HostRuntime) -> Result<(), Fail> {
    assert!(rt; sessions_outlive(rt.alloc())?);
    Ok(())
}

#[test]
fn lines_are_limited(rt: HostRuntime) -> Result<(), Fail> {
    let cases = [
        (0, counted(0, 0, Ending::TooManyLines), b"".as_slice()),
        (
            1,
            counted(1, 1, Ending::TooManyLines),
            b"ok 0 0\n|".as_slice(),
        ),
        (
            2,
            counted(2, 2, Ending::Done),
            b"ok 0 0\n|ok 1 0\n|".as_slice(),
        ),
    ];
    for (lines, served, log) in cases {
        let limits = ServeLimits {
            lines,
            ..SOUND.limits
        };
        let plan = Plan { limits, ..SOUND };
        assert!(rt;
            decides(rt.alloc(), b"open A\nopen A\n", &plan, served, log)?,
            "{lines} lines"
        );
    }
    Ok(())
}

#[test]
fn reads_are_limited(rt: HostRuntime) -> Result<(), Fail> {
    let cases = [
        (3, counted(0, 0, Ending::ReadFault), b"".as_slice()),
        (7, counted(1, 1, Ending::ReadFault), b"ok 0 0\n|".as_slice()),
        (8, counted(1, 1, Ending::Done), b"ok 0 0\n|".as_slice()),
    ];
    for (reads, served, log) in cases {
        let limits = ServeLimits {
            reads,
            ..SOUND.limits
        };
        let plan = Plan {
            piece: 1,
            limits,
            ..SOUND
        };
        assert!(rt;
            decides(rt.alloc(), b"open A\n", &plan, served, log)?,
            "{reads} reads"
        );
    }
    Ok(())
}

#[test]
fn a_writer_that_takes_no_byte_has_failed(rt: HostRuntime) -> Result<(), Fail> {
    let plan = Plan { most: 0, ..SOUND };
    let served = counted(1, 0, Ending::WriteFault);
    assert!(rt; decides(rt.alloc(), b"open A\n", &plan, served, b"")?);
    Ok(())
}

/// Appends a line of `open A` and blanks, of `length` bytes, and a line feed.
fn push_long_line(lines: &mut Vec<u8>, length: usize) -> Result<(), AllocError> {
    let end = lines.len().saturating_add(length);
    lines.extend_from_slice(b"open A")?;
    lines.resize(end, b' ')?;
    lines.push(b'\n')?;
    Ok(())
}

/// Appends lines that are not requests, between two that are.
fn push_odd_lines(lines: &mut Vec<u8>) -> Result<(), AllocError> {
    lines.extend_from_slice(b"open A\n\nwhere A 0\nplace A 0 a1 2147483648 0 N\n")?;
    push_long_line(lines, 4097)?;
    push_long_line(lines, 4096)
}

/// The replies to those lines.
const REFUSED: &[u8] = b"ok 0 0
|no 1 BadRequest
|no 1 BadRequest
|no 1 BadRequest
|no 1 BadRequest
|ok 1 0
|";

#[test]
fn lines_that_are_no_requests_are_refused(rt: HostRuntime) -> Result<(), Fail> {
    let mut lines = Vec::new(rt.alloc());
    push_odd_lines(&mut lines)?;
    let served = counted(6, 6, Ending::Done);
    assert!(rt; decides(rt.alloc(), &lines, &SOUND, served, REFUSED)?);
    Ok(())
}
