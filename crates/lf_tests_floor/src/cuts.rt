//! One script, in reads of each size and with each call failing in turn.

use crate::connections::{Plan, SOUND, counted, reports_on, serve_bytes};
use crate::starts::floor_of_two_undos;
use lf_floor::Floor;
use lf_legalize::PlainSeeker;
use lf_server::{Ending, Served};
use std::alloc::Global;
use std::test::Fail;

/// Three cells are placed, and two of the changes are undone.
const SCRIPT: &[u8] = b"open A
place A 0 a1 0 0 N
place A 0 a2 400 0 N
place A 0 a3 800 0 N
undo A 0
undo A 0
undo A 0
where A 0 a1
where A 0 a2
";

/// The replies, with a bar for each flush.
const LOG: &[u8] = b"ok 0 0
|ok 1
|ok 2
|ok 3
|ok 4
|ok 5
|no 9 NothingToUndo
|ok 0 0 N
|no 6 Unplaced a2
|";

/// Returns true if the script in reads of this size gets these replies.
fn is_answered(alloc: Global, piece: usize) -> Result<bool, Fail> {
    let plan = Plan { piece, ..SOUND };
    let served = counted(9, 9, Ending::Done);
    match floor_of_two_undos(alloc) {
        Ok(mut floor) => Ok(reports_on(alloc, &mut floor, SCRIPT, &plan, served, LOG)),
        Err(fail) => Err(fail),
    }
}

#[test]
fn a_script_in_pieces_of_each_size_is_reported_the_same(rt: HostRuntime) -> Result<(), Fail> {
    for piece in 1..=SCRIPT.len() {
        assert!(rt; is_answered(rt.alloc(), piece)?, "{piece} bytes a read");
    }
    Ok(())
}

/// Returns the number of bars in a log: the replies that were completely written and flushed.
fn bars(log: &[u8]) -> u64 {
    let mut count = 0u64;
    for byte in log {
        if *byte == b'|' {
            count = count.saturating_add(1);
        }
    }
    count
}

/// Returns the log of `count` replies, each completely written and flushed.
fn log_of_replies(count: u64) -> &'static [u8] {
    let mut left = count;
    for (at, byte) in LOG.iter().enumerate() {
        if left == 0 {
            return LOG.get(..at).unwrap_or(b"");
        }
        if *byte == b'|' {
            left = left.saturating_sub(1);
        }
    }
    LOG
}

/// Returns the log of `count` writes of three bytes. The last write of a reply may be shorter, and
/// each complete reply is flushed.
fn log_of_writes(count: u32) -> &'static [u8] {
    let mut left = count;
    let mut written = 0u32;
    for (at, byte) in LOG.iter().enumerate() {
        if *byte == b'|' {
            written = 0;
        } else {
            if written == 0 && left == 0 {
                return LOG.get(..at).unwrap_or(b"");
            }
            if written == 0 {
                left = left.saturating_sub(1);
            }
            written = written.wrapping_add(1) % 3;
        }
    }
    LOG
}

/// Returns the log of `count` flushes, and of the next reply, which is written and not flushed.
fn log_of_flushes(count: u32) -> &'static [u8] {
    let mut left = count;
    for (at, byte) in LOG.iter().enumerate() {
        if *byte == b'|' {
            if left == 0 {
                return LOG.get(..at).unwrap_or(b"");
            }
            left = left.saturating_sub(1);
        }
    }
    LOG
}

/// Returns the number of complete lines of the script in `reads` reads of 7 bytes.
fn lines_in(reads: u32) -> u64 {
    let read = (reads as usize).saturating_mul(7).min(SCRIPT.len());
    let mut count = 0u64;
    for byte in SCRIPT.get(..read).unwrap_or(b"") {
        if *byte == b'\n' {
            count = count.saturating_add(1);
        }
    }
    count
}

/// The result when `answered` replies were completely written and flushed. The line whose reply was
/// not is acted on too.
fn broken_off(answered: u64, ending: Ending) -> Served {
    match ending {
        Ending::WriteFault => counted(answered.saturating_add(1), answered, ending),
        _ => counted(answered, answered, ending),
    }
}

/// Reads of 7 bytes and writes of 3.
const SMALL: Plan = Plan {
    piece: 7,
    most: 3,
    ..SOUND
};

/// Returns true if the script over these devices ends like this on the floor, with exactly this log
/// and its counts.
fn breaks_off_on(
    alloc: Global,
    floor: &mut Floor<PlainSeeker>,
    plan: &Plan,
    ending: Ending,
    log: &[u8],
) -> bool {
    let reported = serve_bytes(alloc, floor, SCRIPT, plan);
    reported.log.as_slice() == log && reported.served == broken_off(bars(log), ending)
}

/// The same for the floor of the built-in design, on which two changes can be undone.
fn breaks_off(alloc: Global, plan: &Plan, ending: Ending, log: &[u8]) -> Result<bool, Fail> {
    match floor_of_two_undos(alloc) {
        Ok(mut floor) => Ok(breaks_off_on(alloc, &mut floor, plan, ending, log)),
        Err(fail) => Err(fail),
    }
}

#[test]
fn each_read_may_fail(rt: HostRuntime) -> Result<(), Fail> {
    let mut good_reads = 0u32;
    for _ in 0..SCRIPT.len().div_ceil(7) + 1 {
        let plan = Plan {
            good_reads,
            ..SMALL
        };
        assert!(rt;
            breaks_off(
                rt.alloc(),
                &plan,
                Ending::ReadFault,
                log_of_replies(lines_in(good_reads))
            )?,
            "read {good_reads}"
        );
        good_reads = good_reads.saturating_add(1);
    }
    let plan = Plan {
        good_reads,
        ..SMALL
    };
    assert!(rt; breaks_off(rt.alloc(), &plan, Ending::Done, LOG)?);
    Ok(())
}

#[test]
fn each_write_may_fail(rt: HostRuntime) -> Result<(), Fail> {
    for good_writes in 0..29u32 {
        let plan = Plan {
            good_writes,
            ..SMALL
        };
        assert!(rt;
            breaks_off(
                rt.alloc(),
                &plan,
                Ending::WriteFault,
                log_of_writes(good_writes)
            )?,
            "write {good_writes}"
        );
    }
    let plan = Plan {
        good_writes: 29,
        ..SMALL
    };
    assert!(rt; breaks_off(rt.alloc(), &plan, Ending::Done, LOG)?);
    Ok(())
}

#[test]
fn each_flush_may_fail(rt: HostRuntime) -> Result<(), Fail> {
    for good_flushes in 0..9u32 {
        let plan = Plan {
            good_flushes,
            ..SMALL
        };
        assert!(rt;
            breaks_off(
                rt.alloc(),
                &plan,
                Ending::WriteFault,
                log_of_flushes(good_flushes)
            )?,
            "flush {good_flushes}"
        );
    }
    let plan = Plan {
        good_flushes: 9,
        ..SMALL
    };
    assert!(rt; breaks_off(rt.alloc(), &plan, Ending::Done, LOG)?);
    Ok(())
}
