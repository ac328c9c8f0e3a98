//! Answering lines.

ghost use Rattle.std.specs.Prelude.{OnErr, OnOk};
ghost use Rattle.lf_hub_clients.specs.Turns.{IsAnswered};
ghost use Rattle.lf_hub_serve.specs.Servers.{BreaksOff, GoesOn};

use crate::server::Server;
use lf_hub::Progress;
use lf_hub_clients::Floor;
use lf_hub_wire::Wire;
use std::alloc::AllocError;
use std::time::{Clock, Instant};

/// The milliseconds for which lines are answered in a round.
const ROUND: u128 = 4;

/// The most turns of a round.
const TURNS: u32 = 100_000;

/// The bytes of records after which no more lines are answered in a round. A batch has room for
/// 99,999 bytes.
const RECORDS: usize = 65_536;

/// Returns whether the time of a round is over. It is not if the clock cannot be read.
fn is_over(clock: &impl Clock, begin: &Option<Instant>) -> bool {
    let Some(begin) = begin else {
        return false;
    };
    match begin.elapsed(clock) {
        Ok(passed) => passed.as_millis() >= ROUND,
        Err(_) => false,
    }
}

/// Returns the time now, if the clock can be read.
fn now(clock: &impl Clock) -> Option<Instant> {
    Instant::now(clock).ok()
}

/// Returns whether a turn was taken.
fn was_taken(progress: Progress) -> bool {
    match progress {
        Progress::Idle => false,
        Progress::Passed { .. } => true,
        Progress::Answered { .. } => true,
        Progress::Closed { .. } => true,
        Progress::Freed { .. } => true,
    }
}

/// Takes one turn. Returns whether somebody was waiting.
fn take_turn<F: Floor, W: Wire>(server: &mut Server<F, W>) -> Result<bool, AllocError>
    ensures ok { OnOk result (GoesOn (IsAnswered F.answers F.shows) W.calls server.old server.new) }
    ensures err { OnErr result (BreaksOff (IsAnswered F.answers F.shows) W.calls server.old server.new) }
{
    let progress = server.core.answer(&mut server.floor, true)?;
    Ok(was_taken(progress))
}

/// Answers the lines that wait, until nobody waits or the time of a round is over. Returns whether
/// somebody was waiting.
pub(crate) fn answer_lines<F: Floor, W: Wire>(
    clock: &impl Clock,
    server: &mut Server<F, W>,
) -> Result<bool, AllocError>
    ensures ok { OnOk result (GoesOn (IsAnswered F.answers F.shows) W.calls server.old server.new) }
    ensures err { OnErr result (BreaksOff (IsAnswered F.answers F.shows) W.calls server.old server.new) }
{
    let begin = now(clock);
    for count in 0..TURNS {
        if server.core.records().len() >= RECORDS || is_over(clock, &begin) {
            return Ok(true);
        }
        if !take_turn(server)? {
            return Ok(count > 0);
        }
    }
    Ok(true)
}
