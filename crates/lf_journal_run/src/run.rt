//! A journal that is run on a floor.

ghost use Rattle.std.specs.Prelude.{◌≡◌, ◌≢◌, ◌⊎◌, ◌≤◌, IfErr, IfOk, MatchOption, Ok, OnOk, map, drop, length};
ghost use Rattle.lf_rules.specs.Legalizer.{Legalizer};
ghost use Rattle.lf_server.specs.Connections.{KeepsDesign};
ghost use Rattle.lf_journal_text.specs.Records.{segment_of};
ghost use Rattle.lf_journal_text.specs.Views.{log_of};
ghost use Rattle.lf_journal_run.specs.Runs.{GetsOtherReply, IsNotRead, IsNotRun, NamesRecord, RunsJournal, RunsLogs};
ghost use Rattle.lf_journal_run.specs.Texts.{logs_size, same_lines};

use crate::beginning::{Beginning, other_beginning};
use crate::fault::RunError;
use crate::replies::{Replies, replies_to};
use crate::texts::{put_all_lines, put_all_replies, record_byte, same_lines};
use lf_floor::Floor;
use lf_journal_text::{Batch, ReadError, Refusal, RefusalKind, read_segment};
use lf_legalize::Seeker;
use lf_server::Ending;
use std::alloc::{AllocError, Global};

/// The byte where the record of the beginning begins.
const HEADER: usize = 38;

/// The reply to a change for which memory runs out.
const OUT_OF_MEMORY: &[u8] = b"no 12 OutOfMemory\n";

/// Reads the batches of a journal.
fn read_journal(alloc: Global, journal: &[u8]) -> Result<Vec<Batch<'_>>, RunError>
    ensures ok { IfOk result (λ batches. segment_of journal.now ≡ Ok (map log_of batches.items)) }
    ensures err { IfErr result (IsNotRead journal.now) }
{
    match read_segment(alloc, journal) {
        Ok(batches) => Ok(batches),
        Err(ReadError::Memory) => Err(RunError::Memory),
        Err(ReadError::Damaged(damage)) => Err(RunError::Refused(Refusal {
            at: damage.at,
            kind: RefusalKind::Damaged(damage.kind),
        })),
    }
}

/// Returns where the first line begins that two texts do not have in common.
fn other_line(text: &[u8], other: &[u8]) -> usize
    ensures { result ≤ length text.now }
{
    let mut start = 0;
    let mut at = 0;
    while at < text.len() && at < other.len() {
        if text[at] != other[at] {
            return start;
        }
        at += 1;
        if text[at - 1] == b'\n' {
            start = at;
        }
    }
    start
}

/// Returns whether memory ran out for the first line that is not the recorded one.
fn lacks_memory(text: &[u8], due: &[u8]) -> bool {
    text[other_line(text, due)..].starts_with(OUT_OF_MEMORY)
}

/// Returns the number of the first record whose recorded reply is not the one in the text, counted
/// from 0. `None` if each is. `Err` if memory ran out while lines were served.
fn other_reply_in(replies: &Replies, due: &[u8]) -> Result<Option<usize>, AllocError>
    ensures { IfOk result (λ found. MatchOption found
        ((replies.now.ending ≡ Ending.Done) × (replies.now.text.items ≡ due.now))
        (λ number. ((replies.now.text.items ≢ due.now) ⊎ (replies.now.ending ≢ Ending.Done))
        × (number ≡ same_lines replies.now.text.items due.now))) }
{
    let text = replies.text.as_slice();
    match replies.ending {
        Ending::Done => {
            if text == due {
                return Ok(None);
            }
            if lacks_memory(text, due) {
                return Err(AllocError);
            }
            Ok(Some(same_lines(text, due)))
        }
        Ending::Bye => Ok(Some(same_lines(text, due))),
        Ending::ReadFault => Err(AllocError),
        Ending::WriteFault => Err(AllocError),
        Ending::TooManyLines => Err(AllocError),
        Ending::OutOfMemory => Err(AllocError),
    }
}

/// Serves the lines of the records of these batches on the floor. Returns the number of the first
/// record whose reply is not the recorded one, counted from 0. `None` if each is. `Err` if an
/// allocation fails.
fn run_batches<K: Seeker + Drop>(
    alloc: Global,
    floor: &mut Floor<K>,
    batches: &[Batch<'_>],
) -> Result<Option<usize>, AllocError>
    ensures stays { KeepsDesign floor.old floor.new }
    ensures run { (l : Legalizer) → IfOk result (λ found. MatchOption found
        (RunsLogs l floor.old (map log_of batches.now) floor.new)
        (GetsOtherReply l floor.old (map log_of batches.now))) }
{
    let mut lines = Vec::new(alloc);
    put_all_lines(&mut lines, batches)?;
    let mut due = Vec::new(alloc);
    put_all_replies(&mut due, batches)?;
    let replies = replies_to(alloc, floor, &lines);
    other_reply_in(&replies, &due)
}

/// Returns the batches behind the beginning.
fn behind_beginning<'b, 'a>(batches: &'b [Batch<'a>]) -> &'b [Batch<'a>]
    ensures { map log_of result.now ≡ drop 1 (map log_of batches.now) }
{
    if batches.is_empty() {
        return batches;
    }
    &batches[1..]
}

/// Returns the error of a journal of these batches in which the reply of a record is not the recorded
/// one. Records behind the beginning are counted from 0.
fn other_reply(batches: &[Batch<'_>], number: usize) -> RunError
    requires { logs_size (map log_of batches.now) ≤ 18446744073709551615 }
    ensures { NamesRecord (map log_of batches.now) number result }
{
    match number.checked_add(1) {
        Some(behind) => RunError::Refused(Refusal {
            at: record_byte(batches, behind),
            kind: RefusalKind::OtherReply,
        }),
        None => RunError::Memory,
    }
}

/// Runs a journal on a floor: the lines of its records are served as those of a connection, and the
/// reply to each is compared with the recorded one. `due` is how the journal must begin; a journal
/// without a batch begins with anything.
///
/// `Err(Refused(..))` with the first damage, then with an other beginning, then with the first
/// record whose reply is not the recorded one. `Err(Memory)` if an allocation fails, also that for a
/// line. If the beginning is refused, no line was served.
pub fn run_journal<K: Seeker + Drop>(
    alloc: Global,
    floor: &mut Floor<K>,
    journal: &[u8],
    due: Beginning<'_>,
) -> Result<(), RunError>
    ensures stays { KeepsDesign floor.old floor.new }
    ensures ok { (l : Legalizer) → OnOk result
        (RunsJournal l journal.now due.entry.design.now due.entry.state.now floor.old floor.new) }
    ensures err { (l : Legalizer) → IfErr result
        (IsNotRun l journal.now due.entry.design.now due.entry.state.now floor.old) }
{
    let batches = read_journal(alloc, journal)?;
    if let Some(kind) = other_beginning(&batches, due) {
        return Err(RunError::Refused(Refusal { at: HEADER, kind }));
    }
    match run_batches(alloc, floor, behind_beginning(&batches))? {
        None => Ok(()),
        Some(number) => Err(other_reply(&batches, number)),
    }
}
