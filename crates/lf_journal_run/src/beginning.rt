//! The beginning of a journal, compared with the due one.

ghost use Rattle.std.specs.Prelude.{◌≡◌, map, take};
ghost use Rattle.lf_journal_text.specs.Views.{entry_of, log_of};
ghost use Rattle.lf_journal_run.specs.Beginnings.{due_beginning, other_beginning, other_first, other_in};

use lf_journal_text::{Batch, Record, RefusalKind};

/// The digits of the number of session slots in the line of a design.
const SESSION_DIGITS: usize = 10;

/// How a journal must begin.
#[derive(Clone, Copy, Debug)]
pub struct Beginning<'a> {
    /// The line of the design.
    pub design: &'a [u8],
    /// The name of the state.
    pub state: &'a [u8],
}

/// Returns the number of session slots in the line of a design, as it is written.
fn sessions_in(line: &[u8]) -> &[u8]
    ensures { result.now ≡ take 10 line.now }
{
    if line.len() < SESSION_DIGITS {
        return line;
    }
    &line[..SESSION_DIGITS]
}

/// Returns what is other in the first record than it should be.
fn other_in(first: &Record<'_>, due: Beginning<'_>) -> Option<RefusalKind>
    ensures { result ≡ other_in (entry_of first.now) (due_beginning due.entry.design.now due.entry.state.now) }
{
    if first.line == due.design {
        if first.reply == due.state {
            return None;
        }
        return Some(RefusalKind::OtherState);
    }
    if sessions_in(first.line) == sessions_in(due.design) {
        return Some(RefusalKind::OtherTexts);
    }
    Some(RefusalKind::OtherSessions)
}

/// Returns what is other in the first of the records.
fn other_first(records: &[Record<'_>], due: Beginning<'_>) -> Option<RefusalKind>
    ensures { result ≡ other_first (map entry_of records.now) (due_beginning due.entry.design.now due.entry.state.now) }
{
    match records.first() {
        Some(first) => other_in(first, due),
        None => None,
    }
}

/// Returns what is other in the beginning of a journal of these batches. `None` if it is the due one,
/// or there is no batch.
pub(crate) fn other_beginning(batches: &[Batch<'_>], due: Beginning<'_>) -> Option<RefusalKind>
    ensures { result
        ≡ other_beginning (map log_of batches.now) (due_beginning due.entry.design.now due.entry.state.now) }
{
    match batches.first() {
        Some(first) => other_first(&first.records, due),
        None => None,
    }
}
