//! What is printed about a refused text. It is copied from the text, which can then be dropped.

ghost use Rattle.std.specs.Prelude.{◌≡◌, ◌<◌, List, ℕ, IfOk, IfSome, length, option_map, position, take};
ghost use Rattle.std.specs.Option.{option_copied};
ghost use Rattle.lf_lex.specs.Tokens.{is_line_feed};
ghost use Rattle.lf_lex.specs.declared.fault.LoadFault.{LoadFault};
ghost use Rattle.lf_lex.specs.declared.fault.ReadError.TheVariants.{Memory};
ghost use Rattle.lf_lex.specs.Faults.{load_fault_of};
ghost use Rattle.lf_frame.specs.Conflicts.{Conflict, conflict_in, no_fence};
ghost use Rattle.lf_state_text.specs.Refused.{HasEnd};
ghost use Rattle.lf_task_faults.specs.Refusals.{IsReportedConflict, ReportsFault, ReportsStateFault, after_line, after_lines, first_line, text_line, line_front, fence_line_in, fence_line_of};

use crate::faults::TextKind;
use crate::hints::{Hint, Remark, earlier_line, fault_line, hint_of, nth_line, remark_of};
use lf_frame::FenceConflict;
use lf_lex::{FaultNumber, LoadFault};
use lf_state_text::{StateFaultNumber, StateRefused};
use std::alloc::{AllocError, Global};

/// The number of bytes of a line that are shown.
const SHOWN: usize = 80;

/// A fence, with the first line that contains its name.
#[derive(Drop)]
pub struct FenceLine {
    pub name: Vec<u8>,
    pub line: Option<usize>,
}

/// What is printed about a refused text.
#[derive(Drop)]
pub struct TextRefusal {
    pub number: FaultNumber,
    /// The line of a reader's fault. `None` for a fault of loading, which has a name instead.
    pub line: Option<usize>,
    /// The name, if the fault has one.
    pub name: Option<Vec<u8>>,
    /// The line to show: that of the fault, or the one that contains the name.
    pub at: Option<usize>,
    /// The first bytes of that line.
    pub shown: Vec<u8>,
    /// The line of an earlier entry of the same name.
    pub earlier: Option<usize>,
    /// The fence that overlaps the refused one, or the first fence that claims the refused
    /// component.
    pub first_overlapped: Option<FenceLine>,
    /// The other fence that claims the component.
    pub second_overlapped: Option<FenceLine>,
    /// What the text may be instead.
    pub hint: Option<Hint>,
    /// What the design lacks.
    pub remark: Option<Remark>,
}

/// Returns the position of the first line feed.
fn feed_in(bytes: &[u8]) -> Option<usize>
    ensures found { result ≡ position is_line_feed bytes.now }
    ensures within { IfSome result (λ at. at < length bytes.now) }
{
    bytes.iter().position(|byte| *byte == b'\n')
}

/// Returns what follows the first line. Empty if there is only one line.
fn after_line(bytes: &[u8]) -> &[u8]
    ensures { result.now ≡ after_line bytes.now }
{
    match feed_in(bytes) {
        Some(at) => &bytes[at + 1..],
        None => b"",
    }
}

/// Returns what follows the first `lines` lines.
fn after_lines(text: &[u8], lines: usize) -> &[u8]
    ensures { result.now ≡ after_lines lines text.now }
{
    let mut rest = text;
    for _passed in 0..lines {
        rest = after_line(rest);
    }
    rest
}

/// Returns the first line, without its line feed.
fn first_line(bytes: &[u8]) -> &[u8]
    ensures { result.now ≡ first_line bytes.now }
{
    match feed_in(bytes) {
        Some(at) => &bytes[..at],
        None => bytes,
    }
}

/// Returns the line of this number of a text, counted from 1. Empty if there is no such line.
fn line_at(text: &[u8], number: usize) -> &[u8]
    ensures { result.now ≡ text_line text.now number }
{
    first_line(after_lines(text, number.saturating_sub(1)))
}

/// Returns the first bytes of a line, at most 80.
fn front_of(line: &[u8]) -> &[u8]
    ensures { result.now ≡ take 80 line.now }
{
    if line.len() <= SHOWN {
        line
    } else {
        &line[..SHOWN]
    }
}

/// Returns the first bytes of the line of this number. Empty without a number.
fn line_front(text: &[u8], line: Option<usize>) -> &[u8]
    ensures { result.now ≡ line_front text.now line }
{
    match line {
        Some(number) => front_of(line_at(text, number)),
        None => b"",
    }
}

/// Copies the name, if there is one. `Err` if an allocation fails.
fn copied(alloc: Global, name: Option<&[u8]>) -> Result<Option<Vec<u8>>, AllocError>
    ensures { IfOk result
        (λ copy. option_map (λ bytes. bytes.items) copy ≡ option_map (λ bytes. bytes.now) name.entry) }
{
    match name {
        Some(name) => Ok(Some(Vec::from_slice(alloc, name)?)),
        None => Ok(None),
    }
}

/// Returns the fence of this name in the text, if there is a name. `Err` if an allocation fails.
fn fence_line(
    alloc: Global,
    text: &[u8],
    name: Option<&[u8]>,
) -> Result<Option<FenceLine>, AllocError>
    ensures { IfOk result
        (λ fence. option_map fence_line_of fence ≡ option_map (fence_line_in text.now) (option_copied name.entry)) }
{
    let Some(name) = name else {
        return Ok(None);
    };
    Ok(Some(FenceLine {
        name: Vec::from_slice(alloc, name)?,
        line: nth_line(text, name, 0),
    }))
}

/// Collects what is printed about the refused text. `Err` if an allocation fails.
fn refusal_of(
    alloc: Global,
    kind: TextKind,
    text: &[u8],
    fault: &LoadFault<'_>,
    overlapping_one: &FenceConflict<'_>,
) -> Result<TextRefusal, AllocError>
    ensures { IfOk result (ReportsFault kind text.now fault.now (conflict_in overlapping_one.now)) }
{
    let name = copied(alloc, fault.name)?;
    let at = fault_line(text, fault);
    let shown = Vec::from_slice(alloc, line_front(text, at))?;
    let first_overlapped = fence_line(alloc, text, overlapping_one.first)?;
    let second_overlapped = fence_line(alloc, text, overlapping_one.second)?;
    Ok(TextRefusal {
        number: fault.number,
        line: fault.line,
        name,
        at,
        shown,
        earlier: earlier_line(text, fault),
        first_overlapped,
        second_overlapped,
        hint: hint_of(kind, text),
        remark: remark_of(text, fault.number),
    })
}

/// Returns what is printed about a failed allocation.
fn refusal_of_memory(alloc: Global, kind: TextKind, text: &[u8]) -> TextRefusal
    ensures { ReportsFault kind text.now (load_fault_of Memory) no_fence result }
{
    TextRefusal {
        number: FaultNumber::OutOfMemory,
        line: None,
        name: None,
        at: None,
        shown: Vec::new(alloc),
        earlier: None,
        first_overlapped: None,
        second_overlapped: None,
        hint: hint_of(kind, text),
        remark: None,
    }
}

/// What is printed about a refused state text.
#[derive(Drop)]
pub struct StateRefusal {
    pub number: StateFaultNumber,
    /// The line of the fault, counted from 1.
    pub line: usize,
    /// The first bytes of that line.
    pub shown: Vec<u8>,
}

impl StateRefusal {
    /// Collects what is printed about the refused text. `Err` if an allocation fails.
    pub fn new(alloc: Global, refused: &StateRefused) -> Result<StateRefusal, AllocError>
        ensures { (text : List ℕ) → HasEnd text refused.now → IfOk result (ReportsStateFault text refused.now.fault) }
    {
        let StateRefused { fault, lines, end } = refused;
        let shown = Vec::from_slice(
            alloc,
            line_front(end, Some(fault.line.saturating_sub(*lines))),
        )?;
        Ok(StateRefusal {
            number: fault.number,
            line: fault.line,
            shown,
        })
    }
}

impl TextRefusal {
    /// Collects what is printed about the refused text, which was read as this kind. If memory runs
    /// out, it describes a failed allocation.
    pub fn new(alloc: Global, kind: TextKind, text: &[u8], fault: &LoadFault<'_>) -> TextRefusal
        ensures { (reported : LoadFault) × (overlapping_one : Conflict) × IsReportedConflict fault.now no_fence reported
            overlapping_one × ReportsFault kind text.now reported overlapping_one result }
    {
        let none = FenceConflict {
            first: None,
            second: None,
        };
        TextRefusal::with_conflict(alloc, kind, text, fault, &none)
    }

    /// Like `new`, but also reports the two conflicting fences.
    pub fn with_conflict(
        alloc: Global,
        kind: TextKind,
        text: &[u8],
        fault: &LoadFault<'_>,
        overlapping_one: &FenceConflict<'_>,
    ) -> TextRefusal
        ensures { (reported : LoadFault) × (fences : Conflict) × IsReportedConflict fault.now
            (conflict_in overlapping_one.now) reported fences × ReportsFault kind text.now reported fences result }
    {
        match refusal_of(alloc, kind, text, fault, overlapping_one) {
            Ok(refusal) => refusal,
            Err(_) => refusal_of_memory(alloc, kind, text),
        }
    }
}
