//! The beginning of a segment.

ghost use Rattle.std.specs.Prelude.{◌≡◌, ◌<◌, ◌^◌, ◌++◌, true, length, map, IfOk, OnOk};
ghost use Rattle.std.specs.Str.{bytes_eq};
ghost use Rattle.lf_journal_text.specs.Batches.{IsBatch};
ghost use Rattle.lf_journal_text.specs.Records.{beginning, beginning_text, design_line, entry_text, is_line, names_text, state_name, title};

use crate::batch::sum_from;
use crate::frame::{batch_of, write_digits};
use crate::records::{Record, write_record};
use std::alloc::{AllocError, Global};

/// Returns the name of a state, or of a text of the design: its length and its sum.
#[tactic(auto, unfolding(crate::specs::Records::state_name))]
pub fn text_name(alloc: Global, state: &[u8]) -> Result<Vec<u8>, AllocError>
    ensures { IfOk result (λ name. name.items ≡ state_name state.now) }
{
    let mut name = Vec::new(alloc);
    write_digits(&mut name, 13, state.len() as u64)?;
    name.push(b' ')?;
    write_digits(&mut name, 10, u64::from(sum_from(0, state)))?;
    Ok(name)
}

/// Returns whether the last line of a beginning names this state.
pub fn names_state(alloc: Global, name: &[u8], state: &[u8]) -> Result<bool, AllocError>
    ensures { IfOk result (λ same. same ≡ bytes_eq name.now (state_name state.now)) }
{
    let due = text_name(alloc, state)?;
    Ok(name == due.as_slice())
}

/// Appends the names of texts, each behind a space.
fn put_names(line: &mut Vec<u8>, names: &[Vec<u8>]) -> Result<(), AllocError>
    ensures { OnOk result (line.new.items ≡ line.old.items ++ names_text (map (λ name. name.items) names.now)) }
{
    for name in names {
        line.push(b' ')?;
        line.extend_from_slice(name)?;
    }
    Ok(())
}

/// Returns the line of a design: the number of session slots, and the names of the DEF text and of
/// each LEF text.
pub fn design_line(alloc: Global, sessions: u64, names: &[Vec<u8>]) -> Result<Vec<u8>, AllocError>
    ensures { IfOk result (λ line. line.items ≡ design_line sessions (map (λ name. name.items) names.now)) }
{
    let mut line = Vec::new(alloc);
    write_digits(&mut line, 10, sessions)?;
    put_names(&mut line, names)?;
    Ok(line)
}

/// Returns the text of the record with which a segment begins: `design` is the line of the design, and
/// `name` the name of the state.
pub fn first_record(alloc: Global, design: &[u8], name: &[u8]) -> Result<Vec<u8>, AllocError>
    ensures { IfOk result (λ text. text.items
        ≡ entry_text (record { origin = title; line = design.now; reply = name.now })) }
{
    let mut text = Vec::new(alloc);
    let record = Record {
        origin: b"lefence-journal 4",
        line: design,
        reply: name,
    };
    write_record(&mut text, &record)?;
    Ok(text)
}

/// Returns the batch with which a segment begins. `design` is a line of the hub's: what a start
/// compares, as the sums of the design's texts and the number of session slots.
pub fn beginning_of(
    alloc: Global,
    time: u64,
    design: &[u8],
    state: &[u8],
) -> Result<Vec<u8>, AllocError>
    requires time { time < 10 ^ 13 }
    requires line { is_line design.now ≡ true }
    requires small { length design.now < 90000 }
    ensures text { IfOk result (λ batch. batch.items ≡ beginning_text time design.now state.now) }
    ensures batch { IfOk result (λ batch. IsBatch batch.items) }
{
    let name = text_name(alloc, state)?;
    let record = first_record(alloc, design, &name)?;
    batch_of(alloc, time, &record)
}
