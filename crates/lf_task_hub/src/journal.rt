//! The journal of a hub, opened and run.

ghost use Rattle.std.specs.Prelude.{◌<◌, ◌^◌, IfErr, IfOk, IsTrue, OnOk, length, map};
ghost use Rattle.lf_rules.specs.Legalizer.{Legalizer};
ghost use Rattle.lf_journal.specs.Journals.{IsSettled};
ghost use Rattle.lf_journal_run.specs.Runs.{RunsJournal};
ghost use Rattle.lf_task_files.specs.Inputs.{path_of};
ghost use Rattle.lf_task_journal.specs.Names.{IsLineOf, IsStateNamed};
ghost use Rattle.lf_task_hub.specs.Hubs.{IsOfHub, RunsAText};

use crate::failure::{journal_fault, serving_fault};
use crate::input::HubInput;
use lf_floor::Floor;
use lf_hub_serve::write_records;
use lf_journal::{Journal, OpenError, Opened, open};
use lf_journal_run::{Beginning, RunError, run_journal};
use lf_journal_text::{Refusal, RefusalKind, first_record};
use lf_legalize::IndexSeeker;
use lf_task_designs::InputFiles;
use lf_task_faults::Fault;
use lf_task_journal::{line_of_files, name_of_state};
use sqlite_disk::Disk;
use std::alloc::Global;

/// Opens the segment. `Err` if the disk fails, or the segment is damaged.
fn open_segment<'a, D: Disk>(
    alloc: Global,
    segment: &mut D,
    folder: &'a str,
) -> Result<Opened, Fault<'a>>
    requires usable { IsTrue (D.Disk.is_usable segment.old) }
    ensures settled { IfOk result (λ opened. IsTrue (D.Disk.is_clean segment.new)
        → IsSettled D.Disk.seen D.Disk.may_leave segment.new (length opened.text.items) opened.len) }
    ensures usable { OnOk result (IsTrue (D.Disk.is_usable segment.new)) }
    ensures err { IfErr result IsOfHub }
{
    match open(alloc, segment) {
        Ok(opened) => Ok(opened),
        Err(OpenError::Disk(error)) => Err(journal_fault(folder, &error)),
        Err(OpenError::Damaged(damage)) => Err(Fault::RefusedJournal(
            folder,
            Refusal {
                at: damage.at,
                kind: RefusalKind::Damaged(damage.kind),
            },
        )),
    }
}

/// Puts the beginning into a journal that has no batch. `Err` if the disk fails, or memory runs out.
fn begin<'a, D: Disk>(
    alloc: Global,
    time: u64,
    journal: &mut Journal<D>,
    due: Beginning<'_>,
    folder: &'a str,
) -> Result<(), Fault<'a>>
    requires usable { IsTrue (D.Disk.is_usable journal.old.disk) }
    requires settled { IsTrue (D.Disk.is_clean journal.old.disk)
        → IsSettled D.Disk.seen D.Disk.may_leave journal.old.disk journal.old.end journal.old.len }
    requires time { time < 10 ^ 13 }
    ensures settled { OnOk result (IsTrue (D.Disk.is_clean journal.new.disk)
        → IsSettled D.Disk.seen D.Disk.may_leave journal.new.disk journal.new.end journal.new.len) }
    ensures usable { OnOk result (IsTrue (D.Disk.is_usable journal.new.disk)) }
    ensures err { IfErr result IsOfHub }
{
    if journal.end > 0 {
        return Ok(());
    }
    let Ok(record) = first_record(alloc, due.design, due.state) else {
        return Err(Fault::SetupOutOfMemory);
    };
    match write_records(alloc, time, journal, &record) {
        Ok(()) => Ok(()),
        Err(failure) => Err(serving_fault(folder, failure)),
    }
}

/// Runs the text of a journal on the floor. `Err` if it is refused, or an allocation fails.
fn run_text<'a>(
    alloc: Global,
    floor: &mut Floor<IndexSeeker>,
    text: &[u8],
    due: Beginning<'_>,
    folder: &'a str,
) -> Result<(), Fault<'a>>
    ensures ok { (l : Legalizer) → OnOk result
        (RunsJournal l text.now due.entry.design.now due.entry.state.now floor.old floor.new) }
    ensures err { IfErr result IsOfHub }
{
    match run_journal(alloc, floor, text, due) {
        Ok(()) => Ok(()),
        Err(RunError::Memory) => Err(Fault::SetupOutOfMemory),
        Err(RunError::Refused(refusal)) => Err(Fault::RefusedJournal(folder, refusal)),
    }
}

/// The beginning that the journal of a hub must have: the line of its design, and the name of its state.
#[derive(Drop)]
pub(crate) struct DueBeginning {
    line: Vec<u8>,
    name: Vec<u8>,
}

/// Returns the beginning that the journal of this hub must have.
pub(crate) fn due_beginning<'a, T: InputFiles>(
    alloc: Global,
    texts: &T,
    input: HubInput<'a>,
) -> Result<DueBeginning, Fault<'a>>
    ensures line { IfOk result (λ due. IsLineOf (T.gives texts.now) input.entry.design.def.now
        (map (λ lef. lef.now) input.entry.design.lefs.now) input.entry.design.limits.sessions due.line.items) }
    ensures name { IfOk result (λ due.
        IsStateNamed (T.gives texts.now) (path_of input.entry.design.state) due.name.items) }
    ensures err { IfErr result IsOfHub }
{
    let design = input.design;
    let line = line_of_files(
        alloc,
        texts,
        design.def,
        design.lefs,
        design.limits.sessions,
    )?;
    let name = name_of_state(alloc, texts, design.state)?;
    Ok(DueBeginning { line, name })
}

/// Opens the journal in a segment, and runs its records on the floor. A journal that is new begins here.
pub(crate) fn open_journal<'a, D: Disk + Drop>(
    alloc: Global,
    time: u64,
    segment: D,
    floor: &mut Floor<IndexSeeker>,
    due: &DueBeginning,
    folder: &'a str,
) -> Result<Journal<D>, Fault<'a>>
    requires usable { IsTrue (D.Disk.is_usable segment) }
    requires time { time < 10 ^ 13 }
    ensures settled { IfOk result (λ journal. IsTrue (D.Disk.is_clean journal.disk)
        → IsSettled D.Disk.seen D.Disk.may_leave journal.disk journal.end journal.len) }
    ensures usable { IfOk result (λ journal. IsTrue (D.Disk.is_usable journal.disk)) }
    ensures runs { OnOk result (RunsAText due.now.line.items due.now.name.items floor.old floor.new) }
    ensures err { IfErr result IsOfHub }
{
    let mut segment = segment;
    let opened = open_segment(alloc, &mut segment, folder)?;
    let beginning = Beginning {
        design: &due.line,
        state: &due.name,
    };
    run_text(alloc, floor, &opened.text, beginning, folder)?;
    let mut journal = Journal {
        disk: segment,
        end: opened.text.len(),
        len: opened.len,
    };
    begin(alloc, time, &mut journal, beginning, folder)?;
    Ok(journal)
}
