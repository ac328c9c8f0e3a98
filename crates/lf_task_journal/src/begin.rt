//! The floor with which lines begin.

ghost use Rattle.std.specs.Prelude.{◌≡◌, IfErr, IfOk, OnOk, map};
ghost use Rattle.lf_floor_model.specs.Designs.{initial_floor};
ghost use Rattle.lf_server.specs.Connections.{KeepsDesign};
ghost use Rattle.lf_task_files.specs.Inputs.{path_of};
ghost use Rattle.lf_task_journal.specs.Begun.{IsBegunFloor, IsFloorAfter, IsNotBegun, IsNotRunOn};

use crate::run::run_journal_file;
use lf_floor::Floor;
use lf_frame::Loaded;
use lf_legalize::IndexSeeker;
use lf_task_designs::InputFiles;
use lf_task_faults::Fault;
use lf_task_files::{DesignInput, open_floor};
use std::alloc::Global;

/// Runs the journal on the floor of this input, if one is given.
fn run_given<'a, T: InputFiles>(
    alloc: Global,
    texts: &T,
    floor: &mut Floor<IndexSeeker>,
    input: DesignInput<'a>,
    journal: Option<&'a str>,
) -> Result<(), Fault<'a>>
    ensures stays { KeepsDesign floor.old floor.new }
    ensures ok { OnOk result (IsFloorAfter input.entry.limits (T.gives texts.now) input.entry.def.now
        (map (λ lef. lef.now) input.entry.lefs.now) (path_of input.entry.state) (path_of journal.entry) floor.old
        floor.new) }
    ensures err { IfErr result (IsNotRunOn input.entry.limits (T.gives texts.now) input.entry.def.now
        (map (λ lef. lef.now) input.entry.lefs.now) (path_of input.entry.state) (path_of journal.entry) floor.old) }
{
    match journal {
        Some(path) => run_journal_file(alloc, texts, floor, input, path),
        None => Ok(()),
    }
}

/// Makes the floor with which lines over the design of this input begin: in the state of its file, and
/// after the journal of this path, each if one is given.
///
/// `Err` if an allocation fails, the file of the state has no state of the design, a file cannot be
/// read, or the journal is refused.
pub fn begin_floor<'a, T: InputFiles>(
    alloc: Global,
    texts: &T,
    loaded: Loaded,
    input: DesignInput<'a>,
    journal: Option<&'a str>,
) -> Result<Floor<IndexSeeker>, Fault<'a>>
    ensures ok { IfOk result (IsBegunFloor input.entry.limits (T.gives texts.now) input.entry.def.now
        (map (λ lef. lef.now) input.entry.lefs.now) (path_of input.entry.state) (path_of journal.entry) loaded) }
    ensures components { IfOk result (λ floor. floor.components ≡ (initial_floor loaded).components) }
    ensures err { IfErr result (IsNotBegun input.entry.limits (T.gives texts.now) input.entry.def.now
        (map (λ lef. lef.now) input.entry.lefs.now) (path_of input.entry.state) (path_of journal.entry) loaded) }
{
    let mut floor = open_floor(alloc, texts, loaded, input.state)?;
    run_given(alloc, texts, &mut floor, input, journal)?;
    Ok(floor)
}
