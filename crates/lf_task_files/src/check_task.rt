//! The check of a design of files.

ghost use Rattle.std.specs.Prelude.{◌≡◌, ◌⊎◌, map, IfErr, IfOk};
ghost use Rattle.lf_floorplan.specs.declared.loaded.Loaded.{Loaded};
ghost use Rattle.lf_task_designs.specs.Checks.{IsNotReported};
ghost use Rattle.lf_task_faults.specs.Faults.{BlamesWriter};
ghost use Rattle.lf_task_files.specs.Exits.{IsReported};
ghost use Rattle.lf_task_files.specs.States.{IsFloorFault, IsViewedDesignOf};
ghost use Rattle.lf_task_files.specs.Inputs.{path_of};

use crate::exit_status::{ILLEGAL_STATUS, LEGAL_STATUS};
use crate::inputs::DesignInput;
use crate::viewed::viewed_design;
use lf_frame::Loaded;
use lf_io::Sink;
use lf_task_designs::{InputFiles, load_files, report_design};
use lf_task_faults::Fault;
use std::alloc::Global;

/// Writes the report of the design, and returns the exit status.
fn check_design<'a, W: Sink>(
    alloc: Global,
    loaded: &Loaded,
    writer: &mut W,
) -> Result<u8, Fault<'a>>
    ensures ok { IfOk result (IsReported loaded.now (W.contents writer.old) (W.contents writer.new)) }
    ensures err { IfErr result (λ fault. IsNotReported loaded.now (W.contents writer.old) (W.contents writer.new) fault
        × BlamesWriter fault (writer.new ≡ writer.old) (W.has_failed writer.old) (W.has_failed writer.new)) }
    ensures held { W.holds writer.new ≡ W.holds writer.old }
{
    match report_design(alloc, loaded, writer) {
        Ok(true) => Ok(LEGAL_STATUS),
        Ok(false) => Ok(ILLEGAL_STATUS),
        Err(fault) => Err(fault),
    }
}

/// Loads the design of these files with the places to check.
fn viewed_files<'a, T: InputFiles>(
    alloc: Global,
    texts: &T,
    inputs: DesignInput<'a>,
    committed: bool,
) -> Result<Loaded, Fault<'a>>
    ensures ok { IfOk result (IsViewedDesignOf committed inputs.entry.limits (T.gives texts.now) inputs.entry.def.now
        (map (λ lef. lef.now) inputs.entry.lefs.now)
        (path_of inputs.entry.state)) }
    ensures err { IfErr result (IsFloorFault inputs.entry.limits (T.gives texts.now) inputs.entry.def.now
        (map (λ lef. lef.now) inputs.entry.lefs.now)
        (path_of inputs.entry.state)) }
{
    let loaded = load_files(alloc, inputs.limits, texts, inputs.def, inputs.lefs)?;
    viewed_design(alloc, texts, loaded, committed, inputs.state)
}

/// Writes the report of the design of these files. The cells are at the places of the DEF text. If
/// a state is given, they are at its committed places if `committed`, else at its working places.
/// Returns the exit status: 0, or 4 if the design is not fully legal.
///
/// `Err` is the first fault, in this order: the LEF files, the DEF file, the design, the state,
/// memory for the report, the writer. At most a front of the report is then written.
pub fn check<'a, T: InputFiles, W: Sink>(
    alloc: Global,
    texts: &T,
    inputs: DesignInput<'a>,
    committed: bool,
    writer: &mut W,
) -> Result<u8, Fault<'a>>
    ensures ok { IfOk result (λ status. (seen : Loaded)
        × IsViewedDesignOf committed inputs.entry.limits (T.gives texts.now) inputs.entry.def.now
        (map (λ lef. lef.now) inputs.entry.lefs.now) (path_of inputs.entry.state) seen
        × IsReported seen (W.contents writer.old) (W.contents writer.new) status) }
    ensures err { IfErr result (λ fault.
        ((IsFloorFault inputs.entry.limits (T.gives texts.now) inputs.entry.def.now
        (map (λ lef. lef.now) inputs.entry.lefs.now)
        (path_of inputs.entry.state) fault × (W.contents writer.new ≡ W.contents writer.old))
        ⊎ ((seen : Loaded)
        × IsViewedDesignOf committed inputs.entry.limits (T.gives texts.now) inputs.entry.def.now
        (map (λ lef. lef.now) inputs.entry.lefs.now) (path_of inputs.entry.state) seen
        × IsNotReported seen (W.contents writer.old) (W.contents writer.new) fault))
        × BlamesWriter fault (writer.new ≡ writer.old) (W.has_failed writer.old) (W.has_failed writer.new)) }
    ensures held { W.holds writer.new ≡ W.holds writer.old }
{
    let seen = viewed_files(alloc, texts, inputs, committed)?;
    check_design(alloc, &seen, writer)
}
