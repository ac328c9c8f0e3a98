//! The design of files for a repair, and the floor with which it begins.

ghost use Rattle.std.specs.Prelude.{IfErr, IfOk};
ghost use Rattle.lf_task_faults.specs.Faults.{IsEarly};
ghost use Rattle.lf_task_files.specs.States.{IsFloorFault};
ghost use Rattle.lf_task_wires.specs.Wirelengths.{IsFilesFault};
ghost use Rattle.lf_task_run.specs.Tasks.{IsBegun, request_of};
ghost use Rattle.lf_task_repair.specs.Repairs.{IsOpeningFault, OpensRepair};

use crate::repairing::RepairStart;
use lf_cli::RepairOptions;
use lf_task_designs::{InputFiles, OpenedDesign, open_design};
use lf_task_faults::Fault;
use lf_task_files::{MeasuredFloor, open_measured};
use lf_task_run::{Begun, Job, is_text_requested};
use lf_task_wires::{NettedDesign, NettedInput, netted_design};
use lf_wire_targets::TeamTargets;
use std::alloc::Global;

/// Opens the design of the files with its nets, and the floor with which its repair begins. The cells
/// without a place have targets near their nets. The DEF text is kept if one of the requested files is
/// made from it.
fn open_near_nets<'f, T: InputFiles>(
    alloc: Global,
    texts: &T,
    job: &Job<'f>,
) -> Result<Begun<RepairStart>, Fault<'f>>
    ensures ok { IfOk result (IsBegun OpensRepair (T.gives texts.now) (request_of job.now)) }
    ensures err { IfErr result (IsFilesFault (request_of job.now).limits (T.gives texts.now) (request_of job.now).def
        (request_of job.now).lefs (request_of job.now).state) }
{
    let is_text_kept = is_text_requested(&job.files);
    let input = NettedInput {
        def: job.input.def,
        lefs: job.input.lefs,
        limits: job.input.limits,
        is_text_kept,
    };
    let NettedDesign {
        loaded,
        netlist,
        original,
    } = netted_design(alloc, texts, &input)?;
    let measured = open_measured(alloc, texts, loaded, job.input.state)?;
    let MeasuredFloor { floor, limits } = measured;
    let netlist = netlist?;
    let targets = TeamTargets::near_nets(alloc, &netlist, floor.placement().cells())?;
    Ok(Begun {
        floor,
        original,
        opened: RepairStart { limits, targets },
    })
}

/// Opens the design of the files, and the floor with which its repair begins. Its DEF text is kept
/// if one of the requested files is made from it.
fn open_without_nets<'f, T: InputFiles>(
    alloc: Global,
    texts: &T,
    job: &Job<'f>,
) -> Result<Begun<RepairStart>, Fault<'f>>
    ensures ok { IfOk result (IsBegun OpensRepair (T.gives texts.now) (request_of job.now)) }
    ensures err { IfErr result (IsFloorFault (request_of job.now).limits (T.gives texts.now) (request_of job.now).def
        (request_of job.now).lefs (request_of job.now).state) }
{
    let input = &job.input;
    let opened = open_design(
        alloc,
        input.limits,
        texts,
        input.def,
        input.lefs,
        is_text_requested(&job.files),
    )?;
    let OpenedDesign { loaded, original } = opened;
    let measured = open_measured(alloc, texts, loaded, input.state)?;
    let MeasuredFloor { floor, limits } = measured;
    Ok(Begun {
        floor,
        original,
        opened: RepairStart {
            limits,
            targets: TeamTargets::none(alloc),
        },
    })
}

/// Opens the design of the files, with its nets if cells are to go near them, and the floor with which
/// its repair begins. Its DEF text is kept if one of the requested files is made from it.
pub(crate) fn open_repair<'f, T: InputFiles>(
    alloc: Global,
    texts: &T,
    options: &RepairOptions,
    job: &Job<'f>,
) -> Result<Begun<RepairStart>, Fault<'f>>
    ensures ok { IfOk result (IsBegun OpensRepair (T.gives texts.now) (request_of job.now)) }
    ensures err { IfErr result (IsOpeningFault options.now (T.gives texts.now) (request_of job.now)) }
    ensures early { IfErr result IsEarly }
{
    let near_nets = options.near_nets;
    if near_nets {
        return open_near_nets(alloc, texts, job);
    }
    open_without_nets(alloc, texts, job)
}
