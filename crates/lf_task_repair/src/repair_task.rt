//! The work of `lefence repair`.

ghost use Rattle.lf_task_repair.specs.Repairs.{repair_means};

use crate::opening::open_repair;
use crate::repairing::{RepairStart, repair_selected};
use lf_cli::RepairOptions;
use lf_floor::Floor;
use lf_legalize::IndexSeeker;
use lf_task_designs::InputFiles;
use lf_task_faults::Fault;
use lf_task_run::{Begun, Job, Progress, TaskResults, Work};
use std::alloc::Global;

/// Repairs the teams of a design by the floor's own commands. The floor begins in the state of a state
/// file, if one is given.
///
/// The first fault of what is opened, in this order:
///
/// - the files, LEF and then DEF
/// - the design
/// - the state
/// - the pins of the LEF files, and then the nets of the DEF file, if cells are to go near their nets
#[derive(Clone, Copy)]
pub struct Repair {
    /// Which cells may move, and how places are searched for.
    pub options: RepairOptions,
}

impl Work for Repair {
    type Opened = RepairStart;

    ghost means = { λ work. repair_means work.options };

    ghost needs = { λ work floor start. Unit {0} };

    fn open<'f, T: InputFiles>(
        &self,
        alloc: Global,
        texts: &T,
        job: &Job<'f>,
    ) -> Result<Begun<RepairStart>, Fault<'f>> {
        open_repair(alloc, texts, &self.options, job)
    }

    fn run<'f, P: Progress>(
        &self,
        alloc: Global,
        floor: &mut Floor<IndexSeeker>,
        start: &RepairStart,
        job: &Job<'f>,
        progress: &mut P,
    ) -> Result<TaskResults, Fault<'f>> {
        repair_selected(alloc, floor, &self.options, start, job, progress)
    }
}
