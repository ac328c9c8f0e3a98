//! The work of `lefence improve`.

ghost use Rattle.lf_improve_team.specs.FloorLengths.{AreNetsOfFloor};
ghost use Rattle.lf_task_improve.specs.Works.{improve_means};

use crate::improving::improve_selected;
use crate::opening::{DesignWires, open_with_nets};
use lf_cli::ImproveOptions;
use lf_floor::Floor;
use lf_legalize::IndexSeeker;
use lf_task_designs::InputFiles;
use lf_task_faults::Fault;
use lf_task_run::{Begun, Job, Progress, TaskResults, Work};
use std::alloc::Global;

/// Improves the teams of a design: the floor's own commands move legal cells so that the nets of the
/// DEF file become shorter. The wire length never grows. The floor begins as loaded; a state is not
/// read.
///
/// The first fault of what is opened, in this order:
///
/// - the files, LEF and then DEF
/// - the design
/// - the pins of the LEF files, and then the nets of the DEF file
#[derive(Clone, Copy)]
pub struct Improve {
    /// The greatest distance of a cell from its place in the DEF text, in rows. `None` if a cell may
    /// move as far as its team's ground reaches.
    pub within: Option<u32>,
    /// How places are searched for.
    pub options: ImproveOptions,
}

impl Work for Improve {
    type Opened = DesignWires;

    ghost means = { λ work. improve_means work.within };

    ghost needs = { λ work floor wires. AreNetsOfFloor wires.of_teams wires.netlist.nets floor };

    fn open<'f, T: InputFiles>(
        &self,
        alloc: Global,
        texts: &T,
        job: &Job<'f>,
    ) -> Result<Begun<DesignWires>, Fault<'f>> {
        open_with_nets(alloc, texts, job)
    }

    fn run<'f, P: Progress>(
        &self,
        alloc: Global,
        floor: &mut Floor<IndexSeeker>,
        wires: &DesignWires,
        job: &Job<'f>,
        progress: &mut P,
    ) -> Result<TaskResults, Fault<'f>> {
        improve_selected(alloc, floor, wires, self, job, progress)
    }
}
