//! The design of files with its nets, and the floor with which its improvement begins.

ghost use Rattle.std.specs.Prelude.{◌≡◌, ◌<◌, None, Some, IfErr, IfOk, length, slice_get};
ghost use Rattle.lf_improve_team.specs.FloorLengths.{AreNetsOfFloor};
ghost use Rattle.lf_task_faults.specs.Faults.{IsEarly};
ghost use Rattle.lf_task_wires.specs.Wirelengths.{IsFilesFault};
ghost use Rattle.lf_task_run.specs.Tasks.{IsBegun, request_of};
ghost use Rattle.lf_task_improve.specs.Openings.{OpensWithNets, teams_of_cells};

use lf_floorplan::Loaded;
use lf_task_designs::InputFiles;
use lf_task_faults::Fault;
use lf_task_files::start_floor;
use lf_task_run::{Begun, Job, is_text_requested};
use lf_task_wires::{NettedDesign, NettedInput, netted_design};
use lf_wire_length::{Netlist, TeamNets};
use std::alloc::{AllocError, Global};

/// Returns the number of the cell's team.
fn team_of(loaded: &Loaded, at: usize) -> u32
    requires { at < length loaded.now.cells }
    ensures { slice_get (teams_of_cells loaded.now) at ≡ Some result }
{
    loaded.cells.get(at).unwrap().team as u32
}

/// Returns the number of each cell's team. `Err` if an allocation fails.
fn teams_of_cells(alloc: Global, loaded: &Loaded) -> Result<Vec<u32>, AllocError>
    ensures { IfOk result (λ teams. teams.items ≡ teams_of_cells loaded.now) }
{
    let mut teams = Vec::with_capacity(alloc, loaded.cells.len())?;
    for at in 0..loaded.cells.len() {
        teams.push(team_of(loaded, at))?;
    }
    Ok(teams)
}

/// The nets of a design, for improvements.
#[derive(Drop)]
pub struct DesignWires {
    pub netlist: Netlist,
    /// The nets of each team.
    pub of_teams: TeamNets,
    /// The number of each cell's team.
    pub teams: Vec<u32>,
}

/// Opens the design of the files with its nets, and makes its floor. The DEF text is kept if one of
/// the requested files is made from it.
pub(crate) fn open_with_nets<'f, T: InputFiles>(
    alloc: Global,
    texts: &T,
    job: &Job<'f>,
) -> Result<Begun<DesignWires>, Fault<'f>>
    ensures ok { IfOk result (IsBegun OpensWithNets (T.gives texts.now) (request_of job.now)) }
    ensures nets { IfOk result (λ begun. AreNetsOfFloor begun.opened.of_teams begun.opened.netlist.nets begun.floor) }
    ensures err { IfErr result (IsFilesFault (request_of job.now).limits (T.gives texts.now) (request_of job.now).def
        (request_of job.now).lefs None) }
    ensures early { IfErr result IsEarly }
{
    let is_text_kept = is_text_requested(&job.files);
    let input = NettedInput {
        def: job.input.def,
        lefs: job.input.lefs,
        limits: job.input.limits,
        is_text_kept,
    };
    let NettedDesign {
        loaded,
        netlist,
        original,
    } = netted_design(alloc, texts, &input)?;
    let netlist = netlist?;
    let teams = teams_of_cells(alloc, &loaded)?;
    let floor = start_floor(alloc, loaded)?;
    let count = floor.placement().frame().teams.len() + 1;
    let of_teams = netlist.nets_of_teams(alloc, teams.as_slice(), count)?;
    Ok(Begun {
        floor,
        original,
        opened: DesignWires {
            netlist,
            of_teams,
            teams,
        },
    })
}
