//! The files that a task reads, and the floor with which its work begins.

ghost use Rattle.std.specs.Prelude.{◌≡◌, ◌+◌, IfErr, IfOk, length};
ghost use Rattle.lf_floor_model.specs.Designs.{initial_floor};
ghost use Rattle.lf_task_files.specs.Inputs.{path_of};
ghost use Rattle.lf_task_files.specs.States.{IsOpenedFloor, IsNotOpened};

use crate::restore::floor_in_state;
use lf_floor::Floor;
use lf_frame::{Limits, Loaded};
use lf_legalize::IndexSeeker;
use lf_task_designs::InputFiles;
use lf_task_faults::Fault;
use std::alloc::{AllocError, Global};

/// The files that a task reads: those of its design and the state with which it begins. It also has
/// the limits of the design.
#[derive(Clone, Copy)]
pub struct DesignInput<'a> {
    /// The path of the DEF file.
    pub def: &'a str,
    /// The paths of the LEF files, in the order in which they are read.
    pub lefs: &'a [&'a str],
    /// The path of the state, if one is given.
    pub state: Option<&'a str>,
    pub limits: Limits,
}

/// Makes the floor of the design, with an index of its rows for the search for best places.
///
/// `Err` if an allocation fails.
pub fn start_floor(alloc: Global, loaded: Loaded) -> Result<Floor<IndexSeeker>, AllocError>
    ensures { IfOk result (λ floor. floor ≡ initial_floor loaded) }
{
    let seeker = IndexSeeker::build(alloc, &loaded.frame)?;
    Floor::start(alloc, loaded, seeker)
}

/// Makes the floor with which work on the design begins. If a path is given, the floor is in the
/// state of that file.
///
/// `Err` if an allocation fails, or the file has no state of the design.
pub fn open_floor<'a, T: InputFiles>(
    alloc: Global,
    texts: &T,
    loaded: Loaded,
    state: Option<&'a str>,
) -> Result<Floor<IndexSeeker>, Fault<'a>>
    ensures ok { IfOk result (IsOpenedFloor (T.gives texts.now) (path_of state.entry) (initial_floor loaded)) }
    ensures many { IfOk result (λ floor. length floor.teams ≡ length loaded.frame.teams + 1) }
    ensures err { IfErr result (IsNotOpened (T.gives texts.now) (path_of state.entry) loaded) }
{
    match state {
        None => Ok(start_floor(alloc, loaded)?),
        Some(path) => floor_in_state(alloc, texts, loaded, path),
    }
}
