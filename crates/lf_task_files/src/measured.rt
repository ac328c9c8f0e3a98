//! The floor with which a repair begins, how far its cells must move at least, and which macros no
//! place can hold.
//!
//! A state is read once. Its text then serves twice: for the places from which cells move, and for
//! the floor.

ghost use Rattle.std.specs.Prelude.{◌≡◌, ◌⊎◌, ◌+◌, ℕ, List, None, Some, IfErr, IfOk, length};
ghost use Rattle.lf_floor_model.specs.Designs.{initial_floor};
ghost use Rattle.lf_task_faults.specs.declared.faults.Fault.TheVariants.{SetupOutOfMemory};
ghost use Rattle.lf_task_faults.specs.declared.faults.TextKind.TheVariants.{State};
ghost use Rattle.lf_task_files.specs.HeldTexts.{gives_text};
ghost use Rattle.lf_task_files.specs.Inputs.{path_of};
ghost use Rattle.lf_task_files.specs.Measured.{AreRepairLimits, IsMeasuredAsLoaded, IsMeasuredFloor};
ghost use Rattle.lf_task_files.specs.States.{IsNotOpened};

use crate::inputs::{open_floor, start_floor};
use crate::restore::state_file;
use crate::viewed::viewed_design;
use lf_floor::Floor;
use lf_frame::Loaded;
use lf_legalize::IndexSeeker;
use lf_repair_bounds::{ImpossibleMacro, impossible_macros, max_min_displacements};
use lf_task_designs::{InputFiles, read_text, single_chunk};
use lf_task_faults::{Fault, ReadFailure};
use std::alloc::{AllocError, Global};
use std::collections::VecDeque;

/// The text of a file that was read, given for each path.
#[derive(Drop)]
struct HeldText {
    alloc: Global,
    text: Vec<u8>,
}

impl InputFiles for HeldText {
    ghost use Rattle.lf_task_files.specs.HeldTexts.{gives_text};

    ghost gives = { λ s. gives_text s.text.items };

    fn text(&self, _path: &str) -> Result<Vec<u8>, ReadFailure> {
        match Vec::from_slice(self.alloc, self.text.as_slice()) {
            Ok(copy) => Ok(copy),
            Err(_) => Err(ReadFailure::OutOfMemory),
        }
    }

    fn pieces(&self, alloc: Global, _path: &str) -> Result<VecDeque<Vec<u8>>, ReadFailure> {
        match Vec::from_slice(alloc, self.text.as_slice()) {
            Ok(copy) => match single_chunk(alloc, copy) {
                Ok(pieces) => Ok(pieces),
                Err(_) => Err(ReadFailure::OutOfMemory),
            },
            Err(_) => Err(ReadFailure::OutOfMemory),
        }
    }
}

/// What is known of a design before it is repaired.
#[derive(Drop)]
pub struct RepairLimits {
    /// For each team the largest of the least displacements of its cells.
    pub least: Vec<u64>,
    /// The macros whose cells no place can hold, with the reasons.
    pub impossible: Vec<ImpossibleMacro>,
}

/// The floor with which a repair begins.
#[derive(Drop)]
pub struct MeasuredFloor {
    pub floor: Floor<IndexSeeker>,
    pub limits: RepairLimits,
}

/// What is known of the design before it is repaired.
fn limits_of(alloc: Global, loaded: &Loaded) -> Result<RepairLimits, AllocError>
    ensures { IfOk result (AreRepairLimits loaded.now) }
{
    let least = max_min_displacements(alloc, loaded)?;
    let impossible = impossible_macros(alloc, loaded)?;
    Ok(RepairLimits { least, impossible })
}

/// Makes the floor of the design as loaded, with the limits of its repair.
fn measured_as_loaded<'f>(alloc: Global, loaded: Loaded) -> Result<MeasuredFloor, Fault<'f>>
    ensures ok { IfOk result (λ made. IsMeasuredAsLoaded loaded made.floor made.limits) }
    ensures err { IfErr result (λ fault. fault ≡ SetupOutOfMemory) }
{
    let limits = limits_of(alloc, &loaded)?;
    let floor = start_floor(alloc, loaded)?;
    Ok(MeasuredFloor { floor, limits })
}

/// Makes the floor of the design in the state of this text, with the limits of its repair from the
/// working places there.
fn measured_in_text<'a>(
    alloc: Global,
    held: &HeldText,
    loaded: Loaded,
    path: &'a str,
) -> Result<MeasuredFloor, Fault<'a>>
    ensures ok { IfOk result (λ made.
        IsMeasuredFloor (gives_text held.now.text.items) (Some path.now) loaded made.floor made.limits) }
    ensures err { IfErr result (IsNotOpened (gives_text held.now.text.items) (Some path.now) loaded) }
{
    let seen = viewed_design(alloc, held, loaded, false, Some(path))?;
    let limits = limits_of(alloc, &seen)?;
    let floor = open_floor(alloc, held, seen, Some(path))?;
    Ok(MeasuredFloor { floor, limits })
}

/// Makes the floor of the design in the state of the file of this path, with the limits of its repair
/// from the working places there.
fn measured_in_state<'a, T: InputFiles>(
    alloc: Global,
    texts: &T,
    loaded: Loaded,
    path: &'a str,
) -> Result<MeasuredFloor, Fault<'a>>
    ensures ok { IfOk result (λ made.
        IsMeasuredFloor (T.gives texts.now) (Some path.now) loaded made.floor made.limits) }
    ensures err { IfErr result (IsNotOpened (T.gives texts.now) (Some path.now) loaded) }
{
    let text = read_text(texts, state_file(path))?;
    let held = HeldText { alloc, text };
    measured_in_text(alloc, &held, loaded, path)
}

/// Makes the floor with which a repair of the design begins: in the state of the file of this path,
/// if one is given. Computes for each team the largest of the least displacements of its cells, and
/// which macros no place can hold.
///
/// `Err` if an allocation fails, or the file has no state of the design.
pub fn open_measured<'a, T: InputFiles>(
    alloc: Global,
    texts: &T,
    loaded: Loaded,
    state: Option<&'a str>,
) -> Result<MeasuredFloor, Fault<'a>>
    ensures ok { IfOk result (λ made.
        IsMeasuredFloor (T.gives texts.now) (path_of state.entry) loaded made.floor made.limits) }
    ensures err { IfErr result (IsNotOpened (T.gives texts.now) (path_of state.entry) loaded) }
{
    match state {
        None => measured_as_loaded(alloc, loaded),
        Some(path) => measured_in_state(alloc, texts, loaded, path),
    }
}
