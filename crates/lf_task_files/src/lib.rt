//! Works on designs of files: restores a saved state, checks, describes, and writes the exported
//! text and the state.
//!
//! `open_floor` makes the floor of a loaded design (`lf_task_designs`), in the state of a state
//! file if one is given. `check` writes the report of the design, and `describe_files` its
//! description. `is_committed_legal` checks the committed places of a floor. `write_outputs` writes
//! the exported text and the state, each if requested. `check_outputs` tries their paths before any
//! work begins. `put_file` writes any file of a task, and names its fault.
//!
//! Functions that are a whole task return the exit status: 0, or 4 if the design is not fully
//! legal. Otherwise they return the fault, which is not printed here.
//!
//! Used by `lf_app` and the crates `lf_task_*` of tasks.
//!
//! Modules, in reading order:
//!
//! - `exit_status`: the exit statuses of tasks that succeeded
//! - `inputs`: the files that a task reads, and the floor with which its work begins
//! - `restore`: a floor in the state of a file
//! - `copies`: copies of designs and of their cells
//! - `viewed`: the design with the places to show, of the DEF text or of a state
//! - `measured`: the floor with which a repair begins
//! - `check_task`: the check of a design
//! - `describe_task`: the description of a design
//! - `committed_legality`: whether the committed design of a floor is fully legal
//! - `output_file`: a file that a task writes
//! - `export`: the exported text, and the text with the working places
//! - `save`: the saved state
//! - `outputs`: the exported text and the state, written after the work
//!
//! From `crates/lf_task_serve/src/serve_task.rt`:
//!
//! ```
//! check_outputs(outputs, &mut environment.exports)?;
//! serve_source(alloc, environment, floor, lines)?;
//! write_outputs(floor, original, outputs, &mut environment.exports)?;
//! Ok(0)
//! ```
#![tactic(auto)]

mod check_task;
mod committed_legality;
mod copies;
mod describe_task;
mod exit_status;
mod export;
mod inputs;
mod measured;
mod output_file;
mod outputs;
mod restore;
mod save;
mod viewed;

pub use check_task::check;
pub use committed_legality::is_committed_legal;
pub use describe_task::{describe_files, seen_of_document};
pub use exit_status::{ILLEGAL_STATUS, LEGAL_STATUS};
pub use export::{save_export, save_working};
pub use inputs::{DesignInput, open_floor, start_floor};
pub use measured::{MeasuredFloor, RepairLimits, open_measured};
pub use output_file::{check_output_path, put_file};
pub use outputs::{OutputPaths, check_outputs, write_outputs};
pub use restore::{rows_of_file, start_unplaced, state_file};
pub use save::save_to;
