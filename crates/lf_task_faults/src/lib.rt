//! Why a task failed, what is printed about it, and the exit status.
//!
//! A `Fault` is the reason why a task failed. It includes the faults of lines, services and written
//! files, so that all messages are in one place. `status_of` returns the exit status.
//! `report_fault` writes the line that names the fault. If a file, a line of it, a port or a team
//! is at fault, a second line names it. Everything printed about a refused text is copied from it
//! at once (`TextRefusal`, `StateRefusal`), so the text can be dropped.
//!
//! Used by most other crates.
//!
//! Modules, in reading order:
//!
//! - `read_failure`: why the text of a file was not read
//! - `hints`: the line of a name in a text, and what a refused text may be instead
//! - `text_refusal`: what is printed about a refused text
//! - `faults`: why a task failed, its message and its exit status
//! - `fault_detail`: the second line of a fault
//!
//! From `crates/lf_app/src/tasks.rt`:
//!
//! ```
//! match outcome(alloc, environment, task) {
//!     Ok(status) => exit_with(status),
//!     Err(fault) => report_fault(&mut environment.faults, &fault),
//! }
//! ```
#![tactic(auto)]

mod fault_detail;
mod faults;
mod hints;
mod read_failure;
mod text_refusal;

pub use faults::{
    BindFailure, Fault, HubFailure, OutputKind, TaskExit, TeamRefusal, TextFile, TextKind,
    exit_with, report_fault, status_of, unread_fault, write_fault,
};
pub use hints::{Compression, Hint, Remark};
pub use read_failure::{ReadFailure, ReadFailureKind};
pub use text_refusal::{FenceLine, StateRefusal, TextRefusal};
