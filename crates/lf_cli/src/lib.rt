//! Parses the words of the command line: the task that they name, or the help that they request.
//!
//! The first word is the program's name. `lefence` alone and `lefence demo` are the demo. The other
//! subcommands take the path of a DEF file, then the paths of one or more LEF files, and their
//! options. Paths are taken as written, and no file is opened. A definition (`job_of`) specifies
//! which task words name. It is based on what `clap`, by its own specification, finds in the words
//! for the declared command line (`command_line`).
//!
//! Used by `lf_task_designs`, `lf_task_repair`, `lf_task_improve` and `lf_app`.
//!
//! Modules, in reading order:
//!
//! - `session_slots`: the number of session slots of a team
//! - `subcommand`: the subcommands and their options, as declared to `clap`
//! - `parse`: the task that the words name, and messages about wrong words
//! - `help`: requests for help and for the version
//!
//! From `crates/lf_tests_basics/src/words.rt`:
//!
//! ```
//! let words = words_of(alloc, line)?;
//! Ok(is_named(&command_of(alloc, words.as_slice()), named))
//! ```
#![tactic(auto)]

mod help;
mod parse;
mod session_slots;
mod subcommand;

pub use help::{Help, help_of};
pub use parse::{
    ImproveOptions, LegalCells, RepairFiles, RepairOptions, Task, UsageFault, command_of,
    usage_message,
};
pub use session_slots::Slots;
pub use subcommand::Subcommand;
