//! Prints help, the version, and what is wrong with words that name no task.
//!
//! `write_help` writes the text of the requested help or the version. `write_usage` writes a message about wrong words:
//! first what the argument parser says of them, and then how to get help. Contracts know the lines of the parser's
//! message only as some lines. Everything else that is written here has a definition (`help_text`, `usage_text`).
//!
//! Used by `lf_app`.
//!
//! Modules, in reading order:
//!
//! - `help_texts`: the texts of `--help` and `--version`
//! - `usage`: the message about words that name no task
//!
//! From `crates/lf_app/src/program.rt`:
//!
//! ```
//! match write_help(&mut environment.writer, help) {
//!     Ok(()) => 0,
//! ```
#![tactic(auto)]

mod help_texts;
mod usage;

pub use help_texts::write_help;
pub use usage::write_usage;
