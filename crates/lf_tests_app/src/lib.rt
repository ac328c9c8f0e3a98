//! Tests of tasks over files in memory, for behavior that no clause specifies.
//!
//! The tests cover `lf_app` and, through it, `lf_task_designs`, `lf_task_files`, `lf_task_serve`
//! and `lf_server`.
//!
//! Modules, in reading order:
//!
//! - `shelf`: a runtime whose files are in memory
//! - `tasks`: the tasks, and helpers that run them
//! - `states`: states that are saved and continued from
//! - `program`: the program, from the words of its command line to its exit status
#![tactic(auto)]

#[cfg(test)]
mod program;
#[cfg(test)]
mod shelf;
#[cfg(test)]
mod states;
#[cfg(test)]
mod tasks;
