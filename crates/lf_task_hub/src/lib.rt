//! Serves the clients of a hub over a design of files.
//!
//! `serve_hub_files` opens the design, runs the journal of its folder on the floor, closes the sessions
//! that an earlier process has left open, and serves clients until the operator stops it
//! (`lf_hub_serve`).
//!
//! Used by `lf_app`.
//!
//! Modules, in reading order:
//!
//! - `input`: what a hub serves, and from where it begins
//! - `failure`: faults of a hub
//! - `socket_names`: the names of the sockets of teams
//! - `journal`: the journal of a hub, opened and run
//! - `hub_task`: the whole task
//!
//! From `crates/lf_app/src/tasks.rt`:
//!
//! ```
//! serve_hub_files(alloc, &environment.texts, &environment.hub, hub_input)
//! ```
#![tactic(auto)]

mod failure;
mod hub_task;
mod input;
mod journal;
mod socket_names;

pub use hub_task::serve_hub_files;
pub use input::HubInput;
