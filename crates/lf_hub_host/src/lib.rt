//! What a hub needs of the system: the file of its journal, its sockets, the time, and messages to its
//! operator.
//!
//! `HubHost` is the trait, and `ProcessHost` is the system as a process sees it. `NoHub` is for programs
//! and tests that serve no hub: it has no file and no socket.
//!
//! No proof shows that the file and the sockets are those of the folders. What they do is described in
//! `lf_journal_file` and `lf_hub_wire`.
//!
//! Used by `lf_task_hub` and `lf_app`.
//!
//! Modules, in reading order:
//!
//! - `host`: the trait
//! - `process`: the system as a process sees it
//! - `no_hub`: no system
#![tactic(auto)]

mod host;
mod no_hub;
mod process;

pub use host::HubHost;
pub use no_hub::NoHub;
pub use process::ProcessHost;
