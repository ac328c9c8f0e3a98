//! The core of a hub: many clients over one floor, and the records of their changes.
//!
//! A `Core` is driven by events: a client connects (`opens`), bytes come from it (`comes`), the next
//! line is answered (`answer`), the records are on the disk (`synced`), bytes are sent (`sends`), and
//! a client is gone (`leaves`). It has no socket, no disk and no clock. The caller writes the records
//! since the last sync to the disk, and sends what may be sent.
//!
//! Replies are held until the next sync. A client that has left keeps its slot until all sessions
//! that it opened are closed, one at each of its turns.
//!
//! Contracts see a `Core` as a state of the machine in `specs/Machine.antt`, and say of each call
//! which event it is. The laws hold after every list of events:
//!
//! - a client's lines are answered in order, and it is sent the replies to them alone
//! - nothing is sent before the sync after its line
//! - the journal has the accepted changes, in order
//! - a client acts for the team of its socket alone
//! - whatever part of the records since the last sync a crash leaves, the journal's floor has every
//!   change before that sync
//! - the memory of a connection is bounded
//!
//! Used by `lf_tests_hub`.
//!
//! Modules, in reading order:
//!
//! - `open_sessions`: the sessions that clients have opened
//! - `hub_core`: the core
//! - `laws`: what holds after every list of events
//!
//! From `crates/lf_tests_hub/src/clients.rt`:
//!
//! ```
//! let mut core = Core::new(rt.alloc(), 2)?;
//! let mut floor = Counter { count: 0 };
//! let mut slots = Vec::new(rt.alloc());
//! let first = core.opens(0, Access::Changes)?;
//! ```
#![tactic(auto)]

mod hub_core;
mod laws;
mod open_sessions;

pub use hub_core::{Core, Progress};
pub use laws::{
    crash_keeps_acknowledged, journal_is_exact, lines_are_own, lines_run, memory_is_bounded,
    queries_change_nothing, replies_are_own, sessions_are_closed, teams_are_own,
};
pub use open_sessions::OpenSession;
