//! The session slots of all teams, in one table.
//!
//! A session is identified by its team and the number of its slot. A slot is free, or has the
//! revision that its session has seen. A contract sees a `SessionTable` as the list of slots of
//! each team. A call that returns `None` or false changes nothing; any other call changes one slot
//! only.
//!
//! Used by `lf_floor_model`, `lf_floor_verbs` and `lf_floor`.
//!
//! Modules, in reading order:
//!
//! - `slots`: the session slots of one team
//! - `table`: the session slots of all teams
//!
//! From `crates/lf_tests_basics/src/sessions.rt`:
//!
//! ```
//! let mut table = SessionTable::build(rt.alloc(), 2, 8)?;
//! assert!(rt; table.take_slot(0, 5) == Some(0));
//! assert!(rt; table.seen(0, 0) == Some(5));
//! assert!(rt; table.set_seen(0, 0, 7));
//! ```
#![tactic(auto)]

mod slots;
mod table;

pub use table::SessionTable;
