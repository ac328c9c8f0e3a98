//! The floor of a hub: the floor of all teams, as it answers the lines of a team's sockets.
//!
//! A `TeamFloor` is a `Floor` of `lf_floor`. It answers a line of a team's socket as `lf_server` does,
//! with three exceptions. A command of another team gets `NoTeam` and changes nothing. `iam NAME` gives
//! the connection a label. A report or a DEF text that has no memory gets `OutOfMemory`.
//!
//! On a query socket a line changes nothing, and no session takes a slot. `where`, `find`, `check` and
//! `def` get the reply that they get in any session, `open` and `sync` get the team's revision, and a
//! change gets `QueriesOnly`.
//!
//! Contracts say which reply, outcome and floor a line gives (`AnswersLine`), by the steps of
//! `lf_floor_model`. The laws follow: what the hub's lines do to the floor is a run of the floor, other
//! teams are unchanged, the reply depends on the team's own state alone, and neither an accepted change
//! nor its reply has a zero byte.
//!
//! Used by `lf_tests_hub`.
//!
//! Modules, in reading order:
//!
//! - `outcomes`: what a reply says of its command
//! - `reply_texts`: the texts of replies, in memory
//! - `line_answers`: the answer to a line of a team's socket
//! - `closing`: the line that closes a session
//! - `query_answers`: the answer to a line of a query socket
//! - `team_floor`: the floor of a hub
//! - `laws`: what holds of all answers
//!
//! From `crates/lf_tests_hub/src/floors.rt`:
//!
//! ```
//! let mut text = Vec::with_capacity(alloc, ROOM)?;
//! let answered = floor.answer(team, line, &mut text);
//! ```
#![tactic(auto)]

mod closing;
mod laws;
mod line_answers;
mod outcomes;
mod query_answers;
mod reply_texts;
mod team_floor;

pub use laws::{
    changes_can_be_recorded, others_are_kept, queries_are_own, replies_are_own, turns_run,
};
pub use team_floor::TeamFloor;
