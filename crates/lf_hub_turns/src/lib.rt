//! Takes turns among teams, and among the clients of a team.
//!
//! The teams whose clients wait are in a queue, and so are the clients of each team. The turn is that
//! of the first client of the first team. When it ends, the client goes to the end of its team's
//! queue if it still waits, and the team goes to the end of the queue of teams.
//!
//! Two laws say what follows: between two turns of a team that waits, each other team has at most one,
//! and the same holds of the clients of a team.
//!
//! Used by `lf_hub`.
//!
//! Modules, in reading order:
//!
//! - `queue`: a queue of numbers
//! - `turns`: the queues of teams and of their clients
//! - `laws`: what holds of turns after every list of events
//!
//! From `crates/lf_hub/src/hub_core.rt`:
//!
//! ```
//! let (_, slot) = self.turns.next()?;
//! Some(slot)
//! ```
#![tactic(auto)]

mod laws;
mod queue;
mod turns;

pub use laws::{clients_take_turns, teams_take_turns};
pub use turns::Turns;
