//! Undo entries: for each team a bounded stack, newest entry first, with all entries in one slab.
//!
//! An entry has the moves of one command, each with the previous place of its cell.
//!
//! A contract sees `Stacks` as each team's values, newest first, their limit, and the number of
//! further values that fit without an allocation. It sees `Moves` as the list of the moves.
//! `UndoStore` is stacks of `Moves`. Every call except `build` requires a team of the stacks.
//!
//! Used by `lf_placement`, `lf_state_text`, `lf_floor` and `lf_floor_verbs`.
//!
//! Modules, in reading order:
//!
//! - `moves`: the cells that a command moved, with their previous places
//! - `stacks`: a bounded stack for each team
//! - `laws`: laws of the places that undo entries give
//!
//! From `crates/lf_tests_basics/src/undo.rt`:
//!
//! ```
//! match store.front(team) {
//!     Some(front) => store.depth(team) == 1 && is_of(front, own),
//!     None => false,
//! }
//! ```
#![tactic(auto)]

mod laws;
mod moves;
mod stacks;

pub use laws::{entries_follow, moves_undo};
pub use moves::{Move, Moves, UndoStore};
pub use stacks::Stacks;
