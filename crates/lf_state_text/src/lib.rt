//! State texts: the saved state of the teams of a floor, written and read.
//!
//! For each team of a design a state text has its revision, its padding, the revision that each
//! session slot has seen, the places of its cells and its undo entries. The names are the design's
//! (`DesignSchema`). They are compared byte by byte, and not stored. All numbers are within the
//! design's limits (`AreOf`).
//!
//! Contracts see the teams that are written (`TeamViews`) and the rows that are read (`SavedTeamRow`) as
//! saved teams (`SavedTeam`), whose text is `state_text`.
//!
//! Used by `lf_floor`, `lf_task_faults`, `lf_task_designs` and `lf_task_files`.
//!
//! Modules, in reading order:
//!
//! - `saved_rows`: saved cells and teams, as they are read
//! - `schema`: the names and limits of a design
//! - `team_views`: the teams to be written
//! - `known_ranges`: ranges that the types of places guarantee
//! - `write`: a state text is written
//! - `fault`: faults of a text
//! - `cursor`: the unread rest of a text in chunks
//! - `cursor_steps`: steps of a cursor
//! - `refusal`: refused texts in chunks, with their end
//! - `read_numbers`: numbers
//! - `read_places`: places as words
//! - `word_end`: the bytes that end words
//! - `read_words`: words at the cursor
//! - `read_lists`: lists of lines
//! - `read`: a state text is read
//! - `laws`: saved states are read back
//!
//! From `crates/lf_floor/src/restore.rt`:
//!
//! ```
//! let reported = StateView { tables };
//! read_state(alloc, &reported, text)
//! ```
#![tactic(auto)]

mod cursor;
mod cursor_steps;
mod fault;
mod known_ranges;
mod laws;
mod read;
mod read_lists;
mod read_numbers;
mod read_places;
mod read_words;
mod refusal;
mod saved_rows;
mod schema;
mod team_views;
mod word_end;
mod write;

pub use fault::{StateError, StateFault, StateFaultNumber};
pub use laws::saved_reads_back;
pub use read::{read_chunks, read_state};
pub use refusal::{ChunkError, StateRefused};
pub use saved_rows::{SavedCell, SavedTeamRow};
pub use schema::DesignSchema;
pub use team_views::TeamViews;
pub use write::write_state;
