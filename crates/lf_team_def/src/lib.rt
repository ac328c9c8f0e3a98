//! The DEF text of a team.
//!
//! The text follows LEF/DEF 5.8. It has a header and the REGIONS, COMPONENTS and GROUPS of one
//! team. It has no rows. `write_team_def` writes it to an `Output`, `team_def_length` counts its
//! bytes, and `team_def` returns the whole text.
//!
//! Used by `lf_write`, `lf_laws_roundtrip`, `lf_floor_model`, `lf_floor_verbs`, `lf_floor` and
//! `lf_laws_slices`.
//!
//! Modules, in reading order:
//!
//! - `outputs`: outputs that count or store a text
//! - `words`: words and lines
//! - `def_entries`: the entries of a team's sections: its fence, its cells and its group
//! - `team_text`: the DEF text of a team
//!
//! From `crates/lf_floor_verbs/src/queries.rt`:
//!
//! ```
//! let text = team_def(
//!     context.alloc,
//!     self.placement.frame(),
//!     self.placement.cells(),
//!     context.number,
//! )?;
//! ```
#![tactic(auto)]

mod def_entries;
mod outputs;
mod team_text;
mod words;

pub use team_text::{team_def, team_def_length, write_team_def};
