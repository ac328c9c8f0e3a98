//! Writes a DEF text with components at the places that they are given; every other byte is
//! unchanged.
//!
//! A component that is given another place than the document's gets a new placement clause,
//! `+ PLACED ( x y ) orient` or `+ UNPLACED`. It replaces the old clause (LEF/DEF 5.8, DEF
//! COMPONENTS). `export` returns the text of a document. `KeptClauses` has what an export needs of
//! the document, also after the document is dropped. `write_export` writes the text from it piece
//! by piece.
//!
//! A clause is *plain* if its bytes in the text are those that this crate writes for its
//! component's place. The place of a plain clause is not stored, and the clause is written again
//! whenever its component is given a place. A contract sees of `KeptClauses` for each component the
//! offsets of its clause, whether it has one, whether that is plain, and its place if not. It sees
//! of `NewPlaces` the places, each with the position of its component among all components of the
//! text.
//!
//! `team_def` of `lf_team_def` can be named from here too.
//!
//! Used by `lf_laws_roundtrip`, `lf_task_designs`, `lf_task_files`, `lf_task_wires`, `lf_task_run` and
//! `lf_task_serve`.
//!
//! Modules, in reading order:
//!
//! - `clause_text`: placement clauses, as this crate writes them
//! - `compare`: the clause of a location, compared with the bytes of a text
//! - `kept_clauses`: what an export needs of the components of a document
//! - `export_text`: the exported text
//! - `laws`: laws on exported texts
//!
//! From `crates/lefence_rows/src/design.rt`:
//!
//! ```
//! let places = floor.committed_places()?;
//! export(alloc, document, &places)
//! ```
#![tactic(auto)]

mod clause_text;
mod compare;
mod export_text;
mod kept_clauses;
mod laws;

pub use export_text::{NewPlaces, export, write_export};
pub use kept_clauses::{KeptClauses, clauses_of};
pub use laws::{exports_read_back, kept_clauses_suffice, nothing_changes, places_decide_locations};
pub use lf_team_def::team_def;
