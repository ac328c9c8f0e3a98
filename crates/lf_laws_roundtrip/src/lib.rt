//! Laws: what written texts say when they are read again, and the designs that are loaded from
//! them.
//!
//! No code runs here: each function is a law, and its `ensures` clauses name the theorem. The laws
//! are about the two texts that the program writes: the DEF text of a team (`lf_team_def`) and the
//! exported text of a design (`lf_write`). They say what `document_of` of `lf_def` makes of these
//! texts and what loading then finds.
//!
//! A text can *spell* a document under three conditions:
//!
//! - each name is a word other than a semicolon
//! - the divider and the brackets are quoted texts with their marks
//! - no group is bound to a region named by a parenthesis
//!
//! Used by `lf_task_run` and `lf_task_serve`.
//!
//! Modules, in reading order:
//!
//! - `laws`: the laws
#![tactic(auto)]

mod laws;

pub use laws::{
    exported_designs_load_alike, loaded_cells_are_exportable, loaded_teams_read_back,
    moved_designs_load_alike, read_documents_are_spelled, team_text_reads_back,
};
