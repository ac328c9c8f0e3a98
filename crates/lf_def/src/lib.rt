//! Reads the parts of DEF 5.8 texts that placement needs, by the grammar in `specs/`.
//!
//! These parts are the header, rows, regions, groups, components and placement blockages.
//! Components come with the offsets of their placement clauses and of their `;`, so a text can be
//! written again with other places. Other sections and statements of DEF are skipped. Lengths and
//! coordinates are in database units.
//!
//! The fields of a `DefDoc` are always what its text says. A contract sees of a `Component` its two
//! names, its placement clause with the offsets, and the offset of its `;`.
//!
//! Used by most other crates.
//!
//! Modules, in reading order:
//!
//! - `coordinates`: coordinates, points, rectangles, counts and orientations
//! - `header`: VERSION, DIVIDERCHAR, BUSBITCHARS, DESIGN and UNITS
//! - `rows`: rows of placement sites
//! - `section`: what all sections share: entries and their clauses
//! - `regions`: fences and guides
//! - `groups`: groups of components, and their regions
//! - `offsets`: the offsets of a component, in few bytes
//! - `component_words`: the words of a component, borrowed from its text
//! - `components`: components, with the offsets of their placement clauses
//! - `blockages`: placement blockages
//! - `doc_parts`: the statements that were read so far
//! - `statements`: the statements of a text, up to END DESIGN
//! - `document`: the document of a DEF text
//! - `read`: the reader of a DEF text
//! - `kinds`: fences, and the components that teams may move
//! - `laws`: laws on the grammar
//! - `built_in`: a small DEF text for tests
//!
//! From `crates/lf_tests_basics/src/def_texts.rt`:
//!
//! ```
//! match read_def(alloc, text) {
//!     Ok(document) => Some(document.components.len()),
//!     Err(_) => None,
//! }
//! ```
#![tactic(auto)]

mod blockages;
mod built_in;
mod component_words;
mod components;
mod coordinates;
mod doc_parts;
mod document;
mod groups;
mod header;
mod kinds;
mod laws;
mod offsets;
mod read;
mod regions;
mod rows;
mod section;
mod statements;

pub use blockages::Blockage;
pub use built_in::DEMO_DEF;
pub use components::{Component, Location, PlacementClause, PlacementKind};
pub use coordinates::{orient_of, point, point_rest};
pub use document::DefDoc;
pub use groups::Group;
pub use header::DocumentHeader;
pub use kinds::{is_cover, is_fence, is_fixed, is_movable};
pub use laws::{
    clauses_are_in_components, components_rise, decimal_numbers_are_read,
    def_statements_read_alike, def_statements_take_tokens, nothing_after_end_design_counts,
    printed_entries_read_back, printed_lists_read_back_in_texts, printed_sections_read_back,
    printed_texts_read_back, printed_words_are_read, the_same_tokens_say_the_same,
};
pub use read::read_def;
pub use regions::{Region, RegionKind};
pub use rows::RowStatement;
pub use statements::is_skipped_section;
