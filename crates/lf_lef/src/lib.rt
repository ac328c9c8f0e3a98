//! Reads the parts of LEF 5.8 texts that placement needs, by the grammar in `specs/`.
//!
//! These parts are sites, and macros with their sizes, origins, symmetries and bottom rails. All
//! other statements are skipped. A `Library` takes one LEF text after the other. A contract sees
//! its sites and its macros, each list in first-read order. Lengths are in millionths of a micron.
//!
//! Used by most other crates.
//!
//! Modules, in reading order:
//!
//! - `lengths`: lengths, points and sizes
//! - `sites`: the statements of SITE
//! - `pins`: the pins of macros, and the rail along the bottom
//! - `macros`: the statements of MACRO
//! - `library`: the sites and macros that were read
//! - `read`: the statements of a LEF text
//! - `laws`: laws on the grammar
//! - `built_in`: a small LEF text for tests
//!
//! From `crates/lefence_bench/src/main.rt`:
//!
//! ```
//! let mut library = Library::new(alloc);
//! read_lef(&mut library, text)?;
//! Ok((library.sites().len(), library.macros().len()))
//! ```
#![tactic(auto)]

mod built_in;
mod laws;
mod lengths;
mod library;
mod macros;
mod pins;
mod read;
mod sites;

pub use built_in::DEMO_LEF;
pub use laws::{
    a_printed_macro_is_read_back, a_printed_site_is_read_back, first_of_each_kind_counts,
    lef_statements_read_alike, lef_statements_take_tokens, nothing_after_end_library_counts,
    skipped_statements_play_no_part,
};
pub use lengths::{point, point_from};
pub use lf_floorplan::{Macro, Site};
pub use library::Library;
pub use macros::skip_macro_statement;
pub use pins::{past_iterate, past_mask};
pub use read::{read_lef, skip_lef_statement, skip_to_named_end};
