//! Reads and loads designs from files, and returns the first fault if that fails.
//!
//! `load_files` reads the LEF files in the order of their paths, then the DEF file, and loads the
//! design, up to the first fault. `open_design` also keeps the DEF text and the positions of its
//! components' placement clauses, if this is requested. `report_design` writes the report of a check. Texts are read
//! through the trait `InputFiles`. Contracts know nothing of the files of a runtime
//! (`FsInputFiles`). Faults are those of `lf_task_faults`.
//!
//! Used by `lf_app` and the crates `lf_task_*`.
//!
//! Modules, in reading order:
//!
//! - `input_files`: the files from which texts are read
//! - `loading`: the design of files, read and loaded
//! - `opening`: the design of files, with what an export needs
//! - `check_report`: the report of a loaded design
//!
//! From `crates/lf_task_files/src/check_task.rt`:
//!
//! ```
//! let loaded = load_files(alloc, inputs.limits, texts, inputs.def, inputs.lefs)?;
//! viewed_design(alloc, texts, loaded, committed, inputs.state)
//! ```
#![tactic(auto)]

mod check_report;
mod input_files;
mod loading;
mod opening;

pub use check_report::{illegal_in, report_design};
pub use input_files::{FsInputFiles, InputFiles, single_chunk};
pub use loading::{
    add_text, def_file, lef_file, library_of, limits_for, load_document, load_files, load_text,
    load_texts, read_document, read_file_chunks, read_text, text_refusal,
};
pub use opening::{OpenedDesign, SourceText, open_design};
