//! What tests and worked rows share: texts with one line replaced, and designs of texts.
//!
//! `with_line` returns a text with one of its lines replaced. `design_of` loads the design of the
//! built-in LEF text and a DEF text.
//!
//! Modules, in reading order:
//!
//! - `designs`: designs over the built-in LEF text
//!
//! From `crates/lf_tests_floor/src/floors.rt`:
//!
//! ```
//! let def = with_line(alloc, DEMO_DEF, 15, b"- a1 INV + PLACED ( 0 0 ) N ;")?;
//! let def = with_line(alloc, &def, 18, b"- b1 INV + PLACED ( 6000 0 ) N ;")?;
//! ```
#![tactic(auto)]

mod designs;

pub use designs::design_of;
use std::alloc::{AllocError, Global};

/// Returns the text with one of its lines replaced. Lines are numbered from 1. `Err` if an
/// allocation fails.
pub fn with_line(
    alloc: Global,
    text: &[u8],
    number: usize,
    line: &[u8],
) -> Result<Vec<u8>, AllocError> {
    let mut new = Vec::new(alloc);
    for (i, old) in text.split(|byte| *byte == b'\n').enumerate() {
        if i > 0 {
            new.push(b'\n')?;
        }
        if number.checked_sub(1) == Some(i) {
            new.extend_from_slice(line)?;
        } else {
            new.extend_from_slice(old)?;
        }
    }
    Ok(new)
}
