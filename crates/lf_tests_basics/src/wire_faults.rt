//! Refusals at a line.

use lf_lex::{FaultNumber, LoadFault};

/// Returns the refusal with this number at a line.
pub fn at_line(number: FaultNumber, line: usize) -> Option<LoadFault<'static>> {
    Some(LoadFault {
        number,
        line: Some(line),
        name: None,
    })
}
