//! DEF texts: prefixes, and a long text. The contents of texts, and their bounds, are tested in the
//! rows of lefence_rows.

use crate::faults::at_line;
use lf_def::{DEMO_DEF, read_def};
use lf_lex::{FaultNumber, LoadFault};
use std::alloc::{AllocError, Global};
use std::test::Fail;

/// Returns the refusal of a text, or `None` if it is read.
fn refusal<'a>(rt: &HostRuntime, text: &'a [u8]) -> Option<LoadFault<'a>> {
    read_def(rt.alloc(), text).err()
}

/// True if the fault is one of a text, numbered from 1 to 6, with its line.
fn is_of_a_text(fault: LoadFault<'_>) -> bool {
    let is_read = matches!(
        fault.number,
        FaultNumber::BadToken
            | FaultNumber::UnexpectedEnd
            | FaultNumber::Unexpected
            | FaultNumber::BadNumber
            | FaultNumber::WrongEnd
            | FaultNumber::UnknownStatement
    );
    is_read && fault.line.is_some()
}

/// Each prefix that is shorter by two bytes or more is refused for a fault of the text. Without its
/// last line feed the text is read.
#[test]
fn refuses_each_prefix(rt: HostRuntime) -> Result<(), Fail> {
    let mut prefix = Vec::new(rt.alloc());
    for byte in DEMO_DEF {
        if prefix.len().saturating_add(1) < DEMO_DEF.len() {
            let fault = refusal(&rt, &prefix);
            assert!(rt; matches!(fault, Some(fault) if is_of_a_text(fault)));
        } else {
            assert!(rt; refusal(&rt, &prefix).is_none());
        }
        prefix.push(*byte)?;
    }
    Ok(())
}

/// A comment may have any byte that is no line feed.
#[test]
fn reads_over_any_comment(rt: HostRuntime) -> Result<(), Fail> {
    let mut text = Vec::from_slice(rt.alloc(), b"# ")?;
    for byte in 128..=255u8 {
        text.push(byte)?;
    }
    text.push(b'\n')?;
    text.extend_from_slice(DEMO_DEF)?;
    assert!(rt; refusal(&rt, &text).is_none());
    Ok(())
}

/// Appends the line of a component with this number.
fn push_component(alloc: Global, text: &mut Vec<u8>, number: u32) -> Result<(), AllocError> {
    let line = format!(in alloc; "- c{number} INVX1 + SOURCE DIST + PLACED ( {number} 0 ) FS ;\n")?;
    text.extend_from_slice(line.as_bytes())
}

/// Appends 20,000 components, and nothing after them.
fn push_components(alloc: Global, text: &mut Vec<u8>) -> Result<(), AllocError> {
    text.extend_from_slice(b"DESIGN many ;\nCOMPONENTS 20000 ;\n")?;
    for number in 0..20_000u32 {
        push_component(alloc, text, number)?;
    }
    Ok(())
}

/// Returns the number of components of the text, or `None` if it is refused.
fn count(alloc: Global, text: &[u8]) -> Option<usize> {
    match read_def(alloc, text) {
        Ok(document) => Some(document.components.len()),
        Err(_) => None,
    }
}

/// A text of more than a megabyte, with many components, is read to its end.
#[test]
fn reads_a_megabyte(rt: HostRuntime) -> Result<(), Fail> {
    let mut text = Vec::new(rt.alloc());
    push_components(rt.alloc(), &mut text)?;
    assert!(rt; text.len() > 1_000_000);
    assert!(rt; refusal(&rt, &text) == at_line(FaultNumber::UnexpectedEnd, 20_003));
    text.extend_from_slice(b"END COMPONENTS\nEND DESIGN\n")?;
    assert_eq!(rt; count(rt.alloc(), &text), Some(20_000));
    Ok(())
}
