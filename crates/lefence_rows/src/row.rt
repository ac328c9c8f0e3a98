//! A row: the lines with its settings and requests.

use crate::design::{Design, Requested};
use lf_frame::Limits;
use lf_units::read_fixed;
use std::alloc::{AllocError, Global};
use std::io;
use std::io::Write;

/// A row with the lines taken so far.
#[derive(Drop)]
pub struct Row {
    design: Design,
    is_read: bool,
    is_checked: bool,
    is_by_index_alone: bool,
    is_exported: bool,
    is_run: bool,
    is_begun: bool,
    lines: Vec<u8>,
}

/// Returns whether the line begins a row.
pub fn is_heading(line: &[u8]) -> bool {
    line.starts_with(b"# ")
}

/// Returns the number that the word writes, up to 4,000,000,000, or 0 if it writes no number.
fn number_of(word: &[u8]) -> u32 {
    match read_fixed(word, 0, 4_000_000_000) {
        Ok(number) => u32::try_from(number).unwrap_or(0),
        Err(_) => 0,
    }
}

/// Returns the number in front of a space, and what follows the space.
fn split_number(text: &[u8]) -> (usize, &[u8]) {
    match text.iter().position(|byte| *byte == b' ') {
        Some(at) => (number_of(&text[..at]) as usize, &text[at + 1..]),
        None => (number_of(text) as usize, b""),
    }
}

/// Returns the limits that six numbers write, or `None` if they are no limits.
fn limits_of(text: &[u8]) -> Option<Limits> {
    let mut words = text.split(|byte| *byte == b' ');
    Limits::checked(
        number_of(words.next()?),
        number_of(words.next()?),
        number_of(words.next()?),
        number_of(words.next()?),
        number_of(words.next()?),
        number_of(words.next()?),
    )
}

impl Row {
    /// Makes a row without lines, on the built-in design.
    pub fn new(alloc: Global) -> Result<Row, AllocError> {
        Ok(Row {
            design: Design::new(alloc)?,
            is_read: false,
            is_checked: false,
            is_by_index_alone: false,
            is_exported: false,
            is_run: false,
            is_begun: false,
            lines: Vec::new(alloc),
        })
    }

    /// Takes a line.
    pub fn take(&mut self, line: &[u8]) -> Result<(), AllocError> {
        if line.is_empty() {
            return Ok(());
        }
        self.is_begun = true;
        if let Some(setting) = line.strip_prefix(b"= ")
            && self.set(setting)?
        {
            return Ok(());
        }
        self.lines.extend_from_slice(line)?;
        self.lines.push(b'\n')?;
        Ok(())
    }

    /// Applies a setting of the texts or of the outputs. Returns whether the line is a setting.
    fn set(&mut self, setting: &[u8]) -> Result<bool, AllocError> {
        if let Some(rest) = setting.strip_prefix(b"lef ") {
            let (number, line) = split_number(rest);
            self.design.set_lef(number, line)?;
        } else if let Some(rest) = setting.strip_prefix(b"def ") {
            let (number, line) = split_number(rest);
            self.design.set_def(number, line)?;
        } else if let Some(rest) = setting.strip_prefix(b"cut lef ") {
            self.design.cut_lef(number_of(rest) as usize)?;
        } else if let Some(rest) = setting.strip_prefix(b"cut def ") {
            self.design.cut_def(number_of(rest) as usize)?;
        } else {
            return Ok(self.ask(setting));
        }
        Ok(true)
    }

    /// Applies a setting of the limits or of the outputs. Returns whether it is one.
    fn ask(&mut self, setting: &[u8]) -> bool {
        if let Some(rest) = setting.strip_prefix(b"limits ") {
            if let Some(limits) = limits_of(rest) {
                self.design.set_limits(limits);
            }
        } else if setting == b"read".as_slice() {
            self.is_read = true;
        } else if setting == b"check".as_slice() {
            self.is_checked = true;
        } else if setting == b"index".as_slice() {
            self.is_by_index_alone = true;
        } else if setting == b"export".as_slice() {
            self.is_exported = true;
        } else if setting == b"run".as_slice() {
            self.is_run = true;
        } else {
            return false;
        }
        true
    }

    /// Writes the output of the row.
    pub fn finish<W: Write>(&self, writer: &mut W) -> io::Result<()> {
        if !self.is_begun {
            return Ok(());
        }
        let requested = Requested {
            is_read: self.is_read,
            is_checked: self.is_checked,
            is_by_index_alone: self.is_by_index_alone,
            is_exported: self.is_exported,
            is_run: self.is_run,
            lines: &self.lines,
        };
        self.design.answer(&requested, writer)
    }
}
