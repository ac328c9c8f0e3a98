//! A law on names.

ghost use Rattle.lf_describe.specs.Description.{NamesAreWritten};

/// A name of visible characters is written unchanged. Each name of a LEF or DEF text has only such
/// characters.
pub fn names_are_written()
    ensures { NamesAreWritten }
{}
