//! The reader of a DEF text.

ghost use Rattle.std.specs.Prelude.{◌≡◌, Ok, IfOk, IfErr};
ghost use Rattle.lf_lex.specs.Reading.{Fails};
ghost use Rattle.lf_def.specs.Document.{document_of, RefusesDef};
ghost use Rattle.lf_def.specs.Contents.{contents};

use crate::document::DefDoc;
use crate::header::header_of;
use crate::statements::read_statements;
use lf_lex::{LoadFault, ReadError};
use std::alloc::Global;

/// Returns the document of a text.
fn document<'a>(alloc: Global, text: &'a [u8]) -> Result<DefDoc<'a>, ReadError>
    ensures text { IfOk result (λ doc. doc.text.now ≡ text.now) }
    ensures ok { IfOk result (λ doc. document_of text.now ≡ Ok (contents doc)) }
    ensures fault { IfErr result (λ e. Fails e (document_of text.now)) }
{
    let parts = read_statements(alloc, text)?;
    let header = header_of(alloc, parts.header)?;
    Ok(DefDoc {
        text,
        header,
        rows: parts.rows,
        regions: parts.regions,
        groups: parts.groups,
        components: parts.components,
        blockages: parts.blockages,
    })
}

/// Reads a DEF text up to its END DESIGN: the header, and rows, regions, groups, components and
/// placement blockages in the order of the text. Other sections and statements of DEF are skipped.
/// Unless an allocation fails, this succeeds if and only if the text is DEF by the grammar in
/// `specs/`. The document is then what the grammar makes of the text.
///
/// `Err` is the first fault in the order of the tokens, with its line: BadToken, UnexpectedEnd,
/// Unexpected, BadNumber, WrongEnd, UnknownStatement or TooMany. It is OutOfMemory, without a line,
/// if an allocation fails.
///
/// An offset may have any size. A component with an offset of 2^32 or more takes 24 bytes more.
pub fn read_def<'a>(alloc: Global, text: &'a [u8]) -> Result<DefDoc<'a>, LoadFault<'a>>
    ensures text { IfOk result (λ doc. doc.text.now ≡ text.now) }
    ensures ok { IfOk result (λ doc. document_of text.now ≡ Ok (contents doc)) }
    ensures fault { IfErr result (λ fault. RefusesDef fault (document_of text.now)) }
{
    match document(alloc, text) {
        Ok(doc) => Ok(doc),
        Err(error) => Err(error.into_load_fault()),
    }
}
