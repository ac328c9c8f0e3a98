//! Tokens of LEF and DEF texts.

/// The kind of a token.
#[derive(Clone, Copy, Debug, PartialEq, Eq)]
pub enum TokenKind {
    /// A word: bytes from 33 to 126, up to the next white space. It is a keyword, a name or a
    /// number. The signs `;`, `(`, `)`, `+` and `-` are words of their own.
    Word,
    /// A quoted text, with its quotation marks.
    Quoted,
}

/// A token: its bytes, and their offsets in the text. The bytes have the type `T`: a slice of the
/// text in a `Token`, a list of bytes in a contract.
#[derive(Clone, Copy, Debug, PartialEq, Eq)]
pub struct TokenOf<T> {
    pub text: T,
    pub kind: TokenKind,
    /// The offset of its first byte.
    pub start: usize,
    /// The offset after its last byte.
    pub stop: usize,
    /// Its line, counted from 1.
    pub line: usize,
}

/// A token whose bytes are a slice of the text that it was read from.
pub type Token<'a> = TokenOf<&'a [u8]>;

/// The reason why there is no further token.
#[derive(Clone, Copy, Debug, PartialEq, Eq)]
pub enum LexFault {
    /// A byte outside comments and quoted texts that is neither white space nor from 33 to 126.
    BadToken { line: usize },
    /// A quoted text has no end. The line is the text's last.
    UnexpectedEnd { line: usize },
}
