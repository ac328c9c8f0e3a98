//! The lexer, and laws on the tokens of every text.

ghost use Rattle.std.specs.Prelude.{◌≡◌, ◌+◌, ◌≤◌, List, ℕ, length, drop, All, IfOk, IfSome};
ghost use Rattle.lf_lex.specs.Splices.{SplicesTokens};
ghost use Rattle.lf_lex.specs.Tokens.{tokens_of, lexeme, ReturnsNextToken, AreSlices, AreWithin, CutsAtTokens, IsSpelled};

use crate::scan::{line_feeds, quoted_token, skip_blank, word_token};
use crate::tokens::{LexFault, Token};
use std::marker::Model;

/// Returns the tokens of a text one by one. A contract sees the tokens that are left, the fault
/// after them if there is one, and the line on which the text ends.
#[derive(Drop)]
pub struct Lexer<'a> {
    text: &'a [u8],
    at: usize,
    line: usize,
}

impl<'a> Model for Lexer<'a> {
    ghost use Rattle.std.specs.Prelude.{◌+◌, ◌≤◌, length, drop};
    ghost use Rattle.lf_lex.specs.Tokens.{Lexed, tokens_from};

    ghost Value = { Lexed };

    ghost view = { λ l. tokens_from 0 l.at l.line (drop l.at l.text.now) };

    ghost invariant = { λ l. (l.at ≤ length l.text.now) × (l.line ≤ l.at + 1) };
}

impl<'a> Lexer<'a> {
    /// Returns the lexer at the start of a text. All tokens of the text are left.
    pub fn new(text: &'a [u8]) -> Self
        ensures { result ≡ tokens_of text.now }
    {
        Lexer {
            text,
            at: 0,
            line: 1,
        }
    }

    /// Returns the whole text. The tokens that are left are slices of it, in order.
    pub fn text(&self) -> &'a [u8]
        ensures slices { AreSlices result.now 0 self.now.tokens }
        ensures within { AreWithin result.now self.now.tokens }
    {
        self.text
    }

    /// Returns the line on which the text ends.
    pub fn end_line(&self) -> usize
        ensures { result ≡ self.now.end_line }
    {
        self.line + line_feeds(&self.text[self.at..])
    }

    /// Returns the next token, or `None` at the end of the text. `Err` is the fault after the last
    /// token; every later call returns it too.
    #[inline(always)]
    pub fn next_token(&mut self) -> Result<Option<Token<'a>>, LexFault>
        ensures tokens { ReturnsNextToken result self.old self.new }
        ensures spelled { IfOk result (λ token. IfSome token (λ t. IsSpelled (lexeme t))) }
    {
        let (at, line) = skip_blank(self.text, self.at, self.line);
        if at == self.text.len() {
            return Ok(None);
        }
        if self.text[at] != b'"' {
            let token = word_token(self.text, at, line)?;
            self.at = token.stop;
            self.line = line;
            return Ok(Some(token));
        }
        let token = quoted_token(self.text, at, line)?;
        self.at = token.stop;
        self.line = line + line_feeds(token.text);
        Ok(Some(token))
    }
}

/// The kind of each token of a text follows from its bytes. Words have only bytes from 33 to 126.
pub fn kinds_follow_texts()
    ensures { (text : List ℕ) → All IsSpelled (tokens_of text).tokens }
{}

/// The tokens of a text are slices of it, in order.
pub fn slices_in_order()
    ensures { (text : List ℕ) → AreSlices text 0 (tokens_of text).tokens }
{}

/// Replacing a token and all that follows leaves the tokens in front of it unchanged.
pub fn cuts_at_tokens()
    ensures { (text : List ℕ) → CutsAtTokens text }
{}

/// Replacing runs of tokens in a text replaces them among its tokens.
pub fn splices_tokens()
    ensures { (text : List ℕ) → SplicesTokens text }
{}
