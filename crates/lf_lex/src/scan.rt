//! Steps over the bytes of a text: white space, comments, words and quoted texts.

ghost use Rattle.std.specs.Prelude.{◌≡◌, ◌≢◌, ◌+◌, ◌-◌, ◌<◌, ◌≤◌, length, take, drop, position, true, false, IfOk, IfSome, MatchOption, slice_index};
ghost use Rattle.std.specs.List.{list_all, position_or_len};
ghost use Rattle.lf_lex.specs.Tokens.{is_white, is_line_feed, is_other, is_word_byte, line_feeds, word_len, quoted_len, tokens_from, BeginsToken, ReadsToken, IsSpelled, lexeme};

use crate::tokens::{LexFault, Token, TokenKind, TokenOf};

pub(crate) fn is_white(byte: u8) -> bool
    ensures { result ≡ is_white byte }
{
    byte == b' ' || byte == b'\t' || byte == b'\n' || byte == b'\r'
}

pub(crate) fn line_feeds(text: &[u8]) -> usize
    ensures count { result ≡ line_feeds text.now }
    ensures few { result ≤ length text.now }
{
    text.iter().filter(|byte| **byte == b'\n').count()
}

/// True if no word may have the byte.
fn is_other(byte: u8) -> bool
    ensures { result ≡ is_other byte }
{
    byte < 33 || 126 < byte
}

fn first_other(text: &[u8]) -> Option<usize>
    ensures { result ≡ position is_other text.now }
{
    text.iter().position(|byte| is_other(*byte))
}

/// Returns the number of bytes in front of the first one that no word may have.
fn other_len(text: &[u8]) -> usize
    ensures len { result ≡ position_or_len is_other text.now }
    ensures within { result ≤ length text.now }
{
    first_other(text).unwrap_or(text.len())
}

/// Returns the number of bytes up to the next white space. `None` if one of them is not a word's.
/// Reads each byte once.
fn word_len(text: &[u8]) -> Option<usize>
    ensures len { MatchOption result (list_all is_word_byte (take (word_len text.now) text.now) ≡ false)
        (λ n. n ≡ word_len text.now) }
    ensures bytes { IfSome result (λ n. list_all is_word_byte (take n text.now) ≡ true) }
    ensures within { IfSome result (λ n. n ≤ length text.now) }
{
    let len = other_len(text);
    if len < text.len() && !is_white(text[len]) {
        return None;
    }
    Some(len)
}

/// Returns the number of bytes up to the closing quote, including it. `None` if there is no closing
/// quote.
pub(crate) fn quoted_len(text: &[u8]) -> Option<usize>
    ensures len { result ≡ quoted_len false text.now }
    ensures within { IfSome result (λ n. n ≤ length text.now) }
{
    let mut escaped = false;
    for (i, byte) in text.iter().enumerate() {
        if escaped {
            escaped = false;
        } else if *byte == b'"' {
            return Some(i + 1);
        } else {
            escaped = *byte == b'\\';
        }
    }
    None
}

/// Returns the offset and the line of the next byte that is neither white space nor in a comment.
pub(crate) fn skip_blank(text: &[u8], start: usize, start_line: usize) -> (usize, usize)
    requires start { start ≤ length text.now }
    requires line { start_line ≤ start + 1 }
    ensures within { result.0 ≤ length text.now }
    ensures line { result.1 ≤ result.0 + 1 }
    ensures token { BeginsToken (drop result.0 text.now) }
    ensures same { tokens_from 0 result.0 result.1 (drop result.0 text.now) ≡ tokens_from 0 start
        start_line (drop start text.now) }
{
    let mut at = start;
    let mut line = start_line;
    let mut in_comment = false;
    while at < text.len() {
        let byte = text[at];
        if byte == b'\n' {
            line += 1;
            in_comment = false;
        } else if byte == b'#' {
            in_comment = true;
        } else if !in_comment && !is_white(byte) {
            break;
        }
        at += 1;
    }
    (at, line)
}

fn rest(text: &[u8], start: usize) -> &[u8]
    requires { start ≤ length text.now }
    ensures { result.now ≡ drop start text.now }
{
    &text[start..]
}

fn part(text: &[u8], start: usize, stop: usize) -> &[u8]
    requires order { start ≤ stop }
    requires within { stop ≤ length text.now }
    ensures bytes { result.now ≡ take (stop - start) (drop start text.now) }
    ensures len { start + length result.now ≡ stop }
{
    &text[start..stop]
}

/// Returns the quoted token at an offset that has a quote.
pub(crate) fn quoted_token<'a>(
    text: &'a [u8],
    at: usize,
    line: usize,
) -> Result<Token<'a>, LexFault>
    requires within { at < length text.now }
    requires line { line ≤ at + 1 }
    requires quote { slice_index text.now at ≡ 34 }
    ensures token { ReadsToken text.now at line result }
    ensures spelled { IfOk result (λ t. IsSpelled (lexeme t)) }
{
    let inside = rest(text, at + 1);
    match quoted_len(inside) {
        Some(more) => {
            let stop = at + 1 + more;
            Ok(TokenOf {
                text: part(text, at, stop),
                kind: TokenKind::Quoted,
                start: at,
                stop,
                line,
            })
        }
        None => Err(LexFault::UnexpectedEnd {
            line: line + line_feeds(inside),
        }),
    }
}

/// Returns the word at an offset that begins neither white space, a comment nor a quoted text. A
/// word has no line feed.
pub(crate) fn word_token<'a>(text: &'a [u8], at: usize, line: usize) -> Result<Token<'a>, LexFault>
    requires within { at < length text.now }
    requires line { line ≤ at + 1 }
    requires begins { BeginsToken (drop at text.now) }
    requires no_quote { slice_index text.now at ≢ 34 }
    ensures token { ReadsToken text.now at line result }
    ensures spelled { IfOk result (λ t. IsSpelled (lexeme t)) }
    ensures feeds { IfOk result (λ t. line_feeds t.text.now ≡ 0) }
{
    if is_other(text[at]) {
        return Err(LexFault::BadToken { line });
    }
    let Some(more) = word_len(rest(text, at + 1)) else {
        return Err(LexFault::BadToken { line });
    };
    let stop = at + 1 + more;
    Ok(TokenOf {
        text: part(text, at, stop),
        kind: TokenKind::Word,
        start: at,
        stop,
        line,
    })
}
