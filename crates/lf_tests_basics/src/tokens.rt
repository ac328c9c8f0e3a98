//! Tokens and words.

use crate::faults::at_line;
use lf_lex::{
    FaultNumber, LexFault, Lexer, LoadFault, ReadError, TokenKind, end_name, keyword, name, next,
    skip_to_end, skip_to_semicolon, skip_to_word, token, word,
};

/// True if the next token is the quoted text, on its line and at its offsets.
fn is_quoted(lexer: &mut Lexer<'_>) -> bool {
    match lexer.next_token() {
        Ok(Some(token)) => {
            token.text == b"\"c \\\" d\"".as_slice()
                && token.kind == TokenKind::Quoted
                && (token.line, token.start, token.stop) == (2, 19, 27)
        }
        _ => false,
    }
}

/// True if the next token has this text.
fn is_token(lexer: &mut Lexer<'_>, text: &[u8]) -> bool {
    match lexer.next_token() {
        Ok(Some(token)) => token.text == text,
        _ => false,
    }
}

/// True if there is no next token because of this fault, and a second call returns the same fault.
fn stops_at(lexer: &mut Lexer<'_>, fault: LexFault) -> bool {
    matches!(lexer.next_token(), Err(last) if last == fault)
        && matches!(lexer.next_token(), Err(last) if last == fault)
}

/// The text has a comment with quotation marks and an escaped mark in a quoted text. It also has a
/// semicolon inside a word, and a byte that no word may have.
#[test]
fn gives_tokens_until_the_fault(rt: HostRuntime) {
    let mut lexer = Lexer::new(b"SIZE 0.2 # a ; \"b\n \"c \\\" d\"; x;y \x80");
    assert!(rt; is_token(&mut lexer, b"SIZE") && is_token(&mut lexer, b"0.2"));
    assert!(rt; is_quoted(&mut lexer));
    assert!(rt; is_token(&mut lexer, b";") && is_token(&mut lexer, b"x;y"));
    assert!(rt; stops_at(&mut lexer, LexFault::BadToken { line: 2 }));
}

#[test]
fn a_quoted_text_has_an_end(rt: HostRuntime) {
    let mut lexer = Lexer::new(b"\"a\n\n");
    assert!(rt; stops_at(&mut lexer, LexFault::UnexpectedEnd { line: 3 }));
}

/// True if a name with this text is read.
fn reads_name(lexer: &mut Lexer<'_>, text: &[u8]) -> bool {
    match name(lexer) {
        Ok(token) => token.text == text,
        Err(_) => false,
    }
}

/// True if tokens are skipped up to a semicolon, up to an END with its name, and up to a word.
fn skips_tokens(lexer: &mut Lexer<'_>) -> bool {
    skip_to_semicolon(lexer).is_ok()
        && skip_to_end(lexer, b"core").is_ok()
        && skip_to_word(lexer, b"ENDEXT").is_ok()
}

/// True if one more token is read, and then there is no further one.
fn reads_the_last(lexer: &mut Lexer<'_>) -> bool {
    matches!(next(lexer), Ok(Some(_))) && matches!(next(lexer), Ok(None))
}

#[test]
fn reads_words(rt: HostRuntime) {
    let mut lexer = Lexer::new(b"SIZE core a b ;\nx END y END core BEGINEXT ENDEXT z");
    assert!(rt; keyword(&mut lexer, b"SIZE").is_ok());
    assert!(rt; reads_name(&mut lexer, b"core"));
    assert!(rt; skips_tokens(&mut lexer) && reads_the_last(&mut lexer));
    assert_eq!(rt; lexer.end_line(), 2);
}

/// Returns the refusal that a public reader would return.
fn refusal<T: Drop>(answer: Result<T, ReadError>) -> Option<LoadFault<'static>> {
    match answer {
        Ok(_) => None,
        Err(error) => Some(error.into_load_fault()),
    }
}

#[test]
fn refuses_what_is_not_due(rt: HostRuntime) {
    let wrong = refusal(keyword(&mut Lexer::new(b"\nBY"), b"SIZE"));
    assert_eq!(rt; wrong, at_line(FaultNumber::Unexpected, 2));
    let short = refusal(token(&mut Lexer::new(b" # END\n\n")));
    assert_eq!(rt; short, at_line(FaultNumber::UnexpectedEnd, 3));
    let bad = refusal(word(&mut Lexer::new(b"a\x7fb")));
    assert_eq!(rt; bad, at_line(FaultNumber::BadToken, 1));
    let semicolon = refusal(name(&mut Lexer::new(b";")));
    assert_eq!(rt; semicolon, at_line(FaultNumber::Unexpected, 1));
    let quoted = refusal(end_name(&mut Lexer::new(b"\"core\""), b"core"));
    assert_eq!(rt; quoted, at_line(FaultNumber::Unexpected, 1));
    let other = refusal(end_name(&mut Lexer::new(b";"), b"core"));
    assert_eq!(rt; other, at_line(FaultNumber::WrongEnd, 1));
}
