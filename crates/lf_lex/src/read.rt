//! The functions that read LEF and DEF, token by token.

ghost use Rattle.std.specs.Prelude.{◌≡◌, ◌<◌, ◌≤◌, length, true, false, IfOk, IfErr, MatchResult, OnSome};
ghost use Rattle.std.specs.Option.{option_map};
ghost use Rattle.std.specs.List.{list_all};
ghost use Rattle.lf_lex.specs.Tokens.{lexeme, is_word_byte, IsSpelled};
ghost use Rattle.lf_lex.specs.declared.fault.FaultNumber.TheVariants.{Unexpected};
ghost use Rattle.lf_lex.specs.Reading as reading;
ghost use Rattle.lf_lex.specs.Reading.{Reads, Fails, IsFault, IsName, taken};

use crate::block::{Block, read_block};
use crate::fault::{FaultNumber, ReadError, ReadFault};
use crate::lexer::Lexer;
use crate::tokens::{LexFault, Token, TokenKind};

/// Returns the error for this fault of the text at this line.
pub fn fault_at(number: FaultNumber, line: usize) -> ReadError
    ensures { result ≡ reading.error_at number line }
{
    ReadError::Fault(ReadFault { number, line })
}

fn lexer_error(fault: LexFault) -> ReadError
    ensures { result ≡ reading.lexer_error fault }
{
    match fault {
        LexFault::BadToken { line } => fault_at(FaultNumber::BadToken, line),
        LexFault::UnexpectedEnd { line } => fault_at(FaultNumber::UnexpectedEnd, line),
    }
}

/// Returns the error for a token other than the one that is due.
fn unexpected(found: &Token) -> ReadError
    ensures { result ≡ reading.error_at Unexpected found.now.line }
{
    fault_at(FaultNumber::Unexpected, found.line)
}

/// Takes the next token. `Err(UnexpectedEnd)` at the end of the text.
pub fn token<'a>(lexer: &mut Lexer<'a>) -> Result<Token<'a>, ReadError>
    ensures read { Reads lexeme result reading.token lexer.old lexer.new }
    ensures fault { IfErr result IsFault }
    ensures spelled { IfOk result (λ t. IsSpelled (lexeme t)) }
{
    match lexer.next_token() {
        Ok(Some(token)) => Ok(token),
        Ok(None) => Err(fault_at(FaultNumber::UnexpectedEnd, lexer.end_line())),
        Err(fault) => Err(lexer_error(fault)),
    }
}

/// Takes the next token. Returns `None` at the end of the text.
pub fn next<'a>(lexer: &mut Lexer<'a>) -> Result<Option<Token<'a>>, ReadError>
    ensures read { MatchResult result
        (λ t. (reading.next lexer.old ≡ taken (option_map lexeme t) lexer.new) × OnSome t
        (length lexer.new.tokens < length lexer.old.tokens)) (λ e. Fails e
        (reading.next lexer.old)) }
    ensures fault { IfErr result IsFault }
{
    match lexer.next_token() {
        Ok(token) => Ok(token),
        Err(fault) => Err(lexer_error(fault)),
    }
}

/// True if the token's bytes are `word`. The bytes of a quoted text include its quotation marks, so
/// they never equal a word without any.
pub fn is_token(word: &[u8], token: &Token) -> bool
    ensures { result ≡ reading.is word.now (lexeme token.now) }
{
    if token.text.len() != word.len() {
        return false;
    }
    token.text.starts_with(word)
}

/// True if the token is a word, including `;`.
pub fn is_any_word(token: &Token) -> bool
    ensures { result ≡ reading.kind_is_word (lexeme token.now).kind }
{
    match token.kind {
        TokenKind::Word => true,
        TokenKind::Quoted => false,
    }
}

/// True if the token is a word other than `;`.
pub fn is_word(token: &Token) -> bool
    ensures { result ≡ reading.is_word (lexeme token.now) }
{
    is_any_word(token) && !is_token(b";", token)
}

/// Takes the next token. `Err(Unexpected)` if its bytes are not `due`.
#[tactic(auto, unfolding(crate::specs::Reading::keyword))]
pub fn keyword(lexer: &mut Lexer, due: &[u8]) -> Result<(), ReadError>
    ensures read { Reads (λ x. x) result (reading.keyword due.now) lexer.old lexer.new }
    ensures fault { IfErr result IsFault }
{
    let given = token(lexer)?;
    if is_token(due, &given) {
        Ok(())
    } else {
        Err(unexpected(&given))
    }
}

/// Takes a word other than `;`, of any length. `Err(Unexpected)` for another token.
#[inline]
#[tactic(auto, unfolding(crate::specs::Reading::word))]
pub fn word<'a>(lexer: &mut Lexer<'a>) -> Result<Token<'a>, ReadError>
    ensures read { Reads lexeme result reading.word lexer.old lexer.new }
    ensures fault { IfErr result IsFault }
    ensures printable { IfOk result (λ t. list_all is_word_byte (lexeme t).text ≡ true) }
{
    let word = token(lexer)?;
    if is_word(&word) {
        Ok(word)
    } else {
        Err(unexpected(&word))
    }
}

/// Takes a word other than `;`. `Err(Unexpected)` for another token, `Err(TooMany)` if it is longer
/// than 1,024 bytes.
#[tactic(auto, unfolding(crate::specs::Reading::name))]
pub fn name<'a>(lexer: &mut Lexer<'a>) -> Result<Token<'a>, ReadError>
    ensures read { Reads lexeme result reading.name lexer.old lexer.new }
    ensures fault { IfErr result IsFault }
    ensures name { IfOk result (λ t. IsName (lexeme t).text) }
{
    let name = word(lexer)?;
    if name.text.len() > 1024 {
        Err(fault_at(FaultNumber::TooMany, name.line))
    } else {
        Ok(name)
    }
}

/// Takes the name due after END. `Err(WrongEnd)` for another word, `Err(Unexpected)` for a quoted
/// text.
#[tactic(auto, unfolding(crate::specs::Reading::end_name))]
pub fn end_name(lexer: &mut Lexer, due: &[u8]) -> Result<(), ReadError>
    ensures read { Reads (λ x. x) result (reading.end_name due.now) lexer.old lexer.new }
    ensures fault { IfErr result IsFault }
{
    let name = token(lexer)?;
    if !is_any_word(&name) {
        return Err(unexpected(&name));
    }
    if is_token(due, &name) {
        Ok(())
    } else {
        Err(fault_at(FaultNumber::WrongEnd, name.line))
    }
}

/// Skips the tokens up to a `;`.
#[derive(Drop)]
struct ToSemicolon;

impl Block for ToSemicolon {
    type State = ();

    ghost statement = { λ _. reading.passed_token };

    ghost fails = { IsFault };

    #[tactic(auto, unfolding(crate::specs::Reading::passed_token))]
    fn turn(&self, lexer: &mut Lexer, _state: &mut ()) -> Result<bool, ReadError> {
        let token = token(lexer)?;
        Ok(!is_token(b";", &token))
    }
}

/// Skips past the next `;`. `Err(UnexpectedEnd)` if the text ends first.
pub fn skip_to_semicolon(lexer: &mut Lexer) -> Result<(), ReadError>
    ensures read { Reads (λ x. x) result reading.to_semicolon lexer.old lexer.new }
    ensures fault { IfErr result IsFault }
{
    read_block(lexer, &ToSemicolon, &mut ())
}

/// Skips the tokens up to END directly followed by the name that is due. Its state is true if the
/// last token was END.
#[derive(Drop)]
struct ToEnd<'d> {
    due: &'d [u8],
}

impl<'d> Block for ToEnd<'d> {
    type State = bool;

    ghost statement = { λ block. reading.passed_to_end block.due.now };

    ghost fails = { IsFault };

    #[tactic(auto, unfolding(crate::specs::Reading::passed_to_end))]
    fn turn(&self, lexer: &mut Lexer, after_end: &mut bool) -> Result<bool, ReadError> {
        let token = token(lexer)?;
        if *after_end && is_token(self.due, &token) {
            return Ok(false);
        }
        *after_end = is_token(b"END", &token);
        Ok(true)
    }
}

/// Skips past the next END that the name directly follows, and past that name. `Err(UnexpectedEnd)`
/// if the text ends first.
#[tactic(auto, unfolding(crate::specs::Reading::to_end))]
pub fn skip_to_end(lexer: &mut Lexer, due: &[u8]) -> Result<(), ReadError>
    ensures read { Reads (λ x. x) result (reading.to_end due.now) lexer.old lexer.new }
    ensures fault { IfErr result IsFault }
{
    let mut after_end = false;
    read_block(lexer, &ToEnd { due }, &mut after_end)
}

/// Skips the tokens up to the word that is due.
#[derive(Drop)]
struct ToWord<'d> {
    due: &'d [u8],
}

impl<'d> Block for ToWord<'d> {
    type State = ();

    ghost statement = { λ block. reading.passed_to_word block.due.now };

    ghost fails = { IsFault };

    #[tactic(auto, unfolding(crate::specs::Reading::passed_to_word))]
    fn turn(&self, lexer: &mut Lexer, _state: &mut ()) -> Result<bool, ReadError> {
        let token = token(lexer)?;
        Ok(!is_token(self.due, &token))
    }
}

/// Skips past the next token with these bytes. `Err(UnexpectedEnd)` if the text ends first.
pub fn skip_to_word(lexer: &mut Lexer, due: &[u8]) -> Result<(), ReadError>
    ensures read { Reads (λ x. x) result (reading.to_word due.now) lexer.old lexer.new }
    ensures fault { IfErr result IsFault }
{
    read_block(lexer, &ToWord { due }, &mut ())
}
