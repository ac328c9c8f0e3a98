//! What the sections of DEF share: entries that begin with a minus, and clauses that begin with a
//! plus.

ghost use Rattle.std.specs.Prelude.{◌≡◌, Ok, All, IfOk, OnOk, OnErr, MatchResult};
ghost use Rattle.lf_lex.specs.Tokens.{lexeme, IsSpelled};
ghost use Rattle.lf_lex.specs.Reading.{Fails, IsName, Reader, Reads, first_counts};
ghost use Rattle.lf_def.specs.Entries as grammar;

use lf_lex::{
    Block, FaultNumber, Lexer, ReadError, Token, end_name, fault_at, is_token, is_word, read_block,
    skip_to_semicolon, token,
};
use lf_units::{Name, Sequence};
use std::alloc::{AllocError, Global};
use std::marker::PhantomData;

/// The kind of token that is due in an entry, besides `;` and `+`.
#[derive(Clone, Copy, Debug, PartialEq, Eq)]
pub enum Due {
    /// A token in front of the first clause: a point of a region, a pattern of a group.
    Item,
    /// The word of a clause, directly after its `+`.
    Keyword,
    /// A token of the rest of a clause, which is skipped.
    Rest,
    /// No other token: the clause was read to its end.
    Separator,
}

/// Checks that the token is a name or a pattern. `Err(Unexpected)` if it is not, `Err(TooMany)` if
/// it is longer than 1,024 bytes.
pub(crate) fn check_name(token: &Token) -> Result<(), ReadError>
    requires spelled { IsSpelled (lexeme token.now) }
    ensures read { MatchResult result (λ _. grammar.name_token (lexeme token.now) ≡ Ok (lexeme token.now).text)
        (λ e. Fails e (grammar.name_token (lexeme token.now))) }
    ensures name { OnOk result (IsName (lexeme token.now).text) }
{
    if !is_word(token) {
        return Err(fault_at(FaultNumber::Unexpected, token.line));
    }
    if token.text.len() > 1024 {
        return Err(fault_at(FaultNumber::TooMany, token.line));
    }
    Ok(())
}

/// Sets `first` to the text unless an earlier statement set it. `Err` if an allocation fails;
/// `first` is then unchanged.
pub(crate) fn keep_first(
    alloc: Global,
    first: &mut Option<Name>,
    text: &[u8],
) -> Result<(), AllocError>
    ensures ok { OnOk result (first.new ≡ first_counts first.old text.now) }
    ensures err { OnErr result (first.new ≡ first.old) }
{
    if first.is_none() {
        *first = Some(Name::from_slice(alloc, text)?);
    }
    Ok(())
}

/// An entry of a section.
pub(crate) trait Entry: Sized + Drop {
    // The reader of an entry, after its minus.
    ghost entry: { Reader Self };

    // The property that each entry has.
    ghost keeps: { Self → Type 0 };

    /// Reads an entry, after its minus.
    fn read(alloc: Global, lexer: &mut Lexer) -> Result<Self, ReadError>
        ensures read { Reads (λ e. e) result entry lexer.old lexer.new }
        ensures range { IfOk result (λ e. keeps e) };
}

/// Reads the entries of the section with this keyword, up to its END.
#[derive(Drop)]
struct Entries<'k, E> {
    alloc: Global,
    keyword: &'k [u8],
    entry: PhantomData<E>,
}

impl<'k, E: Entry> Block for Entries<'k, E> {
    type State = Sequence<E>;

    ghost statement = { λ section. grammar.entry_or_end section.keyword.now E.entry };

    ghost keeps = { λ _ entries. All E.keeps entries };

    #[tactic(auto, unfolding(crate::specs::Entries::entry_or_end))]
    fn turn(&self, lexer: &mut Lexer, entries: &mut Sequence<E>) -> Result<bool, ReadError> {
        let token = token(lexer)?;
        if is_token(b"-", &token) {
            let entry = E::read(self.alloc, lexer)?;
            entries.push(entry)?;
            return Ok(true);
        }
        if is_token(b"END", &token) {
            end_name(lexer, self.keyword)?;
            return Ok(false);
        }
        Err(fault_at(FaultNumber::Unexpected, token.line))
    }
}

/// Reads a section, after its keyword, and appends its entries.
#[tactic(auto, unfolding(crate::specs::Entries::section))]
pub(crate) fn section<E: Entry>(
    alloc: Global,
    lexer: &mut Lexer,
    keyword: &[u8],
    entries: &mut Sequence<E>,
) -> Result<(), ReadError>
    requires range { All E.keeps entries.old }
    ensures read { Reads (λ _. entries.new) result
        (grammar.section keyword.now E.entry entries.old) lexer.old lexer.new }
    ensures range { All E.keeps entries.new }
{
    skip_to_semicolon(lexer)?;
    let block = Entries {
        alloc,
        keyword,
        entry: PhantomData,
    };
    read_block(lexer, &block, entries)
}
