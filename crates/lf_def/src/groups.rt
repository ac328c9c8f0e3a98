//! Groups: the components that belong to a region.

ghost use Rattle.std.specs.Prelude.{◌≡◌, All, IfSome};
ghost use Rattle.lf_lex.specs.Tokens.{lexeme, IsSpelled};
ghost use Rattle.lf_lex.specs.Reading.{Reads, ReadsOn, IsName, turn};
ghost use Rattle.lf_def.specs.Groups as grammar;
ghost use Rattle.lf_def.specs.Ranges.{IsGroup, AreGroupParts};

use crate::section::{Due, Entry, check_name, keep_first, section};
use lf_lex::{
    Block, FaultNumber, Lexer, ReadError, Token, fault_at, is_token, name, read_block, token,
};
use lf_units::{Name, Sequence};
use std::alloc::Global;

/// A group of components (LEF/DEF 5.8, DEF GROUPS).
#[derive(Drop)]
pub struct Group {
    pub name: Name,
    /// Patterns of component names, in the order of the text. A `*` that is not directly after a
    /// backslash matches any run of bytes.
    pub patterns: Sequence<Name>,
    /// The region of the first REGION clause, or `None` without REGION.
    pub region: Option<Name>,
}

/// The parts of a group that were read so far.
#[derive(Drop)]
pub struct GroupParts {
    pub patterns: Sequence<Name>,
    pub region: Option<Name>,
    pub due: Due,
}

/// Adds one more pattern.
#[tactic(auto, unfolding(crate::specs::Groups::with_pattern))]
fn with_pattern(
    alloc: Global,
    lexer: &Lexer,
    parts: &mut GroupParts,
    token: &Token,
) -> Result<bool, ReadError>
    requires spelled { IsSpelled (lexeme token.now) }
    requires names { AreGroupParts parts.old }
    ensures read { ReadsOn (turn parts.new) result
        (grammar.with_pattern parts.old (lexeme token.now)) lexer.now lexer.now }
    ensures names { AreGroupParts parts.new }
{
    check_name(token)?;
    let pattern = Name::from_slice(alloc, token.text)?;
    parts.patterns.push(pattern)?;
    Ok(true)
}

/// Reads a REGION clause, after its word.
#[tactic(auto, unfolding(crate::specs::Groups::with_region))]
fn with_region(alloc: Global, lexer: &mut Lexer, parts: &mut GroupParts) -> Result<bool, ReadError>
    requires names { AreGroupParts parts.old }
    ensures read { Reads (turn parts.new) result (grammar.with_region parts.old) lexer.old lexer.new }
    ensures names { AreGroupParts parts.new }
{
    let region = name(lexer)?;
    if is_token(b"(", &region) {
        return Err(fault_at(FaultNumber::Unexpected, region.line));
    }
    keep_first(alloc, &mut parts.region, region.text)?;
    parts.due = Due::Separator;
    Ok(true)
}

/// Reads the part of a group that begins with this token, which is no separator. Returns whether
/// more parts follow.
#[tactic(auto, unfolding(crate::specs::Groups::group_part))]
fn group_part(
    alloc: Global,
    lexer: &mut Lexer,
    parts: &mut GroupParts,
    token: &Token,
) -> Result<bool, ReadError>
    requires spelled { IsSpelled (lexeme token.now) }
    requires names { AreGroupParts parts.old }
    ensures read { ReadsOn (turn parts.new) result
        (grammar.group_part parts.old.due parts.old (lexeme token.now)) lexer.old lexer.new }
    ensures names { AreGroupParts parts.new }
{
    match parts.due {
        Due::Item => with_pattern(alloc, lexer, parts, token),
        Due::Keyword => {
            if is_token(b"REGION", token) {
                with_region(alloc, lexer, parts)
            } else {
                parts.due = Due::Rest;
                Ok(true)
            }
        }
        Due::Rest => Ok(true),
        Due::Separator => Err(fault_at(FaultNumber::Unexpected, token.line)),
    }
}

/// Reads the part of a group that begins with this token. Returns whether more parts follow.
#[tactic(auto, unfolding(crate::specs::Groups::group_from))]
fn group_from(
    alloc: Global,
    lexer: &mut Lexer,
    parts: &mut GroupParts,
    token: &Token,
) -> Result<bool, ReadError>
    requires spelled { IsSpelled (lexeme token.now) }
    requires names { AreGroupParts parts.old }
    ensures read { ReadsOn (turn parts.new) result
        (grammar.group_from parts.old (lexeme token.now)) lexer.old lexer.new }
    ensures names { AreGroupParts parts.new }
{
    if is_token(b";", token) {
        Ok(false)
    } else if is_token(b"+", token) {
        parts.due = Due::Keyword;
        Ok(true)
    } else {
        group_part(alloc, lexer, parts, token)
    }
}

/// Reads the tokens of a group after its name, up to its `;`.
#[derive(Drop)]
struct GroupTokens {
    alloc: Global,
}

impl Block for GroupTokens {
    type State = GroupParts;

    ghost statement = { λ _. grammar.group_token };

    ghost keeps = { λ _ parts. AreGroupParts parts };

    #[tactic(auto, unfolding(crate::specs::Groups::group_token))]
    fn turn(&self, lexer: &mut Lexer, parts: &mut GroupParts) -> Result<bool, ReadError> {
        let token = token(lexer)?;
        group_from(self.alloc, lexer, parts, &token)
    }
}

/// Returns the state of a group after its name.
fn no_group(alloc: Global) -> GroupParts
    ensures parts { result ≡ grammar.no_group }
    ensures names { AreGroupParts result }
{
    GroupParts {
        patterns: Sequence::new(alloc),
        region: None,
        due: Due::Item,
    }
}

impl Entry for Group {
    ghost entry = { grammar.group };

    ghost keeps = { IsGroup };

    #[tactic(auto, unfolding(crate::specs::Groups::group))]
    fn read(alloc: Global, lexer: &mut Lexer) -> Result<Group, ReadError> {
        let name = name(lexer)?;
        let mut parts = no_group(alloc);
        read_block(lexer, &GroupTokens { alloc }, &mut parts)?;
        Ok(Group {
            name: Name::from_slice(alloc, name.text)?,
            patterns: parts.patterns,
            region: parts.region,
        })
    }
}

/// Reads a GROUPS section, after its keyword, and appends its groups.
pub(crate) fn groups(
    alloc: Global,
    lexer: &mut Lexer,
    groups: &mut Sequence<Group>,
) -> Result<(), ReadError>
    requires range { All IsGroup groups.old }
    ensures read { Reads (λ _. groups.new) result (grammar.groups groups.old) lexer.old lexer.new }
    ensures range { All IsGroup groups.new }
{
    section(alloc, lexer, b"GROUPS", groups)
}
