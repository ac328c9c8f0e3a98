//! Components, with the offsets of their placement clauses.

ghost use Rattle.std.specs.Prelude.{◌≡◌, None, All, IfOk, IfSome, codes};
ghost use Rattle.lf_lex.specs.Tokens.{lexeme};
ghost use Rattle.lf_lex.specs.Reading.{Reads, ReadsOn, block, turn};
ghost use Rattle.lf_def.specs.Entries.{entry_or_end};
ghost use Rattle.lf_def.specs.Components as grammar;
ghost use Rattle.lf_def.specs.Ranges.{IsDefCoordinate, IsLocation, IsPlacement, IsComponent};
ghost use Rattle.lf_def.specs.Stored.{kind_named, placement_from};

use crate::component_words::ComponentNames;
use crate::coordinates::{orient_of, point_rest};
use crate::offsets::{Offsets, PackedOffsets};
use crate::section::Due;
use lf_lex::{
    Block, FaultNumber, Lexer, ReadError, Token, end_name, fault_at, is_token, keyword, name,
    read_block, skip_to_semicolon, token,
};
use lf_orient::Orient;
use lf_units::Sequence;
use std::alloc::{AllocError, Global};
use std::marker::Model;
use std::mem::size_of;

/// The kind of a placement clause (LEF/DEF 5.8, DEF COMPONENTS).
#[derive(Clone, Copy, Debug, PartialEq, Eq)]
pub enum PlacementKind {
    Fixed,
    Cover,
    Placed,
    Unplaced,
}

/// The lower left corner of a component's box, in database units, and its orientation.
#[derive(Clone, Copy, Debug, PartialEq, Eq)]
pub struct Location {
    pub x: i32,
    pub y: i32,
    pub orient: Orient,
}

/// A placement clause and its offsets.
#[derive(Clone, Copy, Debug, PartialEq, Eq)]
pub struct PlacementClause {
    pub kind: PlacementKind,
    /// The component's place. `None` for UNPLACED, whose point is ignored.
    pub place: Option<Location>,
    /// The offset of its `+` in the text.
    pub start: usize,
    /// The offset after its last token: the orientation, or UNPLACED if no point follows.
    pub stop: usize,
}

/// A component (LEF/DEF 5.8, DEF COMPONENTS), whose names are borrowed from its text. A contract
/// sees its name, its macro's name, its placement clause with the offsets, and the offset of its
/// `;`.
#[derive(Drop)]
pub struct Component<'a> {
    words: ComponentNames<'a>,
    offsets: PackedOffsets,
}

// A design may have a million components, so the size of each is proved.
const _: () = prove!(size_of::<Component>() == 48);

impl<'a> Model for Component<'a> {
    ghost use Rattle.lf_def.specs.Stored.{ComponentFacts, placement_from};

    ghost Value = { ComponentFacts };

    ghost view = { λ c. record {
      name = c.words.name;
      mac = c.words.mac;
      placement = placement_from c.words.kind c.words.place c.offsets.start c.offsets.stop;
      semicolon = c.offsets.semicolon;
    } };
}

/// Returns the placement clause of this kind, with this place and these offsets. `None` if there is
/// no kind.
fn clause_of(
    kind: Option<PlacementKind>,
    place: Option<Location>,
    offsets: &Offsets,
) -> Option<PlacementClause>
    ensures { result ≡ placement_from kind place offsets.now.start offsets.now.stop }
{
    match kind {
        Some(kind) => Some(PlacementClause {
            kind,
            place,
            start: offsets.start,
            stop: offsets.stop,
        }),
        None => None,
    }
}

impl<'a> Component<'a> {
    /// Returns the component with these names, this placement clause and a `;` at this offset.
    /// `Err` if an allocation fails.
    fn new(
        alloc: Global,
        names: ComponentNames<'a>,
        placement: Option<PlacementClause>,
        semicolon: usize,
    ) -> Result<Self, AllocError>
        requires { names.kind ≡ None }
        ensures { IfOk result (λ c. c
            ≡ record { name = names.entry.name; mac = names.entry.mac; placement = placement; semicolon = semicolon }) }
    {
        match placement {
            Some(clause) => {
                let offsets = Offsets {
                    start: clause.start,
                    stop: clause.stop,
                    semicolon,
                };
                Ok(Component {
                    offsets: PackedOffsets::new(alloc, offsets)?,
                    words: names.placed(clause.kind, clause.place),
                })
            }
            None => {
                let offsets = Offsets {
                    start: 0,
                    stop: 0,
                    semicolon,
                };
                Ok(Component {
                    offsets: PackedOffsets::new(alloc, offsets)?,
                    words: names,
                })
            }
        }
    }

    /// Returns the component's name.
    pub fn name(&self) -> &[u8]
        ensures { result.now ≡ self.now.name }
    {
        self.words.name()
    }

    /// Returns the name of its macro.
    pub fn macro_name(&self) -> &[u8]
        ensures { result.now ≡ self.now.mac }
    {
        self.words.macro_name()
    }

    /// Returns the kind of its placement clause, or `None` without one.
    pub fn kind(&self) -> Option<PlacementKind>
        ensures { result ≡ kind_named self.now.placement }
    {
        self.words.kind()
    }

    /// Returns its placement clause with the offsets. `None` without a clause: the component is
    /// then unplaced.
    pub fn placement(&self) -> Option<PlacementClause>
        ensures { result ≡ self.now.placement }
    {
        let offsets = self.offsets.get();
        clause_of(self.words.kind(), self.words.place(), &offsets)
    }

    /// Returns the offset of its `;` in the text.
    pub fn semicolon(&self) -> usize
        ensures { result ≡ self.now.semicolon }
    {
        self.offsets.get().semicolon
    }
}

/// The parts of a component that were read so far.
#[derive(Clone, Copy, Debug, PartialEq, Eq)]
pub struct ComponentParts {
    pub placement: Option<PlacementClause>,
    pub due: Due,
    /// True if the point of UNPLACED may follow here.
    pub point: bool,
    /// The offset of the last `+`.
    pub plus: usize,
    /// The offset of the `;`, after it was read.
    pub semicolon: usize,
}

/// A location, and the offset at which its orientation ends.
#[derive(Clone, Copy, Debug, PartialEq, Eq)]
pub struct LocatedPlace {
    pub location: Location,
    pub stop: usize,
}

/// Returns a coordinate of a component in 32 bits.
fn narrow(x: i64) -> i32
    requires { IsDefCoordinate x }
    ensures { result ≡ x }
{
    x as i32
}

/// Reads `x y ) orient`, after the first parenthesis.
#[tactic(auto, unfolding(crate::specs::Components::located_rest))]
fn located_rest(lexer: &mut Lexer) -> Result<LocatedPlace, ReadError>
    ensures read { Reads (λ p. p) result grammar.located_rest lexer.old lexer.new }
    ensures range { IfOk result (λ p. IsLocation p.location) }
{
    let point = point_rest(lexer)?;
    let token = token(lexer)?;
    let orient = orient_of(&token)?;
    let location = Location {
        x: narrow(point.x),
        y: narrow(point.y),
        orient,
    };
    Ok(LocatedPlace {
        location,
        stop: token.stop,
    })
}

/// Reads `( x y ) orient`, after FIXED, COVER or PLACED.
#[tactic(auto, unfolding(crate::specs::Components::placed_clause))]
fn placed(lexer: &mut Lexer, kind: PlacementKind, plus: usize) -> Result<PlacementClause, ReadError>
    ensures read { Reads (λ p. p) result (grammar.placed_clause kind plus) lexer.old lexer.new }
    ensures range { IfOk result (λ p. IsPlacement p) }
{
    keyword(lexer, b"(")?;
    let located = located_rest(lexer)?;
    Ok(PlacementClause {
        kind,
        place: Some(located.location),
        start: plus,
        stop: located.stop,
    })
}

/// True if the token begins a placement clause.
fn is_placement_word(token: &Token) -> bool
    ensures { result ≡ grammar.is_placement_word (lexeme token.now) }
{
    is_token(b"FIXED", token)
        || is_token(b"COVER", token)
        || is_token(b"PLACED", token)
        || is_token(b"UNPLACED", token)
}

/// Reads a placement clause, after its plus and its word.
#[tactic(auto, unfolding(crate::specs::Components::placement))]
fn read_placement(
    lexer: &mut Lexer,
    plus: usize,
    word: &Token,
) -> Result<PlacementClause, ReadError>
    ensures read { ReadsOn (λ p. p) result (grammar.placement plus (lexeme word.now)) lexer.old lexer.new }
    ensures range { IfOk result (λ p. IsPlacement p) }
{
    if is_token(b"FIXED", word) {
        placed(lexer, PlacementKind::Fixed, plus)
    } else if is_token(b"COVER", word) {
        placed(lexer, PlacementKind::Cover, plus)
    } else if is_token(b"PLACED", word) {
        placed(lexer, PlacementKind::Placed, plus)
    } else {
        Ok(PlacementClause {
            kind: PlacementKind::Unplaced,
            place: None,
            start: plus,
            stop: word.stop,
        })
    }
}

/// Reads a placement clause, after its plus and its word. `Err(Unexpected)` if it is the second
/// one.
#[tactic(auto, unfolding(crate::specs::Components::only_placement))]
fn only_placement(
    lexer: &mut Lexer,
    first: Option<PlacementClause>,
    plus: usize,
    word: &Token,
) -> Result<PlacementClause, ReadError>
    ensures read { ReadsOn (λ p. p) result (grammar.only_placement first plus (lexeme word.now)) lexer.old lexer.new }
    ensures range { IfOk result (λ p. IsPlacement p) }
{
    match first {
        None => read_placement(lexer, plus, word),
        Some(_) => Err(fault_at(FaultNumber::Unexpected, word.line)),
    }
}

/// Reads a clause, after its plus and its word.
#[tactic(auto, unfolding(crate::specs::Components::clause))]
fn clause(lexer: &mut Lexer, parts: &mut ComponentParts, word: &Token) -> Result<bool, ReadError>
    requires range { IfSome parts.old.placement (λ p. IsPlacement p) }
    ensures read { ReadsOn (turn parts.new) result (grammar.clause parts.old (lexeme word.now)) lexer.old lexer.new }
    ensures range { IfSome parts.new.placement (λ p. IsPlacement p) }
{
    if is_placement_word(word) {
        let placement = only_placement(lexer, parts.placement, parts.plus, word)?;
        parts.placement = Some(placement);
        parts.due = Due::Separator;
        parts.point = is_token(b"UNPLACED", word);
    } else {
        parts.due = Due::Rest;
    }
    Ok(true)
}

/// Reads the point and the orientation of UNPLACED, after the first parenthesis.
#[tactic(auto, unfolding(crate::specs::Components::unplaced_point))]
fn unplaced_point(lexer: &mut Lexer, parts: &mut ComponentParts) -> Result<bool, ReadError>
    requires range { IfSome parts.old.placement (λ p. IsPlacement p) }
    ensures read { Reads (turn parts.new) result (grammar.unplaced_point parts.old) lexer.old lexer.new }
    ensures range { IfSome parts.new.placement (λ p. IsPlacement p) }
{
    let located = located_rest(lexer)?;
    if let Some(placement) = &mut parts.placement {
        placement.stop = located.stop;
    }
    parts.point = false;
    Ok(true)
}

/// Reads the part of a component that begins with this token, which is no separator. Returns
/// whether more parts follow.
#[tactic(auto, unfolding(crate::specs::Components::component_part))]
fn component_part(
    lexer: &mut Lexer,
    parts: &mut ComponentParts,
    token: &Token,
) -> Result<bool, ReadError>
    requires range { IfSome parts.old.placement (λ p. IsPlacement p) }
    ensures read { ReadsOn (turn parts.new) result
        (grammar.component_part parts.old.due parts.old (lexeme token.now)) lexer.old lexer.new }
    ensures range { IfSome parts.new.placement (λ p. IsPlacement p) }
{
    match parts.due {
        Due::Item => Ok(true),
        Due::Keyword => clause(lexer, parts, token),
        Due::Rest => Ok(true),
        Due::Separator => {
            if parts.point && is_token(b"(", token) {
                unplaced_point(lexer, parts)
            } else {
                Err(fault_at(FaultNumber::Unexpected, token.line))
            }
        }
    }
}

/// Reads the part of a component that begins with this token. Returns whether more parts follow.
#[tactic(auto, unfolding(crate::specs::Components::component_from))]
fn component_from(
    lexer: &mut Lexer,
    parts: &mut ComponentParts,
    token: &Token,
) -> Result<bool, ReadError>
    requires range { IfSome parts.old.placement (λ p. IsPlacement p) }
    ensures read { ReadsOn (turn parts.new) result
        (grammar.component_from parts.old (lexeme token.now)) lexer.old lexer.new }
    ensures range { IfSome parts.new.placement (λ p. IsPlacement p) }
{
    if is_token(b";", token) {
        parts.semicolon = token.start;
        Ok(false)
    } else if is_token(b"+", token) {
        parts.due = Due::Keyword;
        parts.plus = token.start;
        Ok(true)
    } else {
        component_part(lexer, parts, token)
    }
}

/// Reads the tokens of a component after its macro, up to its `;`.
#[derive(Drop)]
struct ComponentTokens;

impl Block for ComponentTokens {
    type State = ComponentParts;

    ghost statement = { λ _. grammar.component_token };

    ghost keeps = { λ _ parts. IfSome parts.placement (λ p. IsPlacement p) };

    #[tactic(auto, unfolding(crate::specs::Components::component_token))]
    fn turn(&self, lexer: &mut Lexer, parts: &mut ComponentParts) -> Result<bool, ReadError> {
        let token = token(lexer)?;
        component_from(lexer, parts, &token)
    }
}

/// Returns the state of a component after its macro.
fn no_component() -> ComponentParts
    ensures { result ≡ grammar.no_component }
{
    ComponentParts {
        placement: None,
        due: Due::Item,
        point: false,
        plus: 0,
        semicolon: 0,
    }
}

/// Reads a component, after its minus.
#[tactic(auto, unfolding(crate::specs::Components::component))]
fn read_component<'a>(alloc: Global, lexer: &mut Lexer<'a>) -> Result<Component<'a>, ReadError>
    ensures read { Reads (λ c. c) result grammar.component lexer.old lexer.new }
    ensures range { IfOk result (λ c. IsComponent c) }
{
    let text = lexer.text();
    let component = name(lexer)?;
    let mac = name(lexer)?;
    let mut parts = no_component();
    read_block(lexer, &ComponentTokens, &mut parts)?;
    let names = ComponentNames::new(text, &component, &mac);
    Ok(Component::new(alloc, names, parts.placement, parts.semicolon)?)
}

/// Reads an entry, or END COMPONENTS. Returns whether more entries follow.
#[tactic(auto, unfolding(crate::specs::Entries::entry_or_end))]
fn component_or_end<'a>(
    alloc: Global,
    lexer: &mut Lexer<'a>,
    components: &mut Sequence<Component<'a>>,
) -> Result<bool, ReadError>
    requires range { All IsComponent components.old }
    ensures read { Reads (turn components.new) result
        (entry_or_end (codes "COMPONENTS") grammar.component components.old) lexer.old lexer.new }
    ensures range { All IsComponent components.new }
{
    let token = token(lexer)?;
    if is_token(b"-", &token) {
        let component = read_component(alloc, lexer)?;
        components.push(component)?;
        return Ok(true);
    }
    if is_token(b"END", &token) {
        end_name(lexer, b"COMPONENTS")?;
        return Ok(false);
    }
    Err(fault_at(FaultNumber::Unexpected, token.line))
}

/// Reads the entries of a section, and its END. Components borrow the text, so this loop does not
/// use `read_block`.
fn component_entries<'a>(
    alloc: Global,
    lexer: &mut Lexer<'a>,
    components: &mut Sequence<Component<'a>>,
) -> Result<(), ReadError>
    requires range { All IsComponent components.old }
    ensures read { Reads (λ _. components.new) result
        (block (entry_or_end (codes "COMPONENTS") grammar.component) components.old) lexer.old lexer.new }
    ensures range { All IsComponent components.new }
{
    while component_or_end(alloc, lexer, components)? {}
    Ok(())
}

/// Reads a COMPONENTS section, after its keyword, and appends its components.
#[tactic(auto, unfolding(crate::specs::Entries::section))]
pub(crate) fn components<'a>(
    alloc: Global,
    lexer: &mut Lexer<'a>,
    components: &mut Sequence<Component<'a>>,
) -> Result<(), ReadError>
    requires range { All IsComponent components.old }
    ensures read { Reads (λ _. components.new) result (grammar.components components.old) lexer.old lexer.new }
    ensures range { All IsComponent components.new }
{
    skip_to_semicolon(lexer)?;
    component_entries(alloc, lexer, components)
}
