//! The words of a component: its names, borrowed from its text, and the kind and place of its
//! placement clause.

ghost use Rattle.std.specs.Prelude.{◌≡◌, [], ◌∷◌, Some, None};
ghost use Rattle.lf_lex.specs.Tokens.{lexeme, AreSlices, AreWithin};
ghost use Rattle.lf_lex.specs.Reading.{IsName};
ghost use Rattle.lf_def.specs.Stored.{place_from};

use crate::components::{Location, PlacementKind};
use lf_lex::Token;
use lf_orient::Orient;
use std::marker::Model;

/// The names of a component and of its macro, and the kind and the place of its placement clause.
/// The names are one piece of the text, which begins with the first and ends with the second. Upper
/// and lower case of names differ.
#[derive(Drop)]
pub struct ComponentNames<'a> {
    bytes: &'a [u8],
    name_len: u16,
    mac_len: u16,
    /// `None` without a placement clause.
    kind: Option<PlacementKind>,
    /// `None` without a place.
    orient: Option<Orient>,
    x: i32,
    y: i32,
}

impl<'a> Model for ComponentNames<'a> {
    ghost use Rattle.std.specs.Prelude.{◌≤◌, ◌-◌, length, take, drop};
    ghost use Rattle.lf_def.specs.Stored.{ComponentWords, place_from};

    ghost Value = { ComponentWords };

    ghost view = { λ w. record {
      name = take w.name_len w.bytes.now;
      mac = drop (length w.bytes.now - w.mac_len) w.bytes.now;
      kind = w.kind;
      place = place_from w.x w.y w.orient;
    } };

    ghost invariant = { λ w. (w.name_len ≤ length w.bytes.now) × (w.mac_len ≤ length w.bytes.now) };
}

fn place(x: i32, y: i32, orient: Option<Orient>) -> Option<Location>
    ensures { result ≡ place_from x y orient }
{
    match orient {
        Some(orient) => Some(Location { x, y, orient }),
        None => None,
    }
}

impl<'a> ComponentNames<'a> {
    /// Returns these two names of a text, with no placement clause.
    pub(crate) fn new(text: &'a [u8], name: &Token<'a>, mac: &Token<'a>) -> Self
        requires slices { AreSlices text.now 0 (lexeme name.now ∷ lexeme mac.now ∷ []) }
        requires within { AreWithin text.now (lexeme name.now ∷ lexeme mac.now ∷ []) }
        requires name { IsName (lexeme name.now).text }
        requires mac { IsName (lexeme mac.now).text }
        ensures name { result.name ≡ (lexeme name.now).text }
        ensures mac { result.mac ≡ (lexeme mac.now).text }
        ensures kind { result.kind ≡ None }
        ensures place { result.place ≡ None }
    {
        ComponentNames {
            bytes: &text[name.start..mac.stop],
            name_len: name.text.len() as u16,
            mac_len: mac.text.len() as u16,
            kind: None,
            orient: None,
            x: 0,
            y: 0,
        }
    }

    /// Returns the names with this kind and this place in a placement clause.
    pub(crate) fn placed(self, kind: PlacementKind, place: Option<Location>) -> Self
        ensures { result ≡ record { name = self.entry.name; mac = self.entry.mac; kind = Some kind; place = place } }
    {
        match place {
            Some(at) => ComponentNames {
                bytes: self.bytes,
                name_len: self.name_len,
                mac_len: self.mac_len,
                kind: Some(kind),
                orient: Some(at.orient),
                x: at.x,
                y: at.y,
            },
            None => ComponentNames {
                bytes: self.bytes,
                name_len: self.name_len,
                mac_len: self.mac_len,
                kind: Some(kind),
                orient: None,
                x: 0,
                y: 0,
            },
        }
    }

    /// Returns the component's name.
    pub(crate) fn name(&self) -> &[u8]
        ensures { result.now ≡ self.now.name }
    {
        &self.bytes[..self.name_len as usize]
    }

    /// Returns the macro's name.
    pub(crate) fn macro_name(&self) -> &[u8]
        ensures { result.now ≡ self.now.mac }
    {
        &self.bytes[self.bytes.len() - self.mac_len as usize..]
    }

    /// Returns the kind of the placement clause, or `None` without one.
    pub(crate) fn kind(&self) -> Option<PlacementKind>
        ensures { result ≡ self.now.kind }
    {
        self.kind
    }

    /// Returns the place in the placement clause, or `None` if it has no place.
    pub(crate) fn place(&self) -> Option<Location>
        ensures { result ≡ self.now.place }
    {
        place(self.x, self.y, self.orient)
    }
}
