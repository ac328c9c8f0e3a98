//! The content of an undo entry: the cells that a command moved, with their previous places.

ghost use Rattle.std.specs.Prelude.{◌≡◌, ◌++◌, ◌∷◌, ◌<◌, ◌≤◌, [], IfOk, OnOk, OnErr, length};
ghost use Rattle.lf_undo.specs.Entries.{replaced};

use crate::stacks::Stacks;
use lf_floorplan::{PackedPlace, Place};
use std::alloc::{AllocError, Allocator, Global};
use std::marker::Model;

/// A move of one cell: its position among the team's cells, and a place, `None` if unplaced. Before
/// the move is applied this is the cell's new place, and afterwards its previous one.
#[derive(Clone, Copy, Debug, PartialEq, Eq)]
pub struct Move {
    pub own: u32,
    pub place: PackedPlace,
}

impl Move {
    /// Returns the move of the cell at this position, with this previous place.
    pub fn new(own: u32, old: Option<Place>) -> Self
        ensures { result ≡ record { own = own; place = old } }
    {
        Move {
            own,
            place: PackedPlace::of(old),
        }
    }
}

/// The moves of one command, in their order, at most 4,294,967,295. A cell that the command moves
/// twice is in the list twice.
#[derive(Drop)]
pub struct Moves<A: Allocator = Global> {
    moves: Vec<Move, A>,
}

impl<A: Allocator> Model for Moves<A> {
    ghost use Rattle.std.specs.Prelude.{List};
    ghost use Rattle.lf_undo.specs.declared.moves.Move.{Move};

    ghost Value = { List Move };

    ghost use Rattle.std.specs.Prelude.{◌≤◌, length};

    ghost view = { λ m. m.moves.items };

    ghost invariant = { λ m. length m.moves.items ≤ 4294967295 };
}

impl<A: Allocator> Moves<A> {
    /// Returns the empty list. Allocates nothing.
    pub fn new(alloc: A) -> Self
        ensures { result ≡ [] }
    {
        Moves {
            moves: Vec::new(alloc),
        }
    }

    /// Returns the empty list, with room for `count` moves. Contracts do not mention the room.
    ///
    /// `Err` if an allocation fails.
    pub fn with_capacity(alloc: A, count: usize) -> Result<Self, AllocError>
        ensures { IfOk result (λ moves. moves ≡ []) }
    {
        Ok(Moves {
            moves: Vec::with_capacity(alloc, count)?,
        })
    }

    /// Appends a move.
    ///
    /// `Err` if an allocation fails, or there are 4,294,967,295 moves; the list is then unchanged.
    pub fn push(&mut self, moved: Move) -> Result<(), AllocError>
        ensures ok { OnOk result (self.new ≡ self.old ++ moved ∷ []) }
        ensures err { OnErr result (self.new ≡ self.old) }
    {
        if self.moves.len() >= 4_294_967_295 {
            return Err(AllocError);
        }
        self.moves.push(moved)?;
        Ok(())
    }

    /// Replaces the place in the move at this position, which must exist. Allocates nothing.
    pub fn replace(&mut self, at: usize, old: Option<Place>)
        requires { at < length self.old }
        ensures { self.new ≡ replaced self.old at old }
    {
        self.moves[at].place = PackedPlace::of(old);
    }

    /// A law: there are at most 4,294,967,295 moves.
    pub fn are_few(&self)
        ensures { length self.now ≤ 4294967295 }
    {
        let _ = &self.moves;
    }

    /// Returns the moves, in their order.
    pub fn as_slice(&self) -> &[Move]
        ensures { result.now ≡ self.now }
    {
        self.moves.as_slice()
    }
}

/// For each team the entries of its last commands, the newest first: stacks of `Moves`.
pub type UndoStore<A = Global> = Stacks<Moves<A>, A>;
