//! The verbs of a session. Each has its line in every table of this file, and in no other source of
//! this crate.

ghost use Rattle.std.specs.Prelude.{◌≡◌, ℕ, IfOk, List, bytes_eq, position};
ghost use denote.Ref.{Bor};
ghost use Rattle.lf_proto.specs.Verbs.{CopiesJoin, NamesReadBack, PartsJoin};
ghost use Rattle.lf_proto.specs.Verbs.{action_of, joined, verb_name, operands_of, parts_of, shape_of, verb_named};

use lf_floorplan::Place;
use lf_rules::Padding;
use lf_units::{Name, Point};
use std::alloc::{AllocError, Global};

/// An action of one session of a team. The first paragraph of a verb says what it does. The second
/// has its reply and the numbers of its refusals, in the order in which they are tested.
/// `tools/verbs.py` makes the table of the protocol from them.
#[derive(Drop)]
pub enum Action<N, P = Place> {
    /// Frees the slot.
    ///
    /// Reply: `ok`. Refusals: 3.
    Close,
    /// The session has seen the present revision.
    ///
    /// Reply: `ok REV`. Refusals: 3.
    Sync,
    /// The team's report; changes nothing.
    ///
    /// Reply: `ok JSON`. Refusals: 3.
    Check,
    /// The team's DEF text, its cells at their working places; changes nothing.
    ///
    /// Reply: `ok LENGTH`, a line feed and LENGTH bytes. Refusals: 3.
    Def,
    /// The working place.
    ///
    /// Reply: `ok X Y O`. Refusals: 3, 5, 6.
    Where { cell: N },
    /// The best place for the target; changes nothing.
    ///
    /// Reply: `ok X Y O`. Refusals: 3, 5, 8.
    Find { cell: N, target: Point },
    /// A change of the team's places.
    Change(Change<N, P>),
}

/// A change of a team's places. Its comments have the form of those of `Action`.
#[derive(Drop)]
pub enum Change<N, P = Place> {
    /// Sets the cell's working place, if the place breaks no rule.
    ///
    /// Reply: `ok REV`. Refusals: 3, 4, 11, 5, 7.
    Place { cell: N, place: P },
    /// The cell goes to its best place.
    ///
    /// Reply: `ok REV X Y O`. Refusals: 3, 4, 11, 5, 8.
    Legalize { cell: N, target: Point },
    /// Every cell that is unplaced or illegal goes to its best place, in loading order.
    ///
    /// Reply: `ok REV MOVED`. Refusals: 3, 4, 11, 8.
    Tidy,
    /// The cell becomes unplaced.
    ///
    /// Reply: `ok REV`. Refusals: 3, 4, 11, 5, 6.
    Unplace { cell: N },
    /// The two cells exchange their whole places.
    ///
    /// Reply: `ok REV`. Refusals: 3, 4, 11, 5, 6, 7.
    Swap { first: N, second: N },
    /// Restores the working places before the newest change in the undo list; tests no rule.
    ///
    /// Reply: `ok REV`. Refusals: 3, 4, 11, 9.
    Undo,
    /// The working places become the committed ones.
    ///
    /// Reply: `ok REV`. Refusals: 3, 4, 11, 6, 7.
    Commit,
    /// The committed places become the working ones, unchecked.
    ///
    /// Reply: `ok REV`. Refusals: 3, 4, 11.
    Revert,
    /// Sets how far apart the team keeps its own cells along x, in core sites; no cell moves.
    ///
    /// Reply: `ok REV`. Refusals: 3, 4, 11.
    Pad { padding: Padding },
}

/// The verb of an action.
#[derive(Clone, Copy)]
pub(crate) enum Verb {
    Close,
    Sync,
    Check,
    Def,
    Where,
    Find,
    Place,
    Legalize,
    Tidy,
    Unplace,
    Swap,
    Undo,
    Commit,
    Revert,
    Pad,
}

/// All verbs of a session.
const VERBS: [Verb; 15] = [
    Verb::Close,
    Verb::Sync,
    Verb::Check,
    Verb::Def,
    Verb::Where,
    Verb::Find,
    Verb::Place,
    Verb::Legalize,
    Verb::Tidy,
    Verb::Unplace,
    Verb::Swap,
    Verb::Undo,
    Verb::Commit,
    Verb::Revert,
    Verb::Pad,
];

/// The shape of a verb's own fields, after `TEAM N`.
#[derive(Clone, Copy)]
pub(crate) enum Shape {
    /// None.
    Alone,
    /// `CELL`
    Cell,
    /// `CELL X Y O`
    CellAt,
    /// `CELL X Y`
    CellTo,
    /// `CELL CELL`
    Cells,
    /// `P`
    Sites,
}

/// The values of a verb's own fields: names, places, targets and paddings.
#[derive(Drop)]
pub(crate) enum Operands<N, P = Place> {
    Alone,
    Cell(N),
    CellAt(N, P),
    CellTo(N, Point),
    Cells(N, N),
    Sites(Padding),
}

impl Verb {
    /// Returns its name: the first word of its line.
    fn name(self) -> &'static [u8]
        ensures { result.now ≡ verb_name self }
    {
        match self {
            Verb::Close => b"close",
            Verb::Sync => b"sync",
            Verb::Check => b"check",
            Verb::Def => b"def",
            Verb::Where => b"where",
            Verb::Find => b"find",
            Verb::Place => b"place",
            Verb::Legalize => b"legalize",
            Verb::Tidy => b"tidy",
            Verb::Unplace => b"unplace",
            Verb::Swap => b"swap",
            Verb::Undo => b"undo",
            Verb::Commit => b"commit",
            Verb::Revert => b"revert",
            Verb::Pad => b"pad",
        }
    }

    /// Returns the shape of its own fields.
    pub(crate) fn shape(self) -> Shape
        ensures { result ≡ shape_of self }
    {
        match self {
            Verb::Close => Shape::Alone,
            Verb::Sync => Shape::Alone,
            Verb::Check => Shape::Alone,
            Verb::Def => Shape::Alone,
            Verb::Where => Shape::Cell,
            Verb::Find => Shape::CellTo,
            Verb::Place => Shape::CellAt,
            Verb::Legalize => Shape::CellTo,
            Verb::Tidy => Shape::Alone,
            Verb::Unplace => Shape::Cell,
            Verb::Swap => Shape::Cells,
            Verb::Undo => Shape::Alone,
            Verb::Commit => Shape::Alone,
            Verb::Revert => Shape::Alone,
            Verb::Pad => Shape::Sites,
        }
    }
}

/// Returns the position of the verb of that name in the list. `None` if there is no such verb.
fn position_of(verbs: &[Verb], word: &[u8]) -> Option<usize>
    ensures { result ≡ position (λ v. bytes_eq (verb_name v) word.now) verbs.now }
{
    verbs.iter().position(|verb| verb.name() == word)
}

/// Returns the verb of that name. `None` if there is no such verb.
pub(crate) fn verb_of(word: &[u8]) -> Option<Verb>
    ensures { result ≡ verb_named word.now }
{
    let verbs: &[Verb] = &VERBS;
    let position = position_of(verbs, word)?;
    verbs.get(position).copied()
}

/// Returns the action of a verb with these fields. `None` if they do not have the verb's shape.
pub(crate) fn join<N: Drop, P: Drop>(verb: Verb, operands: Operands<N, P>) -> Option<Action<N, P>>
    ensures { result ≡ joined verb operands }
{
    match (verb, operands) {
        (Verb::Close, Operands::Alone) => Some(Action::Close),
        (Verb::Sync, Operands::Alone) => Some(Action::Sync),
        (Verb::Check, Operands::Alone) => Some(Action::Check),
        (Verb::Def, Operands::Alone) => Some(Action::Def),
        (Verb::Where, Operands::Cell(cell)) => Some(Action::Where { cell }),
        (Verb::Find, Operands::CellTo(cell, target)) => Some(Action::Find { cell, target }),
        (Verb::Place, Operands::CellAt(cell, place)) => Some(Action::Change(Change::Place {
            cell,
            place,
        })),
        (Verb::Legalize, Operands::CellTo(cell, target)) => Some(Action::Change(Change::Legalize {
            cell,
            target,
        })),
        (Verb::Tidy, Operands::Alone) => Some(Action::Change(Change::Tidy)),
        (Verb::Unplace, Operands::Cell(cell)) => Some(Action::Change(Change::Unplace { cell })),
        (Verb::Swap, Operands::Cells(first, second)) => Some(Action::Change(Change::Swap {
            first,
            second,
        })),
        (Verb::Undo, Operands::Alone) => Some(Action::Change(Change::Undo)),
        (Verb::Commit, Operands::Alone) => Some(Action::Change(Change::Commit)),
        (Verb::Revert, Operands::Alone) => Some(Action::Change(Change::Revert)),
        (Verb::Pad, Operands::Sites(padding)) => Some(Action::Change(Change::Pad { padding })),
        _ => None,
    }
}

/// A law: each verb is found by its name, which can be a field of a line.
pub(crate) fn names_read_back()
    ensures { NamesReadBack }
{}

/// A law: an action that is split into parts and joined again is the same.
pub(crate) fn parts_join()
    ensures listed { PartsJoin (List ℕ) }
    ensures borrowed_view { PartsJoin (Bor (List ℕ)) }
{}

/// A law: copying the names and joining a verb with its fields can be done in either order.
pub(crate) fn copies_join()
    ensures { CopiesJoin }
{}

impl<N> Action<N> {
    /// Returns its verb and its own fields, with borrowed names.
    fn parts(&self) -> (Verb, Operands<&N>)
        ensures verb { result.0 ≡ (parts_of self.now).0 }
        ensures operands { operands_of result.1 ≡ (parts_of self.now).1 }
    {
        match self {
            Action::Close => (Verb::Close, Operands::Alone),
            Action::Sync => (Verb::Sync, Operands::Alone),
            Action::Check => (Verb::Check, Operands::Alone),
            Action::Def => (Verb::Def, Operands::Alone),
            Action::Where { cell } => (Verb::Where, Operands::Cell(cell)),
            Action::Find { cell, target } => (Verb::Find, Operands::CellTo(cell, *target)),
            Action::Change(Change::Place { cell, place }) => (
                Verb::Place,
                Operands::CellAt(cell, *place),
            ),
            Action::Change(Change::Legalize { cell, target }) => (
                Verb::Legalize,
                Operands::CellTo(cell, *target),
            ),
            Action::Change(Change::Tidy) => (Verb::Tidy, Operands::Alone),
            Action::Change(Change::Unplace { cell }) => (Verb::Unplace, Operands::Cell(cell)),
            Action::Change(Change::Swap { first, second }) => (
                Verb::Swap,
                Operands::Cells(first, second),
            ),
            Action::Change(Change::Undo) => (Verb::Undo, Operands::Alone),
            Action::Change(Change::Commit) => (Verb::Commit, Operands::Alone),
            Action::Change(Change::Revert) => (Verb::Revert, Operands::Alone),
            Action::Change(Change::Pad { padding }) => (Verb::Pad, Operands::Sites(*padding)),
        }
    }
}

impl Operands<&&[u8]> {
    /// Returns a copy that owns its names.
    ///
    /// `Err` if an allocation fails.
    fn to_owned(self, alloc: Global) -> Result<Operands<Name>, AllocError>
        ensures { IfOk result (λ operands. operands ≡ operands_of (operands_of self.entry)) }
    {
        Ok(match self {
            Operands::Alone => Operands::Alone,
            Operands::Cell(cell) => Operands::Cell(Name::from_slice(alloc, cell)?),
            Operands::CellAt(cell, place) => {
                Operands::CellAt(Name::from_slice(alloc, cell)?, place)
            }
            Operands::CellTo(cell, target) => {
                Operands::CellTo(Name::from_slice(alloc, cell)?, target)
            }
            Operands::Cells(first, second) => Operands::Cells(
                Name::from_slice(alloc, first)?,
                Name::from_slice(alloc, second)?,
            ),
            Operands::Sites(padding) => Operands::Sites(padding),
        })
    }
}

impl<'a> Operands<&'a Name> {
    /// Returns the same fields, with their names borrowed as bytes.
    fn borrowed(self) -> Operands<&'a [u8]>
        ensures { operands_of result ≡ operands_of self.entry }
    {
        match self {
            Operands::Alone => Operands::Alone,
            Operands::Cell(cell) => Operands::Cell(cell.as_bytes()),
            Operands::CellAt(cell, place) => Operands::CellAt(cell.as_bytes(), place),
            Operands::CellTo(cell, target) => Operands::CellTo(cell.as_bytes(), target),
            Operands::Cells(first, second) => Operands::Cells(first.as_bytes(), second.as_bytes()),
            Operands::Sites(padding) => Operands::Sites(padding),
        }
    }
}

impl Action<&[u8]> {
    /// Returns a copy that owns its names.
    ///
    /// `Err` if an allocation fails.
    pub(crate) fn to_owned(&self, alloc: Global) -> Result<Action<Name>, AllocError>
        ensures { IfOk result (λ action. action ≡ action_of self.now) }
    {
        parts_join();
        copies_join();
        let (verb, operands) = self.parts();
        match join(verb, operands.to_owned(alloc)?) {
            Some(action) => Ok(action),
            None => unreachable!(),
        }
    }
}

impl Action<Name> {
    /// Returns the same action with borrowed names.
    pub(crate) fn borrowed(&self) -> Action<&[u8]>
        ensures { action_of result ≡ self.now }
    {
        parts_join();
        copies_join();
        let (verb, operands) = self.parts();
        match join(verb, operands.borrowed()) {
            Some(action) => action,
            None => unreachable!(),
        }
    }
}
