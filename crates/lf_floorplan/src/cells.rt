//! The movable cells of a loaded design, stored with a shared table of names.

ghost use Rattle.std.specs.Prelude.{◌≡◌, ◌≢◌, ◌++◌, ◌∷◌, [], All, IfOk, OnErr, OnOk, length, slice_get};
ghost use Rattle.std.specs.Option.{option_map};
ghost use Rattle.lf_floorplan.specs.LoadedCells.{borrowed_cell, with_name, with_names};

use crate::packed_place::PackedPlace;
use crate::place::Place;
use lf_names::NameTable;
use std::alloc::{AllocError, Global};
use std::marker::Model;

/// A movable cell without its name.
#[derive(Clone, Copy)]
pub struct UnnamedCell {
    /// The number of its team.
    pub team: u32,
    /// The position of its macro in the frame.
    pub mac: u32,
    /// The position of its entry among all COMPONENTS of the DEF text.
    pub component: u32,
    /// Its place in the DEF text; `None` if it is unplaced there.
    pub place: PackedPlace,
}

/// A movable cell. Its name is borrowed from the list of cells.
#[derive(Clone, Copy)]
pub struct CellRef<'a> {
    pub name: &'a [u8],
    /// The number of its team.
    pub team: usize,
    /// The position of its macro in the frame.
    pub mac: usize,
    /// Its place in the DEF text; `None` if it is unplaced there.
    pub place: Option<Place>,
    /// The position of its entry among all COMPONENTS of the DEF text.
    pub component: usize,
}

/// The names of cells, and in the same order the cells without their names.
#[derive(Drop)]
pub struct CellParts {
    pub names: NameTable,
    pub cells: Vec<UnnamedCell>,
}

/// The movable cells of a design, in loading order. Each name is stored once, in a table that
/// `into_parts` returns. Contracts see the list of cells with their names.
pub struct LoadedCells {
    parts: CellParts,
}

/// Written by hand: with a derived `drop`, the proof of each function that drops a `LoadedCells`
/// unfolds its fields.
impl Drop for LoadedCells {
    fn drop(self) {
        let LoadedCells { parts: _ } = self;
    }
}

impl Model for LoadedCells {
    ghost use Rattle.std.specs.Prelude.{List};
    ghost use Rattle.lf_floorplan.specs.declared.loaded.LoadedCell.{LoadedCell};

    ghost Value = { List LoadedCell };

    ghost use Rattle.std.specs.Prelude.{◌≡◌, length};
    ghost use Rattle.lf_floorplan.specs.LoadedCells.{with_names};

    ghost view = { λ l. with_names l.parts.names l.parts.cells.items };

    ghost invariant = { λ l. length l.parts.names ≡ length l.parts.cells.items };
}

/// Appends a cell. Reserves its room first, then adds the name. `Err` if an allocation fails; both
/// lists are then unchanged.
fn push_cell(parts: &mut CellParts, name: &[u8], cell: UnnamedCell) -> Result<(), AllocError>
    requires { All (λ n. n ≢ name.now) parts.old.names }
    ensures names { OnOk result (parts.new.names ≡ parts.old.names ++ name.now ∷ []) }
    ensures cells { OnOk result (parts.new.cells.items ≡ parts.old.cells.items ++ cell ∷ []) }
    ensures names_stay { OnErr result (parts.new.names ≡ parts.old.names) }
    ensures cells_stay { OnErr result (parts.new.cells.items ≡ parts.old.cells.items) }
{
    parts.cells.reserve(1)?;
    parts.names.add_new(name)?;
    parts.cells.push(cell).unwrap();
    Ok(())
}

/// Returns the cell at this position. `None` if there is no such cell.
fn plain_at(cells: &[UnnamedCell], at: usize) -> Option<UnnamedCell>
    ensures { result ≡ slice_get cells.now at }
{
    match cells.get(at) {
        Some(cell) => Some(*cell),
        None => None,
    }
}

impl LoadedCells {
    /// Returns the empty list. Allocates nothing.
    pub fn new(alloc: Global) -> Self
        ensures { result ≡ [] }
    {
        LoadedCells {
            parts: CellParts {
                names: NameTable::new(alloc),
                cells: Vec::new(alloc),
            },
        }
    }

    /// Returns the empty list, with room for `cells` cells. Longer names allocate memory of their
    /// own. `Err` if an allocation fails.
    pub fn with_capacity(alloc: Global, cells: usize) -> Result<Self, AllocError>
        ensures { IfOk result (λ list. list ≡ []) }
    {
        Ok(LoadedCells {
            parts: CellParts {
                names: NameTable::with_capacity(alloc, cells)?,
                cells: Vec::with_capacity(alloc, cells)?,
            },
        })
    }

    /// Appends a cell whose name no other cell has.
    ///
    /// `Err` if an allocation fails; the list is then unchanged.
    pub fn push(&mut self, name: &[u8], cell: UnnamedCell) -> Result<(), AllocError>
        requires { All (λ c. c.name ≢ name.now) self.old }
        ensures ok { OnOk result (self.new ≡ self.old ++ with_name name.now cell ∷ []) }
        ensures err { OnErr result (self.new ≡ self.old) }
    {
        push_cell(&mut self.parts, name, cell)?;
        Ok(())
    }

    /// Returns the number of cells.
    pub fn len(&self) -> usize
        ensures { result ≡ length self.now }
    {
        self.parts.cells.len()
    }

    /// Returns the cell at this position, its name borrowed from the list. `None` iff there is no
    /// such cell.
    pub fn get(&self, at: usize) -> Option<CellRef<'_>>
        ensures { option_map borrowed_cell result ≡ slice_get self.now at }
    {
        let name = self.parts.names.name_at(at)?;
        let cell = plain_at(self.parts.cells.as_slice(), at)?;
        Some(CellRef {
            name,
            team: cell.team as usize,
            mac: cell.mac as usize,
            place: cell.place.place(),
            component: cell.component as usize,
        })
    }

    /// Returns the table of names and the cells without them. Both have the same length and order,
    /// and together they are the list.
    pub fn into_parts(self) -> CellParts
        ensures cells { with_names result.names result.cells.items ≡ self }
        ensures count { length result.names ≡ length result.cells.items }
    {
        let LoadedCells { parts } = self;
        parts
    }
}
