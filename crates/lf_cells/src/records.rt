//! The cells of one team, without their names.

ghost use Rattle.std.specs.Prelude.{◌≡◌, ◌++◌, ◌∷◌, [], OnOk, length, map, slice_get};
ghost use Rattle.lf_cells.specs.Records.{initial_record, moved_records, committed_record};

use lf_floorplan::{PackedPlace, Place, UnnamedCell};
use std::alloc::{AllocError, Global};
use std::marker::Model;

/// A cell without its name.
#[derive(Clone, Copy)]
pub(crate) struct CellRecord {
    /// The position of its name in the table of names.
    pub(crate) label: u32,
    pub(crate) mac: u32,
    pub(crate) component: u32,
    pub(crate) working: PackedPlace,
    pub(crate) committed: PackedPlace,
}

impl CellRecord {
    /// Returns a cell at its loaded place. `label` is the position of its name.
    pub(crate) fn initial(label: u32, cell: &UnnamedCell) -> Self
        ensures { result ≡ initial_record label cell.now }
    {
        CellRecord {
            label,
            mac: cell.mac,
            component: cell.component,
            working: cell.place,
            committed: cell.place,
        }
    }

    /// Returns the cell with its working place committed.
    fn committed(&self) -> Self
        ensures { result ≡ committed_record self.now }
    {
        CellRecord {
            label: self.label,
            mac: self.mac,
            component: self.component,
            working: self.working,
            committed: self.working,
        }
    }
}

/// The cells of one team, in loading order.
#[derive(Drop)]
pub(crate) struct TeamCells {
    slots: Vec<CellRecord>,
}

impl Model for TeamCells {
    ghost use Rattle.std.specs.Prelude.{List};
    ghost use Rattle.lf_cells.specs.declared.records.CellRecord.{CellRecord};

    ghost Value = { List CellRecord };

    ghost view = { λ s. s.slots.items };
}

impl TeamCells {
    /// Returns the empty list.
    pub(crate) fn new(alloc: Global) -> Self
        ensures { result ≡ [] }
    {
        TeamCells {
            slots: Vec::new(alloc),
        }
    }

    /// Appends a cell. `Err` if an allocation fails.
    pub(crate) fn push(&mut self, slot: CellRecord) -> Result<(), AllocError>
        ensures { OnOk result (self.new ≡ self.old ++ slot ∷ []) }
    {
        self.slots.push(slot)?;
        Ok(())
    }

    /// Returns the number of cells.
    pub(crate) fn len(&self) -> usize
        ensures { result ≡ length self.now }
    {
        self.slots.len()
    }

    /// Returns the cell at this position. `None` if there is no such cell.
    pub(crate) fn get(&self, own: usize) -> Option<CellRecord>
        ensures { result ≡ slice_get self.now own }
    {
        match self.slots.get(own) {
            Some(slot) => Some(*slot),
            None => None,
        }
    }

    /// Changes the working place of the cell at this position, if there is one.
    pub(crate) fn set_working(&mut self, own: usize, place: Option<Place>)
        ensures { self.new ≡ moved_records self.old own place }
    {
        put(&mut self.slots, own, place);
    }

    /// Commits the working places.
    pub(crate) fn commit(&mut self)
        ensures { self.new ≡ map committed_record self.old }
    {
        commit_all(&mut self.slots);
    }
}

/// Changes the working place of the cell at this position, if there is one.
fn put(slots: &mut Vec<CellRecord>, own: usize, place: Option<Place>)
    ensures { slots.new.items ≡ moved_records slots.old.items own place }
{
    if own < slots.len() {
        slots[own].working = PackedPlace::of(place);
    }
}

/// Commits the working places.
fn commit_all(slots: &mut Vec<CellRecord>)
    ensures { slots.new.items ≡ map committed_record slots.old.items }
{
    for i in 0..slots.len() {
        slots[i] = slots[i].committed();
    }
}
