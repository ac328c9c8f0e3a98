//! The ids of one team's cells.

ghost use Rattle.std.specs.Prelude.{◌≡◌, ◌++◌, ◌∷◌, [], OnOk};

use crate::cell::CellId;
use std::alloc::{AllocError, Global};
use std::marker::Model;

/// The ids of one team's cells, in loading order.
#[derive(Drop)]
pub(crate) struct Ids {
    ids: Vec<CellId>,
}

impl Model for Ids {
    ghost use Rattle.std.specs.Prelude.{List};
    ghost use Rattle.lf_cells.specs.declared.cell.CellId.{CellId};

    ghost Value = { List CellId };

    ghost view = { λ i. i.ids.items };
}

impl Ids {
    /// Returns the empty list.
    pub(crate) fn new(alloc: Global) -> Self
        ensures { result ≡ [] }
    {
        Ids {
            ids: Vec::new(alloc),
        }
    }

    /// Appends an id. `Err` if an allocation fails.
    pub(crate) fn push(&mut self, id: CellId) -> Result<(), AllocError>
        ensures { OnOk result (self.new ≡ self.old ++ id ∷ []) }
    {
        self.ids.push(id)?;
        Ok(())
    }

    /// Returns the ids as a slice.
    pub(crate) fn as_slice(&self) -> &[CellId]
        ensures { result.now ≡ self.now }
    {
        self.ids.as_slice()
    }
}
