//! The saved state of a floor, as a value from which its text is written.

ghost use Rattle.std.specs.Prelude.{⊤};
ghost use Rattle.lf_io.specs.Output.{PutsText};
ghost use Rattle.lf_floor.specs.Saved.{IsStateText, design_names};
ghost use Rattle.lf_floor.specs.SavedStates.{state_text_of, saved_teams_of};
ghost use Rattle.lf_floor_verbs.specs.Tables.{AreTables, floor_in};

use crate::floor::Floor;
use crate::state_view::{fences_are_few, write_tables};
use lf_floor_verbs::Tables;
use lf_io::Output;
use lf_legalize::Seeker;
use std::marker::Model;

/// An output that drops its input.
#[derive(Drop)]
struct NullOutput;

impl Output for NullOutput {
    ghost took = { λ _ _ _. ⊤ };

    fn put(&mut self, _bytes: &[u8]) {}
}

/// The saved state of a floor, whose text is written from the floor itself.
///
/// Contracts see the names of the design, and the saved teams.
#[derive(Drop)]
pub struct StateSnapshot<'a> {
    tables: &'a Tables,
}

impl<'a> Model for StateSnapshot<'a> {
    ghost use Rattle.std.specs.Prelude.{List};
    ghost use Rattle.lf_state_text.specs.Designs.{NamedDesign};
    ghost use Rattle.lf_state_text.specs.Saved.{SavedTeam};
    ghost use Rattle.lf_floor.specs.Saved.{design_names};
    ghost use Rattle.lf_floor.specs.SavedStates.{saved_teams_of};
    ghost use Rattle.lf_floor_verbs.specs.Tables.{AreTables, floor_in};

    ghost Value = { NamedDesign × List SavedTeam };

    ghost view = { λ s. (design_names (floor_in s.tables.now), saved_teams_of s.tables.now) };

    ghost invariant = { λ s. AreTables s.tables.now };
}

impl<'a> StateSnapshot<'a> {
    /// Writes the state text. Does not allocate.
    pub fn write_text<O: Output>(&self, out: &mut O)
        ensures { PutsText O.took out.old out.new (state_text_of self.now) }
    {
        write_tables(out, self.tables);
    }
}

/// The saved state of the floor of the tables. Each place is checked, so that it has a text.
fn snapshot_of(tables: &Tables) -> StateSnapshot<'_>
    requires { AreTables tables.now }
    ensures { IsStateText (floor_in tables.now) (state_text_of result) }
{
    fences_are_few(tables.placement.frame());
    write_tables(&mut NullOutput, tables);
    StateSnapshot { tables }
}

impl<S: Seeker + Drop> Floor<S> {
    /// The saved state of the floor: `restore` restores the floor from its text.
    pub fn snapshot(&self) -> StateSnapshot<'_>
        ensures { IsStateText self.now (state_text_of result) }
    {
        snapshot_of(&self.tables)
    }
}
