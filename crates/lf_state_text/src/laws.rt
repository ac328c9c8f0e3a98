//! Laws of saved states.

ghost use Rattle.std.specs.Prelude.{◌≡◌, List, Ok};
ghost use Rattle.lf_state_text.specs.Designs.{NamedDesign};
ghost use Rattle.lf_state_text.specs.Saved.{AreSaved, SavedTeam, state_text};
ghost use Rattle.lf_state_text.specs.Reading.{saved_state_of};

/// A law: a saved state is read back from its text.
pub fn saved_reads_back()
    ensures { (design : NamedDesign) (teams : List SavedTeam) → AreSaved design teams
        → saved_state_of design (state_text design teams) ≡ Ok teams }
{}
