//! Laws on saved floors.

ghost use Rattle.lf_floor.specs.Saved.{RestoredIsCommitted, RunKeepsDesign, SavedRestores, StateAndTail};

/// The saved state of a floor is read back from its text. Restoring it on any floor of the same
/// design gives that floor.
pub fn saved_restores()
    ensures { SavedRestores }
{}

/// A restored floor has the committed places of the saved teams. Its committed design is fully
/// legal if and only if these are.
pub fn restored_is_committed()
    ensures { RestoredIsCommitted }
{}

/// A state text with the journal written after it is a backup.
pub fn state_and_journal_restore()
    ensures { StateAndTail }
{}

/// After any run the floor still has its design. So states can be saved one after another.
pub fn runs_keep_design()
    ensures { RunKeepsDesign }
{}
