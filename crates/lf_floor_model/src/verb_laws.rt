//! Laws on the outcomes of the verbs of the command table.

ghost use Rattle.lf_floor_model.specs.VerbLaws.{NeverOutOfMemory, RefusalKeepsState, RefusedTidyKeepsState, ChangeCounts, QueryKeepsState};
ghost use Rattle.lf_floor_model.specs.VerbLaws.{UndoBringsBack, RevertAfterCommitKeeps, OnlyCommitCommits, OnlyPadPads, PadKeeps};
ghost use Rattle.lf_floor_model.specs.VerbLaws.{BestIsFound, TidyMakesLegal, CommitFindsLegal, PlaceMakesLegal, LegalizeMakesLegal};
ghost use Rattle.lf_floor_model.specs.VerbLaws.{SwapMakesLegal, VerbKeepsTeam};
ghost use Rattle.lf_floor_model.specs.VerbRows.{VerbRows};

use lf_rules::legal_in_range;

/// The definition of no verb has the outcome `OutOfMemory`: only a failed allocation causes that
/// reply.
pub fn never_out_of_memory()
    ensures { NeverOutOfMemory }
{}

/// A refusal leaves the team unchanged.
pub fn refusal_keeps_state()
    ensures { RefusalKeepsState }
{}

/// A tidy in which a cell has no best place names that cell and leaves the team unchanged.
pub fn refused_tidy_keeps_state()
    ensures { RefusedTidyKeepsState }
{}

/// An accepted change comes from a session that has seen the team's revision, and the revision
/// limit is not reached. The change adds one to the revision. Only this session has seen the new
/// revision.
pub fn change_counts()
    ensures { ChangeCounts }
{}

/// A verb that is not a change leaves the team's cells, revision, undo entries and padding
/// unchanged. Only its session slots may differ.
pub fn query_keeps_state()
    ensures { QueryKeepsState }
{}

/// Undo after an accepted place, legalize, tidy, unplace, swap or revert restores the previous
/// working places.
pub fn undo_brings_back()
    ensures { UndoBringsBack }
{}

/// Revert after an accepted commit leaves the working places unchanged.
pub fn revert_after_commit_keeps()
    ensures { RevertAfterCommitKeeps }
{}

/// Only commit changes a committed place.
pub fn only_commit_commits()
    ensures { OnlyCommitCommits }
{}

/// Only pad changes a team's padding.
pub fn only_pad_pads()
    ensures { OnlyPadPads }
{}

/// A pad from a session that may change the team is accepted wherever the cells are placed. It
/// changes the padding and the revision. The working places, committed places and undo entries stay
/// the same.
pub fn pad_keeps()
    ensures { PadKeeps }
{}

/// The place that find and legalize choose is the best place. They find no place only if no place
/// is legal for the cell.
pub fn best_is_found()
    ensures { BestIsFound }
{
    legal_in_range();
}

/// After an accepted tidy every cell of the team is placed and team-legal.
pub fn tidy_makes_legal()
    ensures { TidyMakesLegal }
{
    legal_in_range();
}

/// After an accepted commit every cell of the team is placed and team-legal.
pub fn commit_finds_legal()
    ensures { CommitFindsLegal }
{
    legal_in_range();
}

/// After an accepted place the cell is team-legal.
pub fn place_makes_legal()
    ensures { PlaceMakesLegal }
{
    legal_in_range();
}

/// After an accepted legalize the cell is team-legal.
pub fn legalize_makes_legal()
    ensures { LegalizeMakesLegal }
{
    legal_in_range();
}

/// After an accepted swap both cells are team-legal.
pub fn swap_makes_legal()
    ensures { SwapMakesLegal }
{
    legal_in_range();
}

/// After any verb a team of the frame is still a team of the frame. A floor guarantees this of each
/// team (`teams_match_frame`).
pub fn verb_keeps_team()
    ensures { VerbKeepsTeam }
{}

/// A law: the outcomes of verbs on a team of three cells, given what the legalizer finds.
pub fn verb_rows()
    ensures { VerbRows }
{}
