//! Laws on the committed design.

ghost use Rattle.lf_floor_model.specs.Committed.{CommitMakesCommitted, CommittedByTeams, LegalMakesTeams, LoadedIsCommitted};
ghost use Rattle.lf_floor_model.specs.Committed.{LoadedPlacesAreCommitted, CommandKeepsCommitted};
ghost use Rattle.lf_floor_model.specs.Places.{PlacesBeginAsLoaded, PlacesFollowDesign};
ghost use Rattle.lf_floor_model.specs.CommittedRuns.{CommitLasts, LegalCommits, LoadedRunStaysLegal, RunCommitsMakeLegal};
ghost use Rattle.lf_floor_model.specs.CommittedRuns.{RunKeepsTeams, RunStaysLegal, RunTidiedCommits, StepKeepsCommitted};

use lf_rules::legal_in_range;

/// In a fully legal design the cells of each team are placed and team-legal.
pub fn legal_makes_teams()
    ensures { LegalMakesTeams }
{}

/// The committed design has the cells of all teams at their committed places. It is fully legal if
/// and only if each team's committed places are team-legal.
pub fn committed_by_teams()
    ensures { CommittedByTeams }
{}

/// When a floor begins, its committed design is fully legal if and only if the loaded design is.
pub fn loaded_is_committed()
    ensures { LoadedIsCommitted }
{}

/// When a floor begins, each team's cells are at their places in the DEF text, in loading order.
/// These places are both working and committed.
pub fn loaded_places_are_committed()
    ensures { LoadedPlacesAreCommitted }
{}

/// On a floor with the entries of a loaded design, the list of committed places has the entries of
/// the design's cells. They are in loading order, whatever commands the floor has run.
pub fn places_follow_design()
    ensures { PlacesFollowDesign }
{}

/// When a floor begins, the committed places are the cells' places in the DEF text, in loading
/// order.
pub fn places_begin_as_loaded()
    ensures { PlacesBeginAsLoaded }
{}

/// No command makes a team's legal committed places illegal.
pub fn command_keeps_committed()
    ensures { CommandKeepsCommitted }
{}

/// After an accepted commit the committed places are the working places, and are legal. What was
/// committed earlier does not matter.
pub fn commit_makes_committed()
    ensures { CommitMakesCommitted }
{}

/// A command keeps a fully legal committed design.
pub fn step_keeps_committed()
    ensures { StepKeepsCommitted }
{}

/// After a run each team of the floor is still a team of its frame. The laws on runs require this
/// of the floor at the start.
pub fn run_keeps_teams()
    ensures { RunKeepsTeams }
{}

/// In a run that starts with a fully legal committed design, the committed design is fully legal
/// after each command.
pub fn run_stays_legal()
    ensures { RunStaysLegal }
{}

/// The same holds for each run on a floor that begins with a fully legal loaded design.
pub fn loaded_run_stays_legal()
    ensures { LoadedRunStaysLegal }
{}

/// After an accepted commit of a team in a run, the team's committed places are legal at the end of
/// the run. This holds whatever commands come later, to this team or to others.
pub fn commit_lasts()
    ensures { CommitLasts }
{}

/// If a run has an accepted commit of each team that has a cell, the committed design is fully
/// legal at the end. It does not matter what it was at the start.
pub fn run_commits_make_legal()
    ensures { RunCommitsMakeLegal }
{}

/// A commit of a team whose cells are all placed and team-legal finds no fault in the cells. It is
/// accepted, or refused only for its session or the revision.
pub fn legal_commits()
    ensures { LegalCommits }
{}

/// In each run, a commit after an accepted tidy finds no fault in the cells, if no change of the
/// team was accepted between them. It is accepted, or refused only for its session or the revision.
pub fn run_tidied_commits()
    ensures { RunTidiedCommits }
{
    legal_in_range();
}
