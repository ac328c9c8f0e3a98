//! The teams of a design on one floor: a step for each command, runs of many, saving and restoring.
//!
//! A `Floor` is made from a loaded design. Each of its teams has its own cells, revision, undo
//! entries, session slots and padding. A team's replies do not depend on other teams. `step` runs
//! one command, `respond` does so without making a DEF text, and `run` runs a list of commands. The
//! laws of `lf_floor_model` are exported here too, and `lf_proto` as `proto`.
//!
//! Contracts see of a `Floor` its frame, the state of each team, and the positions of its cells'
//! entries among all COMPONENTS of the DEF text. They do not see how best places are searched for.
//! The *committed design* has the cells of all teams at their committed places. Once it is fully
//! legal, it stays so after every command.
//!
//! `restore` brings a floor into the state of a state text. For large texts, `start_unplaced` makes
//! a floor without placed cells, `read_state_chunks` reads the rows from the text in chunks, and
//! `restore_saved` restores them. Places are restored without the rules: `place_teams` sets the
//! places of the cells of all teams, builds the strips once, and empties the lists of saved cells.
//! `restore_entries` reverts the entries of a team on a list of its places, the newest first, and
//! reserves room for the places before each entry. The entries are then the team's undo stack.
//!
//! The laws on saved floors connect this with state texts. A state text of a floor (`IsStateText`)
//! restores that floor from any floor of its design (`restored`). With the journal written after
//! it, the text is a backup.
//!
//! Used by most other crates.
//!
//! Modules, in reading order:
//!
//! - `restored_cells`: the cells of all teams are placed
//! - `restored_entries`: the undo entries of a team are restored
//! - `restoring_laws`: laws on saved floors
//! - `floor`: the floor, its steps and runs
//! - `cell_places`: the committed or the working places of all cells
//! - `queries`: queries of teams by their numbers
//! - `response`: replies whose DEF text is written separately
//! - `state_view`: the names and saved values of a floor, as the writer of state texts reads them
//! - `snapshot`: the state of a floor for `--save`: it borrows the floor and writes its text
//! - `start_unplaced`: the floor of a design without placed cells
//! - `restore`: floors restored from state texts
//!
//! From `crates/lf_tests_floor/src/floors.rt`:
//!
//! ```
//! let replies = floor.run(&requests(alloc)?)?;
//! text_of(alloc, &replies)
//! ```
#![tactic(auto)]

/// Requests and replies, the arguments and results of the floor's methods.
pub use lf_proto as proto;

mod cell_places;
mod floor;
mod queries;
mod response;
mod restore;
mod restored_cells;
mod restored_entries;
mod restoring_laws;
mod snapshot;
mod start_unplaced;
mod state_view;

pub use cell_places::CellPlaces;
pub use floor::Floor;
pub use lf_floor_model::{
    best_is_found, change_counts, command_keeps_committed, commit_finds_legal, commit_lasts,
    commit_makes_committed, committed_by_teams, journal_restores, legal_commits, legal_makes_teams,
    legalize_makes_legal, loaded_is_committed, loaded_places_are_committed, loaded_run_stays_legal,
    never_out_of_memory, only_commit_commits, only_pad_pads, other_designs_do_not_matter,
    others_do_not_matter, pad_keeps, place_makes_legal, places_begin_as_loaded,
    places_follow_design, queries_and_refusals_are_omittable, query_keeps_state,
    refusal_keeps_state, refused_tidy_keeps_state, revert_after_commit_keeps,
    run_commits_make_legal, run_is_isolated, run_keeps_teams, run_stays_legal, run_tidied_commits,
    step_keeps_committed, swap_makes_legal, teams_in_any_order, tidy_makes_legal, undo_brings_back,
    verb_keeps_team, verb_rows,
};
pub use response::Response;
pub use restoring_laws::{
    restored_is_committed, runs_keep_design, saved_restores, state_and_journal_restore,
};
pub use snapshot::StateSnapshot;
pub use state_view::team_name;
