//! What each command does to the teams of a floor, and the laws that follow.
//!
//! No code runs here. `specs` defines the outcome of each verb for one team, the answer of a floor
//! to one command (`Step`), and a run of many commands (`Run`). `lf_floor` is proved to follow
//! these definitions. Each function is a law: its contract is a theorem, and its `ensures` names
//! the definition that states it.
//!
//! The state of a team is its:
//!
//! - cells, with their working and committed places
//! - revision
//! - undo entries: the working places before each recorded change
//! - session slots, each free or with the revision that its session has seen
//! - padding
//!
//! A floor is its frame, a state for each team, and the positions of the teams' cells among the
//! COMPONENTS of the DEF text.
//!
//! A command is *refused* if its reply is a refusal. A command with the reply `OutOfMemory` changes
//! nothing and counts as not sent. A *change* is a verb that adds one to the team's revision. A
//! *query* is `bye`, `check`, `def`, `where` or `find`.
//!
//! Used by most other crates.
//!
//! Modules, in reading order:
//!
//! - `verb_laws`: laws on the outcome of one verb for one team
//! - `laws`: laws on whole runs: isolation of teams, journals
//! - `committed_laws`: laws on the committed design
//!
//! From `crates/lf_tests_floor/src/connections.rt`:
//!
//! ```
//! floor.teams_match_frame();
//! serving_runs();
//! run_stays_legal();
//! journal_restores();
//! serve(alloc, floor, source, sink, limits)
//! ```
#![tactic(auto)]

mod committed_laws;
mod laws;
mod verb_laws;

pub use committed_laws::{
    command_keeps_committed, commit_lasts, commit_makes_committed, committed_by_teams,
    legal_commits, legal_makes_teams, loaded_is_committed, loaded_places_are_committed,
    loaded_run_stays_legal, places_begin_as_loaded, places_follow_design, run_commits_make_legal,
    run_keeps_teams, run_stays_legal, run_tidied_commits, step_keeps_committed,
};
pub use laws::{
    journal_restores, other_designs_do_not_matter, others_do_not_matter,
    queries_and_refusals_are_omittable, run_is_isolated, teams_in_any_order,
};
pub use verb_laws::{
    best_is_found, change_counts, commit_finds_legal, legalize_makes_legal, never_out_of_memory,
    only_commit_commits, only_pad_pads, pad_keeps, place_makes_legal, query_keeps_state,
    refusal_keeps_state, refused_tidy_keeps_state, revert_after_commit_keeps, swap_makes_legal,
    tidy_makes_legal, undo_brings_back, verb_keeps_team, verb_rows,
};
