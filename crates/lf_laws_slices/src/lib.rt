//! Laws that a team gets the same replies over a slice of a design, which has its cells alone, as
//! over the whole design, byte for byte.
//!
//! No code runs here. Each function is a law: its contract is a theorem, and its `ensures` names
//! the definition that states it.
//!
//! Two frames are *alike* if they have the same header, core site, rows, fences and limits, and the
//! same obstacles and soft blockages in any order. Their macros may differ. Two designs are alike
//! *for a team* if their frames are alike and the team has the same cells in both. Each cell has
//! the same macro, whatever its number in each frame. So a slice may be read with LEF texts that
//! have more or fewer macros, or in another order. Its FIXED components and blockages may be in
//! another order too.
//!
//! The laws build on each other:
//!
//! 1. On alike frames each rule holds on both or on neither.
//! 2. So a candidate has one verdict, and a cell has one best place for a target.
//! 3. So a command has one reply, and keeps the team's states alike.
//! 4. So does a run of many commands, whatever other teams have and send.
//! 5. A DEF text and its slice for a team load as designs that are alike for it (`lf_frame`).
//! 6. So lines over both get the same replies, byte for byte (`lf_server`).
//!
//! The inputs of a slice have the header, core site, rows, fences, limits, obstacles and soft
//! blockages of the whole design, the last two in any order. Of the movable components they have
//! those of the team, in their order. Each component names the same macro in both. So the slice may
//! have other LEF texts, if these have the macros of that team and of the FIXED components.
//!
//! `other_designs_do_not_matter` of `lf_floor_model` is the same law for designs with one frame.
//!
//! Modules, in reading order:
//!
//! - `laws`: laws on frames, teams, floors and designs that are alike
//! - `text_laws`: laws on slices as they are loaded, and on lines and their replies
#![tactic(auto)]

mod laws;
mod text_laws;

pub use laws::{
    alike_is_symmetric, best_places_are_alike, designs_open_alike, outcomes_are_alike,
    pushes_answer_alike, rules_are_alike, runs_are_alike, slices_answer_alike, slices_exist,
    verdicts_are_alike,
};
pub use text_laws::{cuts_exist, slice_texts_are_alike, slices_load_alike, texts_are_alike};
