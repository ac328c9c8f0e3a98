//! Loading a design: the frame, which every team sees and no command changes, and the movable
//! cells.
//!
//! A design is accepted if and only if no refusal finds anything. The frame is then that of the
//! texts. The cells are the movable components in the order of the DEF text. The team of a cell is
//! the one whose groups claim it, or the ground team.
//!
//! A group whose region is a fence binds its patterns to this fence. A fence *claims* each
//! component whose name matches one of its patterns (LEF/DEF 5.8, DEF GROUPS, REGIONS). A component
//! is *movable* if it is neither FIXED nor COVER. Fences are numbered in the order of the text. The
//! team of a component that no fence claims is the ground team, whose number is the number of
//! fences. A contract sees of a `ClaimTable` the first component with the name of an earlier one.
//! If all names differ, it also sees the claim on each component: by no fence, by one, or by two
//! different ones.
//!
//! A refusal is one of the faults 7 to 23 of `lf_lex`: NoUnits to TooMany. A refusal *finds* the
//! name of the first entry of the DEF text that is at fault, or nothing. The *core site* is the
//! site of the first row whose site has CLASS CORE and a SIZE with both lengths above 0. Rows of
//! other sites are ignored, except in NoSite.
//!
//! Most public items of `lf_floorplan` can be named from here too.
//!
//! Used by `lf_laws_roundtrip`, `lf_laws_slices`, `lf_task_faults`, `lf_task_designs`,
//! `lf_task_files`, `lf_task_serve` and `lf_app`.
//!
//! Modules, in reading order:
//!
//! - `claim`: the claim on a name: by no fence, by one, or by two
//! - `claims`: the claims on each name of a list, in few bytes
//! - `name_end`: the two ends of names, and the bytes of a pattern there
//! - `star_patterns`: patterns with a star, found by the bytes at one end
//! - `name_map`: maps from names
//! - `pattern_index`: the patterns of groups, bound to the fences of the groups
//! - `component_names`: the names of components
//! - `component_claims`: the table of claims of all components
//! - `macro_numbers`: the macro of each component
//! - `sweep`: a sweep that finds whether pieces of two entries share a point
//! - `row_checks`: the refusals for rows
//! - `pitch`: the core site and its size
//! - `fence_checks`: the refusals for regions and groups
//! - `component_checks`: the refusals for components
//! - `findings`: what each refusal finds
//! - `all_checks`: the refusal of the least number that finds an entry
//! - `conflicts`: the fences with which a refused fence or component conflicts
//! - `convert`: what a frame copies from the library and the document
//! - `cells`: the movable cells of an accepted design
//! - `loading`: a design from a library and a document
//! - `laws`: a law on loading
//!
//! From `crates/lefence_bench/src/main.rt`:
//!
//! ```
//! match load(alloc, library, document, Limits::standard()) {
//!     Ok(design) => Ok(counts_of(&design)),
//!     Err(fault) => Err(fault),
//! }
//! ```
#![tactic(auto)]

mod all_checks;
mod cells;
mod claim;
mod claims;
mod component_checks;
mod component_claims;
mod component_names;
mod conflicts;
mod convert;
mod fence_checks;
mod findings;
mod laws;
mod loading;
mod macro_numbers;
mod name_end;
mod name_map;
mod pattern_index;
mod pitch;
mod row_checks;
mod star_patterns;
mod sweep;

pub use component_claims::ClaimTable;
pub use conflicts::{FenceConflict, conflicting_fences};
pub use laws::positions_play_no_part;
pub use lf_floorplan::{
    CellParts, CellRef, Frame, Header, Limits, Loaded, LoadedCell, LoadedCells, Macro, PackedPlace,
    Place, Row, Site, Team, UnnamedCell, bottom_row_is_unique, cell_is_sized, is_sized, mac_at,
    obstacles_are_bounded, point_has_one_team, teams_stay_apart, turning_twice_is_identity,
};
pub use loading::load;
pub use macro_numbers::MacroTable;
pub use pitch::Pitch;
