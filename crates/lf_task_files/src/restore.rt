//! Restores a floor to the state of a file, before work on it begins.

ghost use Rattle.std.specs.Prelude.{◌≡◌, ◌⊎◌, ◌+◌, IfErr, IfOk, List, Ok, ℕ, length};
ghost use Rattle.lf_state_text.specs.Pieces.{text_of_chunks};
ghost use Rattle.lf_state_text.specs.Refused.{HasEnd};
ghost use Rattle.lf_floor_model.specs.Designs.{initial_floor};
ghost use Rattle.lf_floor.specs.Saved.{MatchDesign, ShareDesign, design_names};
ghost use Rattle.lf_state_text.specs.Reading.{saved_state_of};
ghost use Rattle.lf_state_text.specs.Saved.{team_views};
ghost use Rattle.lf_task_faults.specs.declared.faults.Fault.TheVariants.{SetupOutOfMemory};
ghost use Rattle.lf_task_faults.specs.declared.faults.TextKind.TheVariants.{State};
ghost use Rattle.lf_task_files.specs.States.{FileHasState, IsFileState, IsStateFileFault, IsStateRefused, IsStateTextFault};

use lf_floor::Floor;
use lf_floorplan::Loaded;
use lf_legalize::IndexSeeker;
use lf_state_text::{ChunkError, SavedTeamRow, StateRefused};
use lf_task_designs::{InputFiles, read_file_chunks};
use lf_task_faults::{Fault, StateRefusal, TextFile, TextKind};
use std::alloc::{AllocError, Global};
use std::collections::VecDeque;

/// Makes the description of a state file.
pub fn state_file(path: &str) -> TextFile<'_>
    ensures kind { result.kind ≡ State }
    ensures path { result.path.now ≡ path.now }
{
    TextFile {
        kind: TextKind::State,
        path,
    }
}

/// Makes the fault of the refused text of the file of this path. If memory for its details runs
/// out, the fault is a failed allocation.
fn refused_state<'a>(alloc: Global, path: &'a str, refused: &StateRefused) -> Fault<'a>
    ensures { (text : List ℕ) → HasEnd text refused.now → IsStateRefused path.now text refused.now.fault result }
{
    match StateRefusal::new(alloc, refused) {
        Ok(refusal) => Fault::RefusedState(path, refusal),
        Err(_) => Fault::SetupOutOfMemory,
    }
}

/// Parses the state text of the file of this path, given in chunks, for the design of the floor.
fn read_rows<'a>(
    alloc: Global,
    floor: &Floor<IndexSeeker>,
    path: &'a str,
    pieces: VecDeque<Vec<u8>>,
) -> Result<Vec<SavedTeamRow>, Fault<'a>>
    ensures ok { IfOk result
        (λ rows. saved_state_of (design_names floor.now) (text_of_chunks pieces.items) ≡ Ok (team_views rows.items)) }
    ensures due { IfOk result (λ rows. MatchDesign floor.now.frame.limits floor.now.teams (team_views rows.items)) }
    ensures err { IfErr result (IsStateTextFault floor.now path.now (text_of_chunks pieces.items)) }
{
    match floor.read_state_chunks(pieces) {
        Ok(rows) => Ok(rows),
        Err(ChunkError::Memory) => Err(Fault::SetupOutOfMemory),
        Err(ChunkError::Refused(refused)) => Err(refused_state(alloc, path, &refused)),
    }
}

/// Reads and parses the state file of this path, for the design of the floor. Each chunk of its text
/// is dropped as soon as it has been read.
///
/// `Err` if the file cannot be read, or its text has no state of the design; or if an allocation
/// fails.
pub fn rows_of_file<'a, T: InputFiles>(
    alloc: Global,
    texts: &T,
    floor: &Floor<IndexSeeker>,
    path: &'a str,
) -> Result<Vec<SavedTeamRow>, Fault<'a>>
    ensures ok { IfOk result (λ rows. FileHasState (T.gives texts.now) path.now floor.now (team_views rows.items)) }
    ensures due { IfOk result (λ rows. MatchDesign floor.now.frame.limits floor.now.teams (team_views rows.items)) }
    ensures err { IfErr result (IsStateFileFault (T.gives texts.now) path.now floor.now) }
{
    let pieces = read_file_chunks(alloc, texts, state_file(path))?;
    read_rows(alloc, floor, path, pieces)
}

/// Returns the floor in the state of the file of this path. The text is dropped before the state is
/// built.
fn restore_file<'a, T: InputFiles>(
    alloc: Global,
    texts: &T,
    floor: Floor<IndexSeeker>,
    path: &'a str,
) -> Result<Floor<IndexSeeker>, Fault<'a>>
    ensures ok { IfOk result (IsFileState (T.gives texts.now) path.now floor) }
    ensures design { IfOk result (ShareDesign floor) }
    ensures err { IfErr result (IsStateFileFault (T.gives texts.now) path.now floor) }
{
    let rows = rows_of_file(alloc, texts, &floor, path)?;
    match floor.restore_saved(rows) {
        Ok(restored) => Ok(restored),
        Err(_) => Err(Fault::SetupOutOfMemory),
    }
}

/// Makes the floor of the design with no cell placed, with an index of its rows for the search for
/// best places. `Err` if an allocation fails.
pub fn start_unplaced(alloc: Global, loaded: Loaded) -> Result<Floor<IndexSeeker>, AllocError>
    ensures { IfOk result (ShareDesign (initial_floor loaded)) }
{
    let seeker = IndexSeeker::build(alloc, &loaded.frame)?;
    Floor::start_unplaced(alloc, loaded, seeker)
}

/// Makes the floor of the design in the state of the file of this path. It begins with no cell
/// placed, because the state's places differ from those of the DEF text.
pub(crate) fn floor_in_state<'a, T: InputFiles>(
    alloc: Global,
    texts: &T,
    design: Loaded,
    path: &'a str,
) -> Result<Floor<IndexSeeker>, Fault<'a>>
    ensures ok { IfOk result (IsFileState (T.gives texts.now) path.now (initial_floor design)) }
    ensures many { IfOk result (λ floor. length floor.teams ≡ length design.frame.teams + 1) }
    ensures err { IfErr result (λ fault. (fault ≡ SetupOutOfMemory)
        ⊎ IsStateFileFault (T.gives texts.now) path.now (initial_floor design) fault) }
{
    let floor = start_unplaced(alloc, design)?;
    restore_file(alloc, texts, floor, path)
}
