//! The DEF text of a team.

ghost use Rattle.std.specs.Prelude.{◌≡◌, ◌∷◌, [], IfOk, codes, decimal, map, slice_get};
ghost use Rattle.std.specs.List.{flat_map};
ghost use Rattle.lf_cells.specs.Cells.{cells_of};
ghost use Rattle.lf_io.specs.Output.{PutsText};
ghost use Rattle.lf_team_def.specs.Lengths.{IsLengthOf};
ghost use Rattle.lf_team_def.specs.TeamText.{team_component_words, group_lines, header_lines, words_line, region_lines, section_lines, team_text};

use crate::def_entries::{put_components, put_group, put_region};
use crate::outputs::{Kept, Length};
use crate::words::{Word, put_line};
use lf_cells::CellTable;
use lf_floorplan::{Frame, Header};
use lf_io::Output;
use std::alloc::{AllocError, Global};

/// Writes the lines of the header.
fn put_header<O: Output>(out: &mut O, header: &Header)
    ensures { PutsText O.took out.old out.new (flat_map words_line (header_lines header.now)) }
{
    put_statement(out, b"VERSION", header.version.as_bytes());
    put_statement(out, b"DIVIDERCHAR", header.divider.as_bytes());
    put_statement(out, b"BUSBITCHARS", header.brackets.as_bytes());
    put_statement(out, b"DESIGN", header.design.as_bytes());
    put_line(
        out,
        b"UNITS",
        &[
            Word::Text(b"DISTANCE"),
            Word::Text(b"MICRONS"),
            Word::Count(header.units as usize),
            Word::Text(b";"),
        ],
    );
}

/// Writes the line of a statement of one word.
fn put_statement<O: Output>(out: &mut O, keyword: &[u8], word: &[u8])
    ensures { PutsText O.took out.old out.new (words_line (keyword.now ∷ word.now ∷ codes ";" ∷ [])) }
{
    put_line(out, keyword, &[Word::Text(word), Word::Text(b";")]);
}

/// Writes the line that begins a section with this number of entries.
fn put_begin<O: Output>(out: &mut O, keyword: &[u8], count: usize)
    ensures { PutsText O.took out.old out.new (words_line (keyword.now ∷ decimal count ∷ codes ";" ∷ [])) }
{
    put_line(out, keyword, &[Word::Count(count), Word::Text(b";")]);
}

/// Writes the line that ends a section, or the text.
fn put_end<O: Output>(out: &mut O, keyword: &[u8])
    ensures { PutsText O.took out.old out.new (words_line (codes "END" ∷ keyword.now ∷ [])) }
{
    put_line(out, b"END", &[Word::Text(keyword)]);
}

/// Writes the REGIONS section of the team with this number.
fn put_regions<O: Output>(out: &mut O, frame: &Frame, team: usize)
    ensures { PutsText O.took out.old out.new (flat_map words_line (region_lines (slice_get frame.now.teams team))) }
{
    let Some(fence) = frame.teams.as_slice().get(team) else {
        return;
    };
    put_begin(out, b"REGIONS", 1);
    put_region(out, fence);
    put_end(out, b"REGIONS");
}

/// Writes the COMPONENTS section of the team with this number.
fn put_cells<O: Output>(out: &mut O, frame: &Frame, cells: &CellTable, team: usize)
    ensures { PutsText O.took out.old out.new (flat_map words_line
        (section_lines (codes "COMPONENTS") (map (team_component_words frame.now) (cells_of cells.now team)))) }
{
    put_begin(out, b"COMPONENTS", cells.cells_of(team).len());
    put_components(out, frame, cells, team);
    put_end(out, b"COMPONENTS");
}

/// Writes the GROUPS section of the team with this number.
fn put_groups<O: Output>(out: &mut O, frame: &Frame, cells: &CellTable, team: usize)
    ensures { PutsText O.took out.old out.new
        (flat_map words_line (group_lines (slice_get frame.now.teams team) (cells_of cells.now team))) }
{
    match frame.teams.as_slice().get(team) {
        None => {}
        Some(fence) => {
            if cells.cells_of(team).is_empty() {
                return;
            }
            put_begin(out, b"GROUPS", 1);
            put_group(out, fence, cells, team);
            put_end(out, b"GROUPS");
        }
    }
}

/// Writes the DEF text of the team with this number (LEF/DEF 5.8, DEF REGIONS, COMPONENTS and
/// GROUPS). It has the header, the team's fence, its cells at their working places in loading
/// order, and the group that binds them to the fence. Allocates nothing.
///
/// The ground team has no REGIONS and no GROUPS section. A team without cells has no GROUPS
/// section.
pub fn write_team_def<O: Output>(out: &mut O, frame: &Frame, cells: &CellTable, team: usize)
    ensures { PutsText O.took out.old out.new (team_text frame.now team (cells_of cells.now team)) }
{
    put_header(out, &frame.header);
    put_regions(out, frame, team);
    put_cells(out, frame, cells, team);
    put_groups(out, frame, cells, team);
    put_end(out, b"DESIGN");
}

/// Returns the number of bytes of the text that `write_team_def` writes for the team with this
/// number. `None` if and only if it is 2^64 or more.
pub fn team_def_length(frame: &Frame, cells: &CellTable, team: usize) -> Option<usize>
    ensures { IsLengthOf (team_text frame.now team (cells_of cells.now team)) result }
{
    let mut length = Length::zero();
    write_team_def(&mut length, frame, cells, team);
    length.count
}

/// Returns the text that `write_team_def` writes for the team with this number, in memory for
/// exactly its bytes.
///
/// `Err` if an allocation fails.
pub fn team_def(
    alloc: Global,
    frame: &Frame,
    cells: &CellTable,
    team: usize,
) -> Result<Vec<u8>, AllocError>
    ensures { IfOk result (λ text. text.items ≡ team_text frame.now team (cells_of cells.now team)) }
{
    let Some(length) = team_def_length(frame, cells, team) else {
        return Err(AllocError);
    };
    let mut kept = Kept::with_capacity(alloc, length)?;
    write_team_def(&mut kept, frame, cells, team);
    kept.finish()
}
