//! The entries of a team's sections: its fence, its cells and its group.

ghost use Rattle.std.specs.Prelude.{◌≡◌, map};
ghost use Rattle.std.specs.List.{flat_map};
ghost use Rattle.lf_floorplan.specs.Boxes.{macro_of};
ghost use Rattle.lf_lex.specs.Splices.{spaced};
ghost use Rattle.lf_cells.specs.Cells.{cell_at, cells_of};
ghost use Rattle.lf_team_def.specs.Entries.{component_line, placed_words, spaced_name};
ghost use Rattle.lf_io.specs.Output.{PutsText};
ghost use Rattle.lf_team_def.specs.TeamText.{team_component_words, team_group_words, words_line, team_rect_words, team_region_words};

use crate::words::{Word, put_line, put_spaced};
use lf_cells::{CellId, CellTable};
use lf_floorplan::{Frame, Place, Team};
use lf_io::Output;
use lf_orient::orient_word;
use lf_units::Rect;

/// Writes the points of a rectangle: its lower left corner, then its upper right one.
fn put_rect<O: Output>(out: &mut O, rect: &Rect)
    ensures { PutsText O.took out.old out.new (spaced (team_rect_words rect.now)) }
{
    put_spaced(
        out,
        &[
            Word::Text(b"("),
            Word::Length(rect.x1),
            Word::Length(rect.y1),
            Word::Text(b")"),
            Word::Text(b"("),
            Word::Length(rect.x2),
            Word::Length(rect.y2),
            Word::Text(b")"),
        ],
    );
}

/// Writes the points of the rectangles.
fn put_rects<O: Output>(out: &mut O, rects: &[Rect])
    ensures { PutsText O.took out.old out.new (spaced (flat_map team_rect_words rects.now)) }
{
    for rect in rects {
        put_rect(out, rect);
    }
}

/// Writes the line of a fence.
pub(crate) fn put_region<O: Output>(out: &mut O, fence: &Team)
    ensures { PutsText O.took out.old out.new (words_line (team_region_words fence.now)) }
{
    out.put(b"-");
    put_spaced(out, &[Word::Text(fence.name.as_bytes())]);
    put_rects(out, fence.rects.as_slice());
    put_spaced(
        out,
        &[
            Word::Text(b"+"),
            Word::Text(b"TYPE"),
            Word::Text(b"FENCE"),
            Word::Text(b";"),
        ],
    );
    out.put(b"\n");
}

/// Returns the name of the macro with this number. Empty if the frame has no such macro.
fn macro_name(frame: &Frame, number: usize) -> &[u8]
    ensures { result.now ≡ (macro_of frame.now number).name }
{
    match frame.macros.as_slice().get(number) {
        Some(found) => found.name.as_bytes(),
        None => b"",
    }
}

/// Writes the line of a component with this name, macro and place.
fn put_component_at<'x, O: Output>(
    out: &mut O,
    name: &'x [u8],
    macro_name: &'x [u8],
    place: Option<Place>,
)
    ensures { PutsText O.took out.old out.new (words_line (placed_words name.now macro_name.now place)) }
{
    match place {
        None => put_line(
            out,
            b"-",
            &[
                Word::Text(name),
                Word::Text(macro_name),
                Word::Text(b"+"),
                Word::Text(b"UNPLACED"),
                Word::Text(b";"),
            ],
        ),
        Some(place) => put_line(
            out,
            b"-",
            &[
                Word::Text(name),
                Word::Text(macro_name),
                Word::Text(b"+"),
                Word::Text(b"PLACED"),
                Word::Text(b"("),
                Word::Length(i64::from(place.x)),
                Word::Length(i64::from(place.y)),
                Word::Text(b")"),
                Word::Text(orient_word(place.orient)),
                Word::Text(b";"),
            ],
        ),
    }
}

/// Writes the line of the cell's component, at its working place.
fn put_component<O: Output>(out: &mut O, frame: &Frame, cells: &CellTable, id: CellId)
    ensures { PutsText O.took out.old out.new (component_line frame.now (cell_at cells.now id)) }
{
    match cells.cell(id) {
        Some(facts) => put_component_at(
            out,
            facts.name,
            macro_name(frame, facts.mac),
            cells.working(id),
        ),
        None => {}
    }
}

/// Writes the lines of the components of the team's cells, in loading order.
pub(crate) fn put_components<O: Output>(out: &mut O, frame: &Frame, cells: &CellTable, team: usize)
    ensures { PutsText O.took out.old out.new
        (flat_map words_line (map (team_component_words frame.now) (cells_of cells.now team))) }
{
    for id in cells.cells_of(team) {
        put_component(out, frame, cells, *id);
    }
}

/// Writes a space and the cell's name.
fn put_name<O: Output>(out: &mut O, cells: &CellTable, id: CellId)
    ensures { PutsText O.took out.old out.new (spaced_name (cell_at cells.now id)) }
{
    match cells.cell(id) {
        Some(facts) => put_spaced(out, &[Word::Text(facts.name)]),
        None => {}
    }
}

/// Writes the names of the team's cells, in loading order, with a space in front of each.
fn put_names<O: Output>(out: &mut O, cells: &CellTable, team: usize)
    ensures { PutsText O.took out.old out.new (spaced (map (λ c. c.name) (cells_of cells.now team))) }
{
    for id in cells.cells_of(team) {
        put_name(out, cells, *id);
    }
}

/// Writes the line of the group that binds the team's cells to the fence.
pub(crate) fn put_group<O: Output>(out: &mut O, fence: &Team, cells: &CellTable, team: usize)
    ensures { PutsText O.took out.old out.new (words_line (team_group_words fence.now (cells_of cells.now team))) }
{
    out.put(b"-");
    put_spaced(out, &[Word::Text(fence.name.as_bytes())]);
    put_names(out, cells, team);
    put_spaced(
        out,
        &[
            Word::Text(b"+"),
            Word::Text(b"REGION"),
            Word::Text(fence.name.as_bytes()),
            Word::Text(b";"),
        ],
    );
    out.put(b"\n");
}
