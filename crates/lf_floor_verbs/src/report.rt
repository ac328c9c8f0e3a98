//! The report of a team's cells.

ghost use Rattle.std.specs.Prelude.{◌≡◌, ◌++◌, [], All, IfOk, OnOk, false, map, true};
ghost use Rattle.lf_floorplan.specs.Bounds.{IsDesignName};
ghost use Rattle.lf_rules.specs.Legalizer.{Legalizer};
ghost use Rattle.lf_cells.specs.Cells.{cells_of};
ghost use Rattle.lf_reports.specs.Reports.{report_of, violations_in};
ghost use Rattle.lf_proto.specs.ReportText.{report_text, violations_text};
ghost use Rattle.lf_floor_model.specs.Teams.{IsTeamOf, listed_of, team_rules};
ghost use Rattle.lf_floor_verbs.specs.Marking.{AreMarked};
ghost use Rattle.lf_floor_verbs.specs.Reporting.{names_of};
ghost use Rattle.lf_floor_verbs.specs.Tables.{table_cells, frame_of, team_in};

use crate::cell_queries::unplaced_in;
use crate::context::TeamContext;
use crate::tables::Tables;
use crate::team_legality::{broken_unmarked, legal_marks};
use lf_cells::CellTable;
use lf_placement::Placement;
use lf_proto::{Names, Text, put_verdict, report_begun, report_closed};
use lf_rules::Padding;
use std::alloc::{AllocError, Global};

/// The names of a team's cells.
#[derive(Clone, Copy)]
struct TeamNames<'a> {
    cells: &'a CellTable,
    team: usize,
}

impl<'a> Names for TeamNames<'a> {
    ghost names = { λ s. names_of (cells_of s.cells.now s.team) };

    fn name(&self, own: usize) -> Option<&[u8]> {
        let id = self.cells.cell_of(self.team, own)?;
        Some(self.cells.cell(id)?.name)
    }
}

/// Appends the violations of the team's cells to the text, in loading order, one at a time.
///
/// `Err` if an allocation fails.
fn put_cells(
    alloc: Global,
    placement: &Placement,
    number: usize,
    marks: &[bool],
    padding: Padding,
    text: &mut Vec<u8>,
) -> Result<(), AllocError>
    requires marked { AreMarked placement.now.frame number padding.sites
        (cells_of placement.now.cells number) marks.now }
    requires printed { All (λ c. IsDesignName c.name) (cells_of placement.now.cells number) }
    ensures { (l : Legalizer) → OnOk result (text.new.items ++ violations_text true []
        ≡ text.old.items ++ violations_text false (violations_in l placement.now.frame padding.sites
        (map (listed_of number) (cells_of placement.now.cells number)))) }
{
    let names = TeamNames {
        cells: placement.cells(),
        team: number,
    };
    let mut later = false;
    for id in placement.cells().cells_of(number) {
        let verdict = broken_unmarked(placement, marks, *id, padding);
        later = put_verdict(alloc, &names, id.own as usize, verdict, text, later)?;
    }
    Ok(())
}

/// Returns the text of the report of the team's cells at their working places.
///
/// `Err` if an allocation fails.
pub(crate) fn report_text<S>(
    context: &TeamContext<'_, S>,
    tables: &Tables,
) -> Result<Text, AllocError>
    requires team { IsTeamOf (frame_of tables.now) (team_in context.now tables.now) }
    ensures { IfOk result (λ text. (l : Legalizer) → text ≡ report_text
        (report_of l (frame_of tables.now) context.now.padding.sites
        (map (listed_of context.now.number) (table_cells context.now.number tables.now)))) }
{
    let marks = legal_marks(context, tables)?;
    let cells = tables.placement.cells();
    let count = cells.cells_of(context.number).len();
    let mut text = report_begun(context.alloc, count, unplaced_in(cells, context.number))?;
    put_cells(
        context.alloc,
        &tables.placement,
        context.number,
        &marks,
        context.padding,
        &mut text,
    )?;
    report_closed(text)
}
