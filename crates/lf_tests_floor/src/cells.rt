//! The table of the built-in design's cells. Best places are tested by the rows of lefence_rows.

use crate::designs::{Requested, holds};
use lf_cells::CellTable;
use lf_def::DEMO_DEF;
use lf_frame::{Frame, Loaded, Place, is_sized};
use lf_legalize::best_place;
use lf_orient::Orient;
use lf_rules::Padding;
use lf_units::Point;
use lf_write::team_def;
use std::alloc::Global;
use std::test::Fail;

/// Whether a team that the built-in design does not have has no best place for an inverter.
fn strangers_have_none(frame: &Frame) -> bool {
    let Some(inverter) = frame.macros.as_slice().first() else {
        return false;
    };
    if !is_sized(frame, inverter) {
        return false;
    }
    let target = Point { x: 4000, y: 0 };
    best_place(frame, 3, inverter, &[], &target, Padding::none()).is_none()
}

/// Whether the table of the built-in design's cells has a2 as the second cell of A, and does not
/// find another team's cell in A.
fn finds_cells(table: &CellTable) -> bool {
    let Some(second) = table.find_own(0, b"a2") else {
        return false;
    };
    let Some(facts) = table.cell(second) else {
        return false;
    };
    facts.name == b"a2".as_slice()
        && facts.component == 1
        && table.cells_of(0).len() == 3
        && table.cells_of(0).get(1) == Some(&second)
        && table.cells_of(4).is_empty()
        && table.find_own(0, b"b1").is_none()
}

/// Whether a place is the working one after it is set, and the committed one after its team has
/// committed.
fn keeps_places(table: &mut CellTable) -> bool {
    let Some(second) = table.find_own(0, b"a2") else {
        return false;
    };
    let place = Place::new(400, 0, Orient::N);
    table.set_working(second, Some(place));
    if table.working(second) != Some(place) || table.committed(second).is_some() {
        return false;
    }
    table.commit_team(0);
    table.committed(second) == Some(place)
}

/// Whether the table of the design's cells passes both tests.
fn serves(alloc: Global, design: Loaded) -> Result<bool, Fail> {
    let (_, mut table) = CellTable::build(alloc, design)?;
    Ok(finds_cells(&table) && keeps_places(&mut table))
}

/// The DEF text of A in the built-in design.
const TEXT_OF_A: &[u8] = b"VERSION 5.8 ;
DIVIDERCHAR \"/\" ;
BUSBITCHARS \"[]\" ;
DESIGN w ;
UNITS DISTANCE MICRONS 1000 ;
REGIONS 1 ;
- A ( 0 0 ) ( 4000 4000 ) + TYPE FENCE ;
END REGIONS
COMPONENTS 3 ;
- a1 INV + UNPLACED ;
- a2 INV + UNPLACED ;
- a3 DBL + UNPLACED ;
END COMPONENTS
GROUPS 1 ;
- A a1 a2 a3 + REGION A ;
END GROUPS
END DESIGN
";

/// Whether the complete DEF text of A is written.
fn has_text(alloc: Global, design: Loaded) -> Result<bool, Fail> {
    let (frame, table) = CellTable::build(alloc, design)?;
    let text = team_def(alloc, &frame, &table, 0)?;
    Ok(text.as_slice() == TEXT_OF_A)
}

/// The conditions on the cells of the built-in design.
#[derive(Clone, Copy)]
enum Case {
    Table,
    Strangers,
    Text,
}

impl Requested for Case {
    fn holds(&self, alloc: Global, design: Loaded) -> Result<bool, Fail> {
        match self {
            Case::Table => serves(alloc, design),
            Case::Strangers => Ok(strangers_have_none(&design.frame)),
            Case::Text => has_text(alloc, design),
        }
    }
}

#[test]
fn a_table_of_cells(rt: HostRuntime) -> Result<(), Fail> {
    assert!(rt; holds(rt.alloc(), DEMO_DEF, &Case::Table)?);
    Ok(())
}

#[test]
fn strangers_have_no_best_place(rt: HostRuntime) -> Result<(), Fail> {
    assert!(rt; holds(rt.alloc(), DEMO_DEF, &Case::Strangers)?);
    Ok(())
}

#[test]
fn a_team_has_a_text(rt: HostRuntime) -> Result<(), Fail> {
    assert!(rt; holds(rt.alloc(), DEMO_DEF, &Case::Text)?);
    Ok(())
}
