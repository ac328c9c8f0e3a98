//! Repairs of team A of the built-in design, with its cells at other places.

use crate::writers::Room;
use lf_def::DEMO_DEF;
use lf_floor::Floor;
use lf_frame::{Limits, Place};
use lf_io::ToWrite;
use lf_legalize::PlainSeeker;
use lf_orient::Orient;
use lf_proto::{Command, Refusal, TeamCommand};
use lf_repair_team::{
    MovePolicy, RepairFault, RepairSearch, RepairStats, is_team_legal, repair_team,
};
use lf_tests_support::{design_of, with_line};
use std::alloc::{AllocError, Global};
use std::test::Fail;

/// The lines of the three cells of A.
type Cells = [&'static [u8]; 3];

/// All at legal places.
const LEGAL: Cells = [
    b"- a1 INV + PLACED ( 0 0 ) N ;",
    b"- a2 INV + PLACED ( 400 0 ) N ;",
    b"- a3 DBL + PLACED ( 2000 0 ) N ;",
];

/// a2 is one site right of a1, and overlaps it.
const OVERLAPPING: Cells = [
    b"- a1 INV + PLACED ( 0 0 ) N ;",
    b"- a2 INV + PLACED ( 200 0 ) N ;",
    b"- a3 DBL + PLACED ( 2000 0 ) N ;",
];

/// a1 has an orientation that its row does not allow.
const TURNED: Cells = [
    b"- a1 INV + PLACED ( 0 2000 ) N ;",
    b"- a2 INV + PLACED ( 400 0 ) N ;",
    b"- a3 DBL + PLACED ( 2000 0 ) N ;",
];

/// All without a place.
const UNPLACED: Cells = [
    b"- a1 INV ;",
    b"- a2 INV + UNPLACED ;",
    b"- a3 DBL + WEIGHT 3 ;",
];

/// The built-in DEF text with these lines.
fn def_of(alloc: Global, cells: &Cells) -> Result<Vec<u8>, AllocError> {
    let first = with_line(alloc, DEMO_DEF, 15, cells[0])?;
    let second = with_line(alloc, first.as_slice(), 16, cells[1])?;
    with_line(alloc, second.as_slice(), 17, cells[2])
}

/// The built-in DEF text with these lines, and with room in the fence of A for only one INV, at (0
/// 0).
fn narrow_def_of(alloc: Global, cells: &Cells) -> Result<Vec<u8>, AllocError> {
    let def = def_of(alloc, cells)?;
    let fence = b"- A ( 0 0 ) ( 400 2000 ) + TYPE FENCE ;";
    with_line(alloc, def.as_slice(), 11, fence)
}

/// The built-in DEF text with these lines, and with a soft blockage.
fn soft_def_of(alloc: Global, cells: &Cells, soft: &[u8]) -> Result<Vec<u8>, AllocError> {
    let def = def_of(alloc, cells)?;
    with_line(alloc, def.as_slice(), 22, soft)
}

/// A condition on a floor.
trait Requested {
    /// Whether the condition holds.
    fn holds(&self, alloc: Global, floor: &mut Floor<PlainSeeker>) -> bool;
}

/// The floor of a DEF text, on which each team can have one session.
fn floor_of(alloc: Global, def: &[u8]) -> Result<Floor<PlainSeeker>, Fail> {
    let Some(limits) = Limits::checked(65_535, 1_024, 4_000_000, 1, 64, 4_000_000_000) else {
        return Err(Fail::from("limits"));
    };
    let design = design_of(alloc, def, limits)?;
    Ok(Floor::start(alloc, design, PlainSeeker)?)
}

/// Whether the condition holds for the floor of a DEF text.
fn holds<A: Requested>(alloc: Global, def: &[u8], requested: &A) -> Result<bool, Fail> {
    match floor_of(alloc, def) {
        Ok(mut floor) => Ok(requested.holds(alloc, &mut floor)),
        Err(fail) => Err(fail),
    }
}

/// The result of a repair, and its lines.
#[derive(Drop)]
struct Reported {
    repaired: Result<RepairStats, RepairFault>,
    lines: Vec<u8>,
}

/// Repairs A, and writes its lines to the writer.
fn repair_to(
    alloc: Global,
    floor: &mut Floor<PlainSeeker>,
    policy: MovePolicy,
    writer: &mut Room,
) -> Result<RepairStats, RepairFault> {
    let search = RepairSearch {
        tries: 0,
        reach: None,
        balances_heights: false,
        targets: &[],
    };
    let mut lines = ToWrite::new(writer);
    repair_team(alloc, floor, b"A", policy, &search, &[], &mut lines)
}

/// Repairs A with a writer that takes at most `left` bytes of its lines.
fn repair_within(
    alloc: Global,
    floor: &mut Floor<PlainSeeker>,
    policy: MovePolicy,
    left: usize,
) -> Reported {
    let mut writer = Room {
        taken: Vec::new(alloc),
        left,
    };
    let repaired = repair_to(alloc, floor, policy, &mut writer);
    Reported {
        repaired,
        lines: writer.taken,
    }
}

/// Whether a repair stopped with this fault and these lines.
fn is_fault(reported: &Reported, fault: RepairFault, lines: &[u8]) -> bool {
    match &reported.repaired {
        Ok(_) => false,
        Err(it) => *it == fault && reported.lines.as_slice() == lines,
    }
}

/// The expected result of a repair. `counts`: how many cells broke a rule or had no place, and how
/// many were kept, moved, placed and turned. `ways`: the total displacement and the longest.
/// `changed` and `left`: the positions of the changed and of the unrepaired cells.
#[derive(Clone, Copy)]
struct Comes {
    policy: MovePolicy,
    counts: [u32; 5],
    ways: (u64, u64),
    changed: &'static [u32],
    left: &'static [u32],
}

/// Whether the result is the expected one.
fn is_printed(repaired: &RepairStats, comes: &Comes) -> bool {
    let counts = [
        repaired.cells,
        repaired.kept,
        repaired.moved,
        repaired.placed,
        repaired.turned,
    ];
    counts == comes.counts
        && (repaired.total_displacement, repaired.max_displacement) == comes.ways
        && repaired.changed.as_slice() == comes.changed
        && repaired.unrepaired.as_slice() == comes.left
}

impl Requested for Comes {
    fn holds(&self, alloc: Global, floor: &mut Floor<PlainSeeker>) -> bool {
        let reported = repair_within(alloc, floor, self.policy, usize::MAX);
        match &reported.repaired {
            Ok(repaired) => {
                is_printed(repaired, self) && is_team_legal(floor, b"A") == self.left.is_empty()
            }
            Err(_) => false,
        }
    }
}

#[test]
fn cells_without_a_place_get_one(rt: HostRuntime) -> Result<(), Fail> {
    let def = def_of(rt.alloc(), &UNPLACED)?;
    for policy in [MovePolicy::KeepLegal, MovePolicy::MoveAll] {
        let comes = Comes {
            policy,
            counts: [3, 0, 0, 3, 0],
            ways: (0, 0),
            changed: &[0, 1, 2],
            left: &[],
        };
        assert!(rt; holds(rt.alloc(), &def, &comes)?);
    }
    Ok(())
}

#[test]
fn a_cell_that_overlaps_moves_beside_the_other(rt: HostRuntime) -> Result<(), Fail> {
    let def = def_of(rt.alloc(), &OVERLAPPING)?;
    for policy in [MovePolicy::KeepLegal, MovePolicy::MoveAll] {
        let comes = Comes {
            policy,
            counts: [2, 1, 1, 0, 0],
            ways: (200, 200),
            changed: &[1],
            left: &[],
        };
        assert!(rt; holds(rt.alloc(), &def, &comes)?);
    }
    Ok(())
}

#[test]
fn a_cell_that_faces_wrongly_turns(rt: HostRuntime) -> Result<(), Fail> {
    let def = def_of(rt.alloc(), &TURNED)?;
    let comes = Comes {
        policy: MovePolicy::KeepLegal,
        counts: [1, 2, 0, 0, 1],
        ways: (0, 0),
        changed: &[0],
        left: &[],
    };
    assert!(rt; holds(rt.alloc(), &def, &comes)?);
    Ok(())
}

#[test]
fn cells_without_room_are_left(rt: HostRuntime) -> Result<(), Fail> {
    let def = narrow_def_of(rt.alloc(), &LEGAL)?;
    let comes = Comes {
        policy: MovePolicy::KeepLegal,
        counts: [2, 1, 0, 0, 0],
        ways: (0, 0),
        changed: &[1, 2],
        left: &[1, 2],
    };
    assert!(rt; holds(rt.alloc(), &def, &comes)?);
    Ok(())
}

#[test]
fn legal_cells_stay(rt: HostRuntime) -> Result<(), Fail> {
    let def = def_of(rt.alloc(), &LEGAL)?;
    let comes = Comes {
        policy: MovePolicy::KeepLegal,
        counts: [0, 3, 0, 0, 0],
        ways: (0, 0),
        changed: &[],
        left: &[],
    };
    assert!(rt; holds(rt.alloc(), &def, &comes)?);
    Ok(())
}

#[test]
fn a_cell_that_moves_keeps_clear_of_a_soft_blockage(rt: HostRuntime) -> Result<(), Fail> {
    let soft = b"- PLACEMENT + SOFT RECT ( 400 0 ) ( 800 2000 ) ;";
    let def = soft_def_of(rt.alloc(), &OVERLAPPING, soft)?;
    for policy in [
        MovePolicy::KeepLegal,
        MovePolicy::MoveAsNeeded,
        MovePolicy::MoveAll,
    ] {
        let comes = Comes {
            policy,
            counts: [2, 1, 1, 0, 0],
            ways: (600, 600),
            changed: &[1],
            left: &[],
        };
        assert!(rt; holds(rt.alloc(), &def, &comes)?);
    }
    Ok(())
}

#[test]
fn a_legal_cell_on_a_soft_blockage_stays(rt: HostRuntime) -> Result<(), Fail> {
    let soft = b"- PLACEMENT + SOFT RECT ( 0 0 ) ( 4000 4000 ) ;";
    let def = soft_def_of(rt.alloc(), &LEGAL, soft)?;
    for policy in [
        MovePolicy::KeepLegal,
        MovePolicy::MoveAsNeeded,
        MovePolicy::MoveAll,
    ] {
        let comes = Comes {
            policy,
            counts: [0, 3, 0, 0, 0],
            ways: (0, 0),
            changed: &[],
            left: &[],
        };
        assert!(rt; holds(rt.alloc(), &def, &comes)?);
    }
    Ok(())
}

/// Whether A is wholly legal, and B, which has an unplaced cell, and a missing team are not.
#[derive(Clone, Copy)]
struct OnlyAIsPlaced;

impl Requested for OnlyAIsPlaced {
    fn holds(&self, _alloc: Global, floor: &mut Floor<PlainSeeker>) -> bool {
        is_team_legal(floor, b"A") && !is_team_legal(floor, b"B") && !is_team_legal(floor, b"C")
    }
}

#[test]
fn a_team_is_whole_and_legal(rt: HostRuntime) -> Result<(), Fail> {
    let def = def_of(rt.alloc(), &LEGAL)?;
    assert!(rt; holds(rt.alloc(), &def, &OnlyAIsPlaced)?);
    Ok(())
}

/// The expected lines of a repair.
#[derive(Clone, Copy)]
struct Writes {
    policy: MovePolicy,
    lines: &'static [u8],
}

impl Requested for Writes {
    fn holds(&self, alloc: Global, floor: &mut Floor<PlainSeeker>) -> bool {
        let reported = repair_within(alloc, floor, self.policy, usize::MAX);
        reported.repaired.is_ok() && reported.lines.as_slice() == self.lines
    }
}

#[test]
fn a_legal_team_is_committed_and_no_cell_of_it_is_named(rt: HostRuntime) -> Result<(), Fail> {
    let def = def_of(rt.alloc(), &LEGAL)?;
    let lines = b"open A\ncommit A 0\nclose A 0\n";
    for policy in [
        MovePolicy::KeepLegal,
        MovePolicy::MoveAsNeeded,
        MovePolicy::MoveAll,
    ] {
        assert!(rt; holds(rt.alloc(), &def, &Writes { policy, lines })?);
    }
    Ok(())
}

#[test]
fn a_team_with_cells_left_is_not_committed(rt: HostRuntime) -> Result<(), Fail> {
    let def = narrow_def_of(rt.alloc(), &LEGAL)?;
    let policy = MovePolicy::KeepLegal;
    let lines = b"open A\nunplace A 0 a2\nunplace A 0 a3\nclose A 0\n";
    assert!(rt; holds(rt.alloc(), &def, &Writes { policy, lines })?);
    Ok(())
}

/// The lines of a repair of cells that overlap.
const LINES: &[u8] = b"open A
place A 0 a2 400 0 N
commit A 0
close A 0
";

/// The position of the line that commits the team.
const COMMIT: usize = 28;

/// The committed place of a2.
fn committed(floor: &Floor<PlainSeeker>) -> Option<Place> {
    let cells = floor.placement().cells();
    let id = cells.cell_of(0, 1)?;
    cells.committed(id)
}

/// A writer takes `left` bytes of the lines, and no more. The repair stops there, and the command
/// whose line is cut off has been executed.
#[derive(Clone, Copy)]
struct BreaksOff {
    left: usize,
}

impl Requested for BreaksOff {
    fn holds(&self, alloc: Global, floor: &mut Floor<PlainSeeker>) -> bool {
        let reported = repair_within(alloc, floor, MovePolicy::KeepLegal, self.left);
        let x = if self.left < COMMIT { 200 } else { 400 };
        let written = LINES.get(..self.left).unwrap_or(LINES);
        is_fault(&reported, RepairFault::Lines, written)
            && committed(floor) == Some(Place::new(x, 0, Orient::N))
    }
}

#[test]
fn each_byte_of_the_lines_may_find_no_room(rt: HostRuntime) -> Result<(), Fail> {
    let def = def_of(rt.alloc(), &OVERLAPPING)?;
    assert!(rt; LINES.get(COMMIT..).unwrap_or(b"").starts_with(b"commit"));
    for left in 0..LINES.len() {
        assert!(rt;
            holds(rt.alloc(), &def, &BreaksOff { left })?,
            "{left} bytes"
        );
    }
    let (policy, lines) = (MovePolicy::KeepLegal, LINES);
    assert!(rt; holds(rt.alloc(), &def, &Writes { policy, lines })?);
    Ok(())
}

/// Whether a repair is refused if no session is free, and writes nothing.
#[derive(Clone, Copy)]
struct IsRefused;

impl Requested for IsRefused {
    fn holds(&self, alloc: Global, floor: &mut Floor<PlainSeeker>) -> bool {
        let _ = floor.step(&Command::To {
            team: b"A",
            order: TeamCommand::Open,
        });
        let reported = repair_within(alloc, floor, MovePolicy::KeepLegal, usize::MAX);
        is_fault(&reported, RepairFault::Refused(Refusal::SessionsFull), b"")
    }
}

#[test]
fn a_repair_needs_a_session(rt: HostRuntime) -> Result<(), Fail> {
    assert!(rt; holds(rt.alloc(), DEMO_DEF, &IsRefused)?);
    Ok(())
}
