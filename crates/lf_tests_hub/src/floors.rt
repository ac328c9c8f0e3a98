//! The lines of a hub on the floor of the built-in design, whose teams are A, B and the ground team.

use lf_def::DEMO_DEF;
use lf_floor::Floor as AllTeams;
use lf_floorplan::Limits;
use lf_hub_clients::{Floor, Outcome};
use lf_hub_floor::TeamFloor;
use lf_legalize::PlainSeeker;
use lf_tests_support::design_of;
use std::alloc::Global;
use std::test::Fail;

/// The most bytes of a short reply.
const ROOM: usize = 4096;

/// The floor of the built-in design.
fn floor(alloc: Global) -> Result<TeamFloor<PlainSeeker>, Fail> {
    let design = design_of(alloc, DEMO_DEF, Limits::standard())?;
    Ok(TeamFloor::new(AllTeams::start(alloc, design, PlainSeeker)?))
}

/// Returns true if a line of the team gets this reply and outcome.
fn answers(
    alloc: Global,
    floor: &mut TeamFloor<PlainSeeker>,
    team: u32,
    line: &[u8],
    reply: &[u8],
    outcome: Outcome,
) -> Result<bool, Fail> {
    let mut text = Vec::with_capacity(alloc, ROOM)?;
    let answered = floor.answer(team, line, &mut text);
    Ok(answered == outcome && text.as_slice() == reply)
}

/// Returns true if a line on a query socket of the team gets this reply.
fn shows(
    alloc: Global,
    floor: &mut TeamFloor<PlainSeeker>,
    team: u32,
    line: &[u8],
    reply: &[u8],
) -> Result<bool, Fail> {
    let mut text = Vec::with_capacity(alloc, ROOM)?;
    floor.look(team, line, &mut text);
    Ok(text.as_slice() == reply)
}

/// Each line has its reply and its outcome. A carriage return at the end does not matter.
#[test]
fn answers_own_lines(rt: HostRuntime) -> Result<(), Fail> {
    let mut floor = floor(rt.alloc())?;
    let opened = Outcome::Opened { session: 0 };
    let closed = Outcome::Closed { session: 0 };
    assert!(rt; answers(rt.alloc(), &mut floor, 0, b"open A\r", b"ok 0 0\n", opened)?);
    assert!(rt;
        answers(
            rt.alloc(),
            &mut floor,
            0,
            b"place A 0 a1 0 0 N",
            b"ok 1\n",
            Outcome::Changed
        )?
    );
    assert!(rt;
        answers(
            rt.alloc(),
            &mut floor,
            0,
            b"where A 0 a1",
            b"ok 0 0 N\n",
            Outcome::Unchanged
        )?
    );
    assert!(rt;
        answers(
            rt.alloc(),
            &mut floor,
            0,
            b"place A 0 zz 0 0 N",
            b"no 5 NoCell\n",
            Outcome::Unchanged
        )?
    );
    assert!(rt;
        answers(
            rt.alloc(),
            &mut floor,
            0,
            b"iam alice@farm1",
            b"ok\n",
            Outcome::Named
        )?
    );
    assert!(rt;
        answers(
            rt.alloc(),
            &mut floor,
            0,
            b"iam a b",
            b"no 1 BadRequest\n",
            Outcome::Unchanged
        )?
    );
    assert!(rt;
        answers(
            rt.alloc(),
            &mut floor,
            0,
            b"sync A 0\0",
            b"no 1 BadRequest\n",
            Outcome::Unchanged
        )?
    );
    assert!(rt; answers(rt.alloc(), &mut floor, 0, b"close A 0", b"ok\n", closed)?);
    assert!(rt; answers(rt.alloc(), &mut floor, 0, b"bye", b"ok\n", Outcome::Ended)?);
    Ok(())
}

/// A line by one team's socket does not act for another team.
#[test]
fn refuses_lines_of_other_teams(rt: HostRuntime) -> Result<(), Fail> {
    let mut floor = floor(rt.alloc())?;
    let opened = Outcome::Opened { session: 0 };
    assert!(rt;
        answers(
            rt.alloc(),
            &mut floor,
            0,
            b"open B",
            b"no 2 NoTeam\n",
            Outcome::Unchanged
        )?
    );
    assert!(rt;
        answers(
            rt.alloc(),
            &mut floor,
            7,
            b"open A",
            b"no 2 NoTeam\n",
            Outcome::Unchanged
        )?
    );
    assert!(rt; answers(rt.alloc(), &mut floor, 1, b"open B", b"ok 0 0\n", opened)?);
    assert!(rt; answers(rt.alloc(), &mut floor, 2, b"open -", b"ok 0 0\n", opened)?);
    Ok(())
}

/// The hub closes a session itself.
#[test]
fn closes_sessions(rt: HostRuntime) -> Result<(), Fail> {
    let mut floor = floor(rt.alloc())?;
    let mut line = Vec::with_capacity(rt.alloc(), ROOM)?;
    let mut text = Vec::with_capacity(rt.alloc(), ROOM)?;
    let opened = Outcome::Opened { session: 0 };
    assert!(rt; answers(rt.alloc(), &mut floor, 0, b"open A", b"ok 0 0\n", opened)?);
    let outcome = floor.close(0, 0, &mut line, &mut text);
    assert!(rt; outcome == Outcome::Closed { session: 0 });
    assert!(rt; line.as_slice() == b"close A 0".as_slice());
    assert!(rt; text.as_slice() == b"ok\n".as_slice());
    assert!(rt;
        answers(
            rt.alloc(),
            &mut floor,
            0,
            b"sync A 0",
            b"no 3 NoSession\n",
            Outcome::Unchanged
        )?
    );
    Ok(())
}

/// A query socket answers queries without a session, and changes nothing.
#[test]
fn looks_without_sessions(rt: HostRuntime) -> Result<(), Fail> {
    let mut floor = floor(rt.alloc())?;
    let opened = Outcome::Opened { session: 0 };
    assert!(rt; shows(rt.alloc(), &mut floor, 0, b"open A", b"ok 0 0\n")?);
    assert!(rt;
        shows(
            rt.alloc(),
            &mut floor,
            0,
            b"where A 5 a1",
            b"no 6 Unplaced a1\n"
        )?
    );
    assert!(rt;
        shows(
            rt.alloc(),
            &mut floor,
            0,
            b"place A 0 a1 0 0 N",
            b"no 15 QueriesOnly\n"
        )?
    );
    assert!(rt; shows(rt.alloc(), &mut floor, 0, b"where B 0 b1", b"no 2 NoTeam\n")?);
    assert!(rt; answers(rt.alloc(), &mut floor, 0, b"open A", b"ok 0 0\n", opened)?);
    assert!(rt;
        answers(
            rt.alloc(),
            &mut floor,
            0,
            b"place A 0 a1 0 0 N",
            b"ok 1\n",
            Outcome::Changed
        )?
    );
    assert!(rt; shows(rt.alloc(), &mut floor, 0, b"where A 0 a1", b"ok 0 0 N\n")?);
    assert!(rt; shows(rt.alloc(), &mut floor, 0, b"sync A 3", b"ok 1\n")?);
    Ok(())
}

/// A query socket takes no slot: it answers even if all eight sessions of the team are open.
#[test]
fn looks_without_free_slots(rt: HostRuntime) -> Result<(), Fail> {
    let mut floor = floor(rt.alloc())?;
    for session in 0..8 {
        let opened = Outcome::Opened { session };
        let mut text = Vec::with_capacity(rt.alloc(), ROOM)?;
        assert!(rt; floor.answer(0, b"open A", &mut text) == opened);
    }
    assert!(rt;
        answers(
            rt.alloc(),
            &mut floor,
            0,
            b"open A",
            b"no 10 SessionsFull\n",
            Outcome::Unchanged
        )?
    );
    assert!(rt; shows(rt.alloc(), &mut floor, 0, b"open A", b"ok 0 0\n")?);
    assert!(rt; shows(rt.alloc(), &mut floor, 0, b"sync A 9", b"ok 0\n")?);
    assert!(rt;
        shows(
            rt.alloc(),
            &mut floor,
            0,
            b"where A 9 a1",
            b"no 6 Unplaced a1\n"
        )?
    );
    Ok(())
}
