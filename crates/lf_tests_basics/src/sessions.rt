//! Session slots of teams.

use lf_sessions::SessionTable;
use std::test::Fail;

/// A ninth session finds no slot, and a freed slot is the next that is taken.
#[test]
fn takes_the_least_free_slot(rt: HostRuntime) -> Result<(), Fail> {
    let mut table = SessionTable::build(rt.alloc(), 2, 8)?;
    for session in 0..8u32 {
        assert!(rt; table.take_slot(1, 5) == Some(session));
    }
    assert!(rt; table.take_slot(1, 5).is_none());
    assert!(rt; table.free_slot(1, 3));
    assert!(rt; !table.free_slot(1, 3));
    assert!(rt; table.take_slot(1, 6) == Some(3));
    assert!(rt; table.take_slot(0, 1) == Some(0));
    assert!(rt; table.take_slot(2, 1).is_none());
    Ok(())
}

/// A session's last seen number is returned until its slot is freed. It is not visible to sessions
/// of other teams.
#[test]
fn shows_what_a_session_has_seen(rt: HostRuntime) -> Result<(), Fail> {
    let mut table = SessionTable::build(rt.alloc(), 2, 8)?;
    assert!(rt; table.take_slot(0, 5) == Some(0));
    assert!(rt; table.seen(0, 0) == Some(5));
    assert!(rt; table.set_seen(0, 0, 7));
    assert!(rt; table.seen(0, 0) == Some(7));
    assert!(rt; table.seen(1, 0).is_none());
    assert!(rt; !table.set_seen(1, 0, 7));
    assert!(rt; !table.set_seen(0, 1, 7));
    assert!(rt; table.free_slot(0, 0));
    assert!(rt; table.seen(0, 0).is_none());
    Ok(())
}
