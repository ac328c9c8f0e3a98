//! What clients are sent, and when.

use crate::counters::Counter;
use crate::steps::{answer_all, may_send, ready_bytes, send};
use lf_hub::Core;
use lf_hub_clients::Access;
use std::test::Fail;

/// Replies wait for the sync, and each client is sent its own.
#[test]
fn sends_own_replies_after_the_sync(rt: HostRuntime) -> Result<(), Fail> {
    let mut core = Core::new(rt.alloc(), 2)?;
    let mut floor = Counter { count: 0 };
    let mut slots = Vec::new(rt.alloc());
    let first = core.opens(0, Access::Changes)?;
    let second = core.opens(1, Access::Changes)?;
    assert!(rt; send(&mut core, first, b"add\nwhat\nad"));
    assert!(rt; send(&mut core, second, b"add\n"));
    assert!(rt; answer_all(&mut core, &mut floor, true));
    assert!(rt; floor.count == 2);
    assert!(rt; may_send(&core, first, b""));
    assert!(rt; may_send(&core, second, b""));
    assert!(rt; core.records() == b"0\nadd\nok\n1\nadd\nok\n".as_slice());
    core.synced(&mut slots);
    assert!(rt; core.records() == b"".as_slice());
    assert!(rt; may_send(&core, first, b"ok\nno 1 BadRequest\n"));
    assert!(rt; may_send(&core, second, b"ok\n"));
    assert!(rt; send(&mut core, first, b"d\n"));
    assert!(rt; answer_all(&mut core, &mut floor, true));
    assert!(rt; may_send(&core, first, b"ok\nno 1 BadRequest\n"));
    assert!(rt; floor.count == 3);
    Ok(())
}

/// A client that may only query changes nothing, and `bye` ends a connection.
#[test]
fn queries_and_ends(rt: HostRuntime) -> Result<(), Fail> {
    let mut core = Core::new(rt.alloc(), 1)?;
    let mut floor = Counter { count: 0 };
    let mut slots = Vec::new(rt.alloc());
    let query = core.opens(0, Access::Queries)?;
    let client = core.opens(0, Access::Changes)?;
    assert!(rt; send(&mut core, query, b"add\n"));
    assert!(rt; send(&mut core, client, b"iam\nbye\nadd\n"));
    assert!(rt; answer_all(&mut core, &mut floor, true));
    core.synced(&mut slots);
    assert!(rt; floor.count == 0);
    assert!(rt; may_send(&core, query, b"ok\n"));
    assert!(rt; may_send(&core, client, b"ok\nok\n"));
    assert!(rt; !send(&mut core, client, b"add\n"));
    match core.client(client) {
        Some(ended) => assert!(rt; ended.label() == b"iam".as_slice()),
        None => assert!(rt; false),
    }
    Ok(())
}

/// If the journal has no room, changes are refused.
#[test]
fn refuses_changes_without_room(rt: HostRuntime) -> Result<(), Fail> {
    let mut core = Core::new(rt.alloc(), 1)?;
    let mut floor = Counter { count: 0 };
    let mut slots = Vec::new(rt.alloc());
    let client = core.opens(0, Access::Changes)?;
    assert!(rt; send(&mut core, client, b"add\n"));
    assert!(rt; answer_all(&mut core, &mut floor, false));
    assert!(rt; floor.count == 0);
    assert!(rt; core.records() == b"".as_slice());
    core.synced(&mut slots);
    assert!(rt; may_send(&core, client, b"no 12 OutOfMemory\n"));
    Ok(())
}

/// A line without an end does not fill the memory, and the next line is answered.
#[test]
fn drops_the_rest_of_a_long_line(rt: HostRuntime) -> Result<(), Fail> {
    let mut core = Core::new(rt.alloc(), 1)?;
    let mut floor = Counter { count: 0 };
    let mut slots = Vec::new(rt.alloc());
    let client = core.opens(0, Access::Changes)?;
    let piece = [b'a'; 4096];
    for _ in 0..40 {
        assert!(rt; send(&mut core, client, &piece));
    }
    assert!(rt; send(&mut core, client, b"\nadd\n"));
    assert!(rt; answer_all(&mut core, &mut floor, true));
    core.synced(&mut slots);
    assert!(rt; may_send(&core, client, b"no 1 BadRequest\nok\n"));
    Ok(())
}

/// A client that does not read its replies is answered until 64 KiB of them are unread.
#[test]
fn stops_at_unread_replies(rt: HostRuntime) -> Result<(), Fail> {
    let mut core = Core::new(rt.alloc(), 1)?;
    let mut floor = Counter { count: 0 };
    let mut slots = Vec::new(rt.alloc());
    let client = core.opens(0, Access::Changes)?;
    let lines = [b'\n'; 5000];
    assert!(rt; send(&mut core, client, &lines));
    assert!(rt; answer_all(&mut core, &mut floor, true));
    core.synced(&mut slots);
    assert!(rt; ready_bytes(&core, client) == 65_536);
    Ok(())
}
