//! The sessions of clients that leave.

use crate::counters::Counter;
use crate::steps::{answer_all, leave, may_send, send};
use lf_hub::Core;
use lf_hub_clients::Access;
use std::test::Fail;

/// The session of a client that leaves is closed. Its slot then has the next client, with another
/// number.
#[test]
fn closes_the_sessions_of_a_client_that_leaves(rt: HostRuntime) -> Result<(), Fail> {
    let mut core = Core::new(rt.alloc(), 1)?;
    let mut floor = Counter { count: 0 };
    let mut slots = Vec::new(rt.alloc());
    let first = core.opens(0, Access::Changes)?;
    assert!(rt; send(&mut core, first, b"open\nadd\n"));
    assert!(rt; answer_all(&mut core, &mut floor, true));
    core.synced(&mut slots);
    assert!(rt; send(&mut core, first, b"add\n"));
    assert!(rt; leave(&mut core, first));
    assert!(rt; !leave(&mut core, first));
    assert!(rt; core.opens(0, Access::Changes)? == 1);
    assert!(rt; answer_all(&mut core, &mut floor, true));
    assert!(rt; floor.count == 1);
    assert!(rt; core.records() == b"0\nclose\nok\n".as_slice());
    core.synced(&mut slots);
    assert!(rt; may_send(&core, first, b""));
    let next = core.opens(0, Access::Changes)?;
    assert!(rt; next == first);
    assert!(rt; send(&mut core, next, b"add\n"));
    assert!(rt; answer_all(&mut core, &mut floor, true));
    assert!(rt; core.records() == b"2\nadd\nok\n".as_slice());
    Ok(())
}
