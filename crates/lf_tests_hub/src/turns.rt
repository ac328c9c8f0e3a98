//! Whose line is next.

use crate::counters::Counter;
use crate::steps::{answer_all, send};
use lf_hub::Core;
use lf_hub_clients::Access;
use std::test::Fail;

/// Teams take turns, and so do the clients of a team.
#[test]
fn teams_and_clients_take_turns(rt: HostRuntime) -> Result<(), Fail> {
    let mut core = Core::new(rt.alloc(), 2)?;
    let mut floor = Counter { count: 0 };
    let busy = core.opens(0, Access::Changes)?;
    let same_team = core.opens(0, Access::Changes)?;
    let other_team = core.opens(1, Access::Changes)?;
    assert!(rt; send(&mut core, busy, b"add\nadd\nadd\n"));
    assert!(rt; send(&mut core, same_team, b"add\n"));
    assert!(rt; send(&mut core, other_team, b"add\n"));
    assert!(rt; answer_all(&mut core, &mut floor, true));
    assert!(rt;
        core.records() == b"0\nadd\nok\n2\nadd\nok\n1\nadd\nok\n0\nadd\nok\n0\nadd\nok\n".as_slice()
    );
    Ok(())
}
