//! A hub that is served over a wire in memory.

use crate::counters::Counter;
use crate::wires::{Script, Step};
use lf_hub::Core;
use lf_hub_clients::Access;
use lf_hub_serve::{Ending, Failure, Server, serve_hub};
use lf_journal::{Journal, open};
use sqlite_disk::{Crash, Fuse, Memory};
use std::test::Fail;

/// Each client is sent the replies to its own lines, and their records are in the journal.
#[test]
fn serves_two_clients(rt: HostRuntime) -> Result<(), Fail> {
    let alloc = rt.alloc();
    let steps = [
        Step::Connects {
            team: 0,
            access: Access::Changes,
        },
        Step::Connects {
            team: 1,
            access: Access::Changes,
        },
        Step::Says {
            number: 0,
            bytes: b"add\nwhat\nad",
        },
        Step::Says {
            number: 1,
            bytes: b"add\n",
        },
        Step::Says {
            number: 0,
            bytes: b"d\n",
        },
        Step::Orders { line: b"state" },
    ];
    let mut disk = Memory::new(alloc);
    let opened = open(alloc, &mut disk)?;
    let mut journal = Journal {
        disk,
        end: opened.text.len(),
        len: opened.len,
    };
    let mut server = Server {
        core: Core::new(alloc, 2)?,
        floor: Counter { count: 0 },
        wire: Script::new(alloc, &steps),
    };
    let ending = serve_hub(alloc, &rt, &mut server, &mut journal);
    assert!(rt; matches!(ending, Ending::Stopped));
    assert!(rt; server.floor.count == 3);
    assert!(rt; server.wire.peers.len() == 2);
    assert_eq!(rt;
        server.wire.peers[0].output.as_slice(),
        b"ok\nno 1 BadRequest\nok\n".as_slice()
    );
    assert_eq!(rt; server.wire.peers[1].output.as_slice(), b"ok\n".as_slice());
    assert_eq!(rt;
        server.wire.told.as_slice(),
        b"no 1 BadRequest\nok\n".as_slice()
    );
    let text = journal.disk.bytes();
    assert!(rt; contains(text, b"0\nadd\nok\n"));
    assert!(rt; contains(text, b"1\nadd\nok\n"));
    Ok(())
}

/// Returns whether the bytes contain others.
fn contains(bytes: &[u8], others: &[u8]) -> bool {
    for at in 0..bytes.len() {
        if bytes[at..].starts_with(others) {
            return true;
        }
    }
    false
}

/// A client that sends no more is served to the end of its input, which ends its last line. Then it is
/// closed.
#[test]
fn serves_to_the_end_of_input(rt: HostRuntime) -> Result<(), Fail> {
    let alloc = rt.alloc();
    let steps = [
        Step::Connects {
            team: 0,
            access: Access::Changes,
        },
        Step::Says {
            number: 0,
            bytes: b"add\nadd",
        },
        Step::Ends { number: 0 },
        Step::Connects {
            team: 0,
            access: Access::Changes,
        },
        Step::Says {
            number: 1,
            bytes: b"add\n",
        },
        Step::Ends { number: 1 },
    ];
    let mut disk = Memory::new(alloc);
    let opened = open(alloc, &mut disk)?;
    let mut journal = Journal {
        disk,
        end: opened.text.len(),
        len: opened.len,
    };
    let mut server = Server {
        core: Core::new(alloc, 1)?,
        floor: Counter { count: 0 },
        wire: Script::new(alloc, &steps),
    };
    let ending = serve_hub(alloc, &rt, &mut server, &mut journal);
    assert!(rt; matches!(ending, Ending::Stopped));
    assert!(rt; server.floor.count == 3);
    assert!(rt; server.wire.peers.len() == 2);
    assert_eq!(rt;
        server.wire.peers[0].output.as_slice(),
        b"ok\nok\n".as_slice()
    );
    assert!(rt; server.wire.peers[0].is_closed);
    assert_eq!(rt; server.wire.peers[1].output.as_slice(), b"ok\n".as_slice());
    assert!(rt; server.wire.peers[1].is_closed);
    Ok(())
}

/// A client whose connection fails in the middle of a line leaves, and its sessions are closed. A client
/// that takes no byte is no harm to others.
#[test]
fn clients_fail_alone(rt: HostRuntime) -> Result<(), Fail> {
    let alloc = rt.alloc();
    let steps = [
        Step::Connects {
            team: 0,
            access: Access::Changes,
        },
        Step::Connects {
            team: 0,
            access: Access::Changes,
        },
        Step::Connects {
            team: 0,
            access: Access::Changes,
        },
        Step::Stalls { number: 1 },
        Step::Says {
            number: 1,
            bytes: b"add\n",
        },
        Step::Says {
            number: 0,
            bytes: b"open\nad",
        },
        Step::Breaks { number: 0 },
        Step::Says {
            number: 2,
            bytes: b"add\nbye\nadd\n",
        },
    ];
    let mut disk = Memory::new(alloc);
    let opened = open(alloc, &mut disk)?;
    let mut journal = Journal {
        disk,
        end: opened.text.len(),
        len: opened.len,
    };
    let mut server = Server {
        core: Core::new(alloc, 1)?,
        floor: Counter { count: 0 },
        wire: Script::new(alloc, &steps),
    };
    let ending = serve_hub(alloc, &rt, &mut server, &mut journal);
    assert!(rt; matches!(ending, Ending::Stopped));
    assert!(rt; server.floor.count == 2);
    assert!(rt; server.wire.peers.len() == 3);
    assert!(rt; server.wire.peers[0].is_closed);
    assert!(rt; !server.wire.peers[1].is_closed);
    assert_eq!(rt;
        server.wire.peers[2].output.as_slice(),
        b"ok\nok\n".as_slice()
    );
    assert!(rt; server.wire.peers[2].is_closed);
    assert!(rt; contains(journal.disk.bytes(), b"0\nclose\nok\n"));
    Ok(())
}

/// No client is told of a change that a crash takes back, whichever call of the disk is the last.
#[test]
fn tells_of_no_lost_change(rt: HostRuntime) -> Result<(), Fail> {
    let alloc = rt.alloc();
    let steps = [
        Step::Connects {
            team: 0,
            access: Access::Changes,
        },
        Step::Says {
            number: 0,
            bytes: b"add\n",
        },
        Step::Says {
            number: 0,
            bytes: b"add\n",
        },
    ];
    let mut told = 0;
    for calls in 0..32 {
        let mut disk = Fuse::new(Memory::new(alloc), calls);
        if let Ok(opened) = open(alloc, &mut disk) {
            let mut journal = Journal {
                disk,
                end: opened.text.len(),
                len: opened.len,
            };
            let mut server = Server {
                core: Core::new(alloc, 1)?,
                floor: Counter { count: 0 },
                wire: Script::new(alloc, &steps),
            };
            let ending = serve_hub(alloc, &rt, &mut server, &mut journal);
            assert!(rt; matches!(ending, Ending::Stopped | Ending::Failed(Failure::Disk(_))));
            assert!(rt; server.wire.peers.len() == 1);
            told = server.wire.peers[0].output.len();
            disk = journal.disk;
        }
        disk.crash();
        let opened = open(alloc, &mut disk)?;
        let mut kept = 0usize;
        for at in 0..opened.text.len() {
            if opened.text.as_slice()[at..].starts_with(b"0\nadd\nok\n") {
                kept = kept.wrapping_add(3);
            }
        }
        assert!(rt; told <= kept);
    }
    assert!(rt; told == 6);
    Ok(())
}
