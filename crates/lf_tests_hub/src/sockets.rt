//! The wire of a process, over unix sockets.

use lf_hub_clients::Access;
use lf_hub_wire::{Door, Incoming, Outgoing, Sockets, Wire};
use std::fs;
use std::io::{Read, Write};
use std::os::unix::fs::MetadataExt;
use std::os::unix::net::UnixStream;
use std::test::Fail;

const FOLDER: &str = "lf_tests_hub";

/// Clients connect to the sockets of their teams, and what they send and are sent comes over. A socket
/// to which somebody listens is not taken away, and one to which nobody listens is.
#[test]
fn clients_connect_to_sockets(rt: HostRuntime) -> Result<(), Fail> {
    let _ = fs::remove_dir_all(&rt, FOLDER);
    fs::create_dir(&rt, FOLDER)?;
    let doors = [Door {
        name: "A",
        team: 3,
        group: None,
    }];
    let mut sockets = Sockets::open(&rt, FOLDER, &doors, 2)?;
    assert_eq!(rt;
        fs::metadata(&rt, "lf_tests_hub/A.sock")?.mode() & 0o777,
        0o660
    );
    assert_eq!(rt;
        fs::metadata(&rt, "lf_tests_hub/operator.sock")?.mode() & 0o777,
        0o600
    );
    assert!(rt; sockets.accept().is_none());
    let mut client = UnixStream::connect(&rt, "lf_tests_hub/A.sock")?;
    let viewer = UnixStream::connect(&rt, "lf_tests_hub/A.query.sock")?;
    let late = UnixStream::connect(&rt, "lf_tests_hub/A.sock")?;
    sockets.wait(1000);
    for number in 0..2u64 {
        let Some(arrival) = sockets.accept() else {
            return Err(Fail::from("nobody has connected"));
        };
        assert_eq!(rt; arrival.team, 3);
        let is_first = number == 0;
        assert!(rt; is_first == (arrival.access == Access::Changes));
        sockets.seat(number, arrival.stream);
    }
    assert!(rt; sockets.accept().is_none());
    let mut buffer = [0u8; 16];
    assert!(rt; sockets.read(0, &mut buffer) == Incoming::Nothing);
    client.write_all(b"add\n")?;
    sockets.wait(1000);
    assert!(rt; sockets.read(0, &mut buffer) == Incoming::Bytes { count: 4 });
    assert!(rt; buffer[..4] == b"add\n"[..]);
    assert!(rt; sockets.write(0, b"ok\n") == Outgoing::Bytes { count: 3 });
    assert_eq!(rt; client.read(&mut buffer)?, 3);
    drop(viewer);
    sockets.wait(1000);
    assert!(rt; sockets.read(1, &mut buffer) == Incoming::End);
    assert!(rt; sockets.read(1, &mut buffer) == Incoming::Nothing);
    assert!(rt; sockets.has_ended(1));
    assert!(rt; sockets.write(1, b"ok\n") == Outgoing::Failed);
    sockets.close(1);
    assert!(rt; sockets.read(1, &mut buffer) == Incoming::Failed);
    let Some(arrival) = sockets.accept() else {
        return Err(Fail::from("a place is free"));
    };
    sockets.seat(2, arrival.stream);
    assert!(rt; Sockets::open(&rt, FOLDER, &doors, 2).is_err());
    drop(late);
    drop(client);
    drop(sockets);
    let again = Sockets::open(&rt, FOLDER, &doors, 2)?;
    drop(again);
    fs::remove_dir_all(&rt, FOLDER)?;
    Ok(())
}

/// The operator's lines are heard, and replies reach him.
#[test]
fn the_operator_is_heard(rt: HostRuntime) -> Result<(), Fail> {
    let folder = "lf_tests_hub_operator";
    let _ = fs::remove_dir_all(&rt, folder);
    fs::create_dir(&rt, folder)?;
    let doors = [];
    let mut sockets = Sockets::open(&rt, folder, &doors, 2)?;
    let mut line = Vec::new(rt.alloc());
    assert!(rt; !sockets.take_order(&mut line));
    let mut operator = UnixStream::connect(&rt, "lf_tests_hub_operator/operator.sock")?;
    operator.write_all(b"status\nstop\n")?;
    sockets.wait(1000);
    assert!(rt; sockets.take_order(&mut line));
    assert_eq!(rt; line.as_slice(), b"status".as_slice());
    assert!(rt; sockets.take_order(&mut line));
    assert_eq!(rt; line.as_slice(), b"stop".as_slice());
    assert!(rt; !sockets.take_order(&mut line));
    sockets.answer_order(b"ok\n");
    let mut buffer = [0u8; 16];
    assert_eq!(rt; operator.read(&mut buffer)?, 3);
    fs::remove_dir_all(&rt, folder)?;
    Ok(())
}
