//! The lines of requests.

use lf_proto::{parse_line, write_request};
use std::alloc::{AllocError, Global};
use std::test::Fail;

/// Whether the request of a line is printed as that line and a line feed.
fn is_put(alloc: Global, line: &[u8]) -> Result<bool, AllocError> {
    let Ok(request) = parse_line(line) else {
        return Ok(false);
    };
    let mut out = Vec::new(alloc);
    write_request(&mut out, &request)?;
    out.push(b'|')?;
    Ok(out.strip_suffix(b"\n|") == Some(line))
}

/// A line of each verb, with the least and the greatest numbers.
const LINES: [&[u8]; 17] = [
    b"open A",
    b"close A 0",
    b"sync - 4294967295",
    b"check A 1",
    b"def A 0",
    b"where A 0 top/u1[3]",
    b"find A 0 a1 -2147483647 2147483647",
    b"place A 0 a1 -2147483647 2147483647 FS",
    b"legalize A 0 a1 -2147483647 2147483647",
    b"tidy A 0",
    b"unplace A 0 a1",
    b"swap A 0 a1 a2",
    b"undo A 0",
    b"commit A 0",
    b"revert A 0",
    b"pad A 0 4",
    b"bye",
];

#[test]
fn requests_are_put_as_they_are_read(rt: HostRuntime) -> Result<(), Fail> {
    for line in LINES {
        assert!(rt; is_put(rt.alloc(), line)?, "{line:?}");
    }
    Ok(())
}
