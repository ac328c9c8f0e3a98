//! A disk that fails or tears at each call in turn.

use crate::texts::{batch, beginning, segment};
use lf_journal::{Journal, OpenError, open, roll};
use lf_journal_text::read_segment;
use sqlite_disk::{Crash, Disk, Fuse, Memory};
use std::test::Fail;

#[test]
fn a_batch_is_there_after_a_crash(rt: HostRuntime) -> Result<(), Fail> {
    let alloc = rt.alloc();
    let mut disk = Memory::new(alloc);
    let opened = open(alloc, &mut disk)?;
    let mut journal = Journal {
        disk,
        end: opened.text.len(),
        len: opened.len,
    };
    journal.put(&beginning(alloc)?)?;
    let batch = batch(alloc)?;
    assert!(rt; journal.end < 1_000_000);
    assert!(rt; batch.len() < 1_000_000);
    journal.put(&batch)?;
    journal.disk.crash();
    let mut disk = journal.disk;
    let opened = open(alloc, &mut disk)?;
    assert_eq!(rt; read_segment(alloc, &opened.text)?.len(), 2);
    Ok(())
}

#[test]
fn a_torn_batch_is_dropped(rt: HostRuntime) -> Result<(), Fail> {
    let alloc = rt.alloc();
    let mut text = segment(alloc)?;
    let at = text.len().saturating_sub(12);
    assert!(rt; at < text.len());
    text[at] = 0;
    let mut disk = Memory::new(alloc);
    disk.write_at(0, &text)?;
    disk.sync()?;
    let opened = open(alloc, &mut disk)?;
    let first = beginning(alloc)?;
    assert_eq!(rt; opened.text.as_slice(), first.as_slice());
    assert_eq!(rt; opened.len, text.len());
    Ok(())
}

#[test]
fn damage_is_left_as_it_is(rt: HostRuntime) -> Result<(), Fail> {
    let alloc = rt.alloc();
    let mut text = segment(alloc)?;
    assert!(rt; 40 < text.len());
    text[40] ^= 1;
    let mut disk = Memory::new(alloc);
    disk.write_at(0, &text)?;
    disk.sync()?;
    assert!(rt; matches!(open(alloc, &mut disk), Err(OpenError::Damaged(_))));
    assert_eq!(rt; disk.bytes(), text.as_slice());
    Ok(())
}

// Each call is the last in turn: what was there before is there after, and what was acknowledged.
#[test]
fn each_call_may_be_the_last(rt: HostRuntime) -> Result<(), Fail> {
    let alloc = rt.alloc();
    let mut text = segment(alloc)?;
    let at = text.len().saturating_sub(12);
    assert!(rt; at < text.len());
    text[at] = 0;
    for calls in 0..24 {
        let mut memory = Memory::new(alloc);
        memory.write_at(0, &text)?;
        memory.sync()?;
        let mut disk = Fuse::new(memory, calls);
        let mut acknowledged = false;
        let opened = open(alloc, &mut disk);
        if let Ok(opened) = opened {
            let mut journal = Journal {
                disk,
                end: opened.text.len(),
                len: opened.len,
            };
            let next = batch(alloc)?;
            assert!(rt; journal.end < 1_000_000);
            assert!(rt; next.len() < 1_000_000);
            acknowledged = journal.put(&next).is_ok();
            disk = journal.disk;
        }
        disk.crash();
        let opened = open(alloc, &mut disk)?;
        let batches = read_segment(alloc, &opened.text)?.len();
        assert_eq!(rt; batches, 1 + usize::from(acknowledged));
    }
    Ok(())
}

#[test]
fn a_segment_begins_with_its_state(rt: HostRuntime) -> Result<(), Fail> {
    let alloc = rt.alloc();
    let mut state_file = Memory::new(alloc);
    let mut disk = Memory::new(alloc);
    let opened = open(alloc, &mut disk)?;
    if !opened.text.is_empty() {
        return Ok(());
    }
    let mut next = Journal {
        disk,
        end: 0,
        len: opened.len,
    };
    roll(
        alloc,
        1_700_000_000_000,
        b"design",
        &mut state_file,
        b"state",
        &mut next,
    )?;
    assert_eq!(rt; state_file.bytes(), b"state".as_slice());
    let first = beginning(alloc)?;
    assert_eq!(rt; next.end, first.len());
    Ok(())
}
