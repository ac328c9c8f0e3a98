//! Prefixes of a segment, changed bytes, and zeros.

use crate::texts::{batch, beginning, segment};
use lf_journal_text::{Damage, DamageKind, ReadError, batch_of, read_segment};
use std::alloc::Global;
use std::test::Fail;

/// Returns how many batches are read, or the damage.
fn batches_in(alloc: Global, bytes: &[u8]) -> Result<usize, ReadError> {
    Ok(read_segment(alloc, bytes)?.len())
}

fn is_damaged(read: &Result<usize, ReadError>, at: usize, kind: DamageKind) -> bool {
    match read {
        Err(ReadError::Damaged(damage)) => *damage == Damage { at, kind },
        _ => false,
    }
}

// The text of the form, and what is read from it.
#[test]
fn a_segment_is_text(rt: HostRuntime) -> Result<(), Fail> {
    let alloc = rt.alloc();
    let first = beginning(alloc)?;
    assert_eq!(rt;
        first.as_slice(),
        b"\x0c00050 00050 1700000000000 1298863348\nlefence-journal 4\ndesign\n0000000000005 1952544420\n".as_slice()
    );
    let text = segment(alloc)?;
    let batches = read_segment(alloc, &text)?;
    assert_eq!(rt; batches.len(), 2);
    assert_eq!(rt; batches[1].time, 1_700_000_000_001);
    assert_eq!(rt; batches[1].records.len(), 1);
    assert_eq!(rt; batches[1].records[0].line, b"undo 2".as_slice());
    assert_eq!(rt; batches[1].records[0].reply, b"ok 5".as_slice());
    Ok(())
}

#[test]
fn each_prefix_is_a_segment(rt: HostRuntime) -> Result<(), Fail> {
    let alloc = rt.alloc();
    let first = beginning(alloc)?.len();
    let text = segment(alloc)?;
    let whole = text.len().saturating_sub(8);
    for n in 0..text.len() {
        let due = usize::from(first <= n) + usize::from(whole <= n);
        assert_eq!(rt; batches_in(alloc, &text[..n])?, due);
    }
    Ok(())
}

// A changed byte is damage of its batch: a changed digit of the time makes the sum wrong. A gate may
// be any byte but zero.
#[test]
fn each_changed_byte_is_found(rt: HostRuntime) -> Result<(), Fail> {
    let alloc = rt.alloc();
    let first = beginning(alloc)?.len();
    let text = segment(alloc)?;
    for i in 0..text.len().saturating_sub(8) {
        let mut changed = Vec::new(alloc);
        changed.extend_from_slice(&text)?;
        changed[i] ^= 1;
        let read = batches_in(alloc, &changed);
        if i == 0 || i == first {
            assert!(rt; matches!(read, Ok(2)));
        } else {
            let at = if i < first { 0 } else { first };
            let kind = match i - at {
                1..13 => DamageKind::BadLength,
                26 => DamageKind::BadTime,
                _ => DamageKind::BadSum,
            };
            assert!(rt; is_damaged(&read, at, kind));
        }
    }
    Ok(())
}

// A zero in the last batch reads as torn, and one in a batch before it as damage, but in a header.
#[test]
fn zeros_are_torn_at_the_end_only(rt: HostRuntime) -> Result<(), Fail> {
    let alloc = rt.alloc();
    let first = beginning(alloc)?.len();
    let text = segment(alloc)?;
    for i in 0..text.len().saturating_sub(8) {
        let mut changed = Vec::new(alloc);
        changed.extend_from_slice(&text)?;
        changed[i] = 0;
        let read = batches_in(alloc, &changed);
        if first <= i {
            assert!(rt; matches!(read, Ok(1)));
        } else if i < 38 {
            assert!(rt; matches!(read, Ok(0)));
        } else {
            assert!(rt; is_damaged(&read, 0, DamageKind::BadSum));
        }
    }
    Ok(())
}

#[test]
fn other_texts_are_refused(rt: HostRuntime) -> Result<(), Fail> {
    let alloc = rt.alloc();
    let other = batch(alloc)?;
    assert!(rt; is_damaged(&batches_in(alloc, &other), 0, DamageKind::OtherVersion));
    let mut text = beginning(alloc)?;
    let first = text.len();
    text.extend_from_slice(&batch_of(alloc, 0, b"two\nlines\n")?)?;
    assert!(rt; is_damaged(&batches_in(alloc, &text), first, DamageKind::BadRecord));
    assert!(rt;
        is_damaged(
            &batches_in(alloc, b"some text of another kind, as long as a header"),
            0,
            DamageKind::BadLength
        )
    );
    Ok(())
}

#[test]
fn kinds_have_numbers(rt: HostRuntime) -> Result<(), Fail> {
    assert_eq!(rt; DamageKind::OtherVersion.number(), 25);
    assert_eq!(rt; DamageKind::BadGate.number(), 28);
    assert_eq!(rt; DamageKind::BadRecord.number(), 32);
    Ok(())
}
