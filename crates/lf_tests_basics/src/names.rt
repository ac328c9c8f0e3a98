//! Tables of names, and patterns.

use crate::heaps::take_all;
use lf_names::{Added, Match, NameTable, PartitionedNames, Pattern};
use linked_list_allocator::LocalHeap;
use std::alloc::{AllocError, Allocator, Global};
use std::test::Fail;

/// True if the table is the list of these names.
fn holds<A: Allocator + Copy>(table: &NameTable<A>, names: &[&[u8]]) -> bool {
    for (position, name) in names.iter().enumerate() {
        if table.find(name) != Some(position) || table.name_at(position) != Some(name) {
            return false;
        }
    }
    table.len() == names.len() && table.name_at(names.len()).is_none()
}

#[test]
fn gives_names_their_positions(rt: HostRuntime) -> Result<(), Fail> {
    let mut table = NameTable::new(rt.alloc());
    assert!(rt; table.is_empty());
    let added = [table.add(b"a")?, table.add(b"b")?, table.add(b"a")?];
    assert_eq!(rt; added, [Added::New(0), Added::New(1), Added::Present(0)]);
    assert!(rt; holds(&table, &[b"a", b"b"]));
    table.truncate(1);
    assert!(rt; holds(&table, &[b"a"]));
    assert_eq!(rt; table.add(b"c")?, Added::New(1));
    assert!(rt; table.find(b"b").is_none());
    Ok(())
}

/// True if one of the matches has these labels.
fn has_match(matches: &[Match], own: usize, requested: usize) -> bool {
    matches
        .iter()
        .any(|found| found.own == own && found.requested == requested)
}

/// Adds 200 names of two bytes, with labels from this one on.
fn push_names(parts: &mut PartitionedNames, first: usize) -> Result<(), AllocError> {
    for name in 0..200u8 {
        parts.push(first.saturating_add(usize::from(name)), &[name, 0])?;
    }
    Ok(())
}

/// Adds these names, one of them twice, and a name that is not among them.
fn push_requested(parts: &mut PartitionedNames) -> Result<(), AllocError> {
    parts.push(999, b"")?;
    push_names(parts, 1000)?;
    parts.push(1200, &[7, 0])
}

/// True if these are the matches of each name, with two for the name that is requested twice.
fn are_of_all(matches: &[Match]) -> bool {
    for name in 0..200usize {
        if !has_match(matches, name, 1000 + name) {
            return false;
        }
    }
    matches.len() == 201 && has_match(matches, 7, 1200)
}

/// True if the requested names are found, each with its labels.
fn are_found(
    alloc: Global,
    names: &PartitionedNames,
    requested: &PartitionedNames,
) -> Result<bool, AllocError> {
    match names.matches(alloc, requested)? {
        Some(matches) => Ok(are_of_all(&matches)),
        None => Ok(false),
    }
}

/// True if added names are found, and there is no result after one of them was added twice.
fn answer(
    alloc: Global,
    names: &mut PartitionedNames,
    requested: &mut PartitionedNames,
) -> Result<bool, AllocError> {
    push_names(names, 0)?;
    push_requested(requested)?;
    if !are_found(alloc, names, requested)? {
        return Ok(false);
    }
    names.push(200, &[7, 0])?;
    Ok(names.matches(alloc, requested)?.is_none())
}

/// The same for empty parts.
fn parts_answer(alloc: Global) -> Result<bool, AllocError> {
    let mut names = PartitionedNames::new(alloc)?;
    let mut requested = PartitionedNames::new(alloc)?;
    answer(alloc, &mut names, &mut requested)
}

/// Names of many parts are matched with their labels. A name that is requested twice has two
/// matches, and an unknown one has no match. If a name is in the list twice, there is no result.
#[test]
fn finds_names_in_parts(rt: HostRuntime) -> Result<(), Fail> {
    assert!(rt; parts_answer(rt.alloc())?);
    Ok(())
}

/// A name of 17 bytes, which needs memory of its own.
const LONG: &[u8] = b"seventeen_bytes_x";

/// True if a table of one name is unchanged when no memory is left.
fn stays<'a>(
    alloc: Global,
    table: &mut NameTable<&'a LocalHeap>,
    heap: &'a LocalHeap,
) -> Result<bool, AllocError> {
    let _blocks = take_all(alloc, heap)?;
    if Vec::<u8, &LocalHeap>::with_capacity(heap, 1).is_ok() || table.add(LONG).is_ok() {
        return Ok(false);
    }
    Ok(holds(table, &[b"a"]) && table.find(LONG).is_none())
}

/// True if it is, and the table takes another name after memory is freed.
fn stays_and_grows(alloc: Global, heap: &LocalHeap) -> Result<bool, AllocError> {
    let mut table: NameTable<&LocalHeap> = NameTable::new(heap);
    if table.add(b"a")? != Added::New(0) || !stays(alloc, &mut table, heap)? {
        return Ok(false);
    }
    Ok(table.add(LONG)? == Added::New(1) && holds(&table, &[b"a", LONG]))
}

/// If every growth is refused, the table is unchanged. After memory is freed it grows.
#[test]
fn stays_as_it_was_where_memory_is_refused(rt: HostRuntime) -> Result<(), Fail> {
    let heap = LocalHeap::new(rt.alloc(), 4096)?;
    assert!(rt; stays_and_grows(rt.alloc(), &heap)?);
    Ok(())
}

/// True if the table has `count` names, each of one byte: 0, 1, and so on.
fn has_first(table: &NameTable<&LocalHeap>, count: u8) -> bool {
    for name in 0..count {
        if table.find(&[name]) != Some(usize::from(name)) {
            return false;
        }
    }
    table.len() == usize::from(count) && table.find(&[count]).is_none()
}

/// True if the first name for which the heap has no memory leaves the earlier names in their
/// places.
fn keeps_names_in(heap: &LocalHeap) -> bool {
    let mut table: NameTable<&LocalHeap> = NameTable::new(heap);
    for name in 0..200u8 {
        if table.add(&[name]).is_err() {
            return has_first(&table, name);
        }
    }
    false
}

/// The same in a heap of this size.
fn keeps_its_names(alloc: Global, size: usize) -> Result<bool, AllocError> {
    let heap = LocalHeap::new(alloc, size)?;
    Ok(keeps_names_in(&heap))
}

/// Each growth is refused in turn, in heaps of every size.
#[test]
fn keeps_its_names_at_every_refusal(rt: HostRuntime) -> Result<(), Fail> {
    for units in 4..200usize {
        assert!(rt; keeps_its_names(rt.alloc(), units * 16)?);
    }
    Ok(())
}

/// True if the pattern matches the name.
fn denotes(pattern: &[u8], name: &[u8]) -> bool {
    Pattern::new(pattern).matches(name)
}

/// Patterns and names, and whether the pattern matches the name.
const PATTERNS: &[(&[u8], &[u8], bool)] = &[
    (b"a*", b"a", true),
    (b"a*", b"a1", true),
    (b"a*", b"b1", false),
    (b"a\\*", b"a\\*", true),
    (b"a\\*", b"a", false),
    (b"a\\*", b"a*", false),
    (b"a\\*", b"a\\", false),
    (b"a\\*", b"a\\b", false),
    (b"a\\\\*", b"a\\\\*", true),
    (b"a\\\\*", b"a\\\\b", false),
    (b"a\\**", b"a\\*", true),
    (b"a\\**", b"a\\*b", true),
    (b"a\\**", b"a\\b", false),
    (b"top/*/u*7", b"top/core/u17", true),
    (b"top/*/u*7", b"top/core/alu/u7", true),
    (b"top/*/u*7", b"top/u7", false),
    (b"*ab*ab", b"ab", false),
    (b"*ab*ab", b"abab", true),
    (b"a", b"ab", false),
    (b"**", b"", true),
    (b"", b"a", false),
];

#[test]
fn patterns_match_their_names(rt: HostRuntime) {
    for (pattern, name, is_in_place) in PATTERNS {
        assert!(rt;
            denotes(pattern, name) == *is_in_place,
            "{pattern:?} {name:?}"
        );
    }
}

#[test]
fn only_a_pattern_without_a_star_is_literal(rt: HostRuntime) {
    assert!(rt; Pattern::new(b"u1").is_literal());
    assert!(rt; Pattern::new(b"a\\*").is_literal());
    assert!(rt; !Pattern::new(b"a*").is_literal());
    assert!(rt; !Pattern::new(b"a\\**").is_literal());
}

#[test]
fn the_prefix_of_a_pattern_ends_before_its_first_star(rt: HostRuntime) {
    assert!(rt; Pattern::new(b"top/u*7*").prefix() == b"top/u".as_slice());
    assert!(rt; Pattern::new(b"a\\**").prefix() == b"a\\*".as_slice());
    assert!(rt; Pattern::new(b"u1").prefix() == b"u1".as_slice());
    assert!(rt; Pattern::new(b"*").prefix().is_empty());
}

/// Many stars in front of a letter that never comes. The match fails without going back to an
/// earlier star.
#[test]
fn many_stars_end_quickly(rt: HostRuntime) -> Result<(), Fail> {
    let name = vec![in rt.alloc(); b'a'; 1024]?;
    let mut pattern = Vec::new(rt.alloc());
    for _ in 0..500 {
        pattern.extend_from_slice(b"*a")?;
    }
    assert!(rt; Pattern::new(&pattern).matches(&name));
    pattern.extend_from_slice(b"*b*")?;
    assert!(rt; !Pattern::new(&pattern).matches(&name));
    Ok(())
}
