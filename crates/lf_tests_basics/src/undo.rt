//! Undo entries if memory is refused, and at their limit.

ghost use Rattle.std.specs.Prelude.{◌≡◌, ◌<◌, length};

use crate::heaps::take_all;
use lf_floorplan::Place;
use lf_orient::Orient;
use lf_undo::{Move, Moves, UndoStore};
use linked_list_allocator::LocalHeap;
use std::alloc::Global;
use std::test::Fail;

/// Returns a move of a cell from (3, 4).
fn moved(own: u32) -> Move {
    Move::new(own, Some(Place::new(3, 4, Orient::S)))
}

/// Returns the moves of a command that moved only this cell.
fn one_move<'a>(heap: &'a LocalHeap, own: u32) -> Result<Moves<&'a LocalHeap>, Fail> {
    let mut moves = Moves::new(heap);
    moves.push(moved(own))?;
    Ok(moves)
}

/// True if these are the moves of a command that moved only this cell.
fn is_of(moves: &Moves<&LocalHeap>, own: u32) -> bool {
    moves.as_slice() == [moved(own)].as_slice()
}

/// True if the team has one entry, of a command that moved only this cell.
fn has_only(store: &UndoStore<&LocalHeap>, team: usize, own: u32) -> bool
    requires { team < length store.now.lists }
{
    match store.front(team) {
        Some(front) => store.depth(team) == 1 && is_of(front, own),
        None => false,
    }
}

/// Pushes entries without moves onto the first team's stack, until there is no room for one more.
fn fill<'a>(store: &mut UndoStore<&'a LocalHeap>, heap: &'a LocalHeap)
    requires { 0 < length store.old.lists }
    ensures { length store.new.lists ≡ length store.old.lists }
{
    for _ in 0..64 {
        if store.push(0, Moves::new(heap)).is_err() {
            return;
        }
    }
}

/// What is tested when no memory is left.
#[derive(Clone, Copy)]
enum Case {
    /// The room of one team's removed entry serves for another team's entry.
    RoomOfAnother,
    /// Room is refused while the store is full, and can be reserved after an entry is removed.
    RoomMade,
    /// An entry that finds no room is returned, and the team's other entries are unchanged.
    NoRoom,
    /// At the limit the team's oldest entry is dropped.
    Limit,
}

fn serves_another<'a>(store: &mut UndoStore<&'a LocalHeap>, second: Moves<&'a LocalHeap>) -> bool
    requires { length store.old.lists ≡ 2 }
{
    let popped = store.pop(0);
    popped.is_some() && store.push(1, second).is_ok() && has_only(store, 1, 2)
}

fn is_made<'a>(store: &mut UndoStore<&'a LocalHeap>, second: Moves<&'a LocalHeap>) -> bool
    requires { length store.old.lists ≡ 2 }
{
    if store.reserve(1).is_ok() {
        return false;
    }
    let popped = store.pop(0);
    popped.is_some()
        && store.reserve(1).is_ok()
        && store.push(1, second).is_ok()
        && has_only(store, 1, 2)
}

fn comes_back<'a>(store: &mut UndoStore<&'a LocalHeap>, second: Moves<&'a LocalHeap>) -> bool
    requires { length store.old.lists ≡ 2 }
{
    match store.push(1, second) {
        Ok(()) => false,
        Err(back) => is_of(&back, 2) && has_only(store, 1, 1),
    }
}

fn takes_the_place<'a>(store: &mut UndoStore<&'a LocalHeap>, second: Moves<&'a LocalHeap>) -> bool
    requires { length store.old.lists ≡ 2 }
{
    if store.reserve(1).is_err() || store.push(1, second).is_err() || !has_only(store, 1, 2) {
        return false;
    }
    match store.pop(1) {
        Some(popped) => is_of(&popped, 2),
        None => false,
    }
}

/// True if the store of two teams behaves as in the case, when no memory is left for a second
/// entry.
fn answers<'a>(
    store: &mut UndoStore<&'a LocalHeap>,
    heap: &'a LocalHeap,
    second: Moves<&'a LocalHeap>,
    case: Case,
) -> bool
    requires { length store.old.lists ≡ 2 }
{
    fill(store, heap);
    match case {
        Case::RoomOfAnother => serves_another(store, second),
        Case::RoomMade => is_made(store, second),
        Case::NoRoom => comes_back(store, second),
        Case::Limit => takes_the_place(store, second),
    }
}

/// The same with one entry in the store, and all memory of the heap in use.
fn answers_when_full<'a>(
    alloc: Global,
    store: &mut UndoStore<&'a LocalHeap>,
    heap: &'a LocalHeap,
    team: usize,
    case: Case,
) -> Result<bool, Fail>
    requires lists { length store.old.lists ≡ 2 }
    requires team { team < 2 }
{
    let second = one_move(heap, 2)?;
    if store.push(team, one_move(heap, 1)?).is_err() {
        return Ok(false);
    }
    let _blocks = take_all(alloc, heap)?;
    Ok(answers(store, heap, second, case))
}

/// The same for a store in a heap of its own.
fn holds(alloc: Global, limit: usize, team: usize, case: Case) -> Result<bool, Fail>
    requires limit { 0 < limit }
    requires team { team < 2 }
{
    let heap = LocalHeap::new(alloc, 8192)?;
    let mut store: UndoStore<&LocalHeap> = UndoStore::build(&heap, 2, limit)?;
    answers_when_full(alloc, &mut store, &heap, team, case)
}

/// True if each of two removed entries leaves its room. They are removed while there is memory, and
/// others are pushed when no memory is left.
fn leave_their_rooms(alloc: Global) -> Result<bool, Fail> {
    let heap = LocalHeap::new(alloc, 8192)?;
    let mut store: UndoStore<&LocalHeap> = UndoStore::build(&heap, 2, 64)?;
    let second = one_move(&heap, 2)?;
    if store.push(1, one_move(&heap, 1)?).is_err() {
        return Ok(false);
    }
    let blocks = take_all(alloc, &heap)?;
    fill(&mut store, &heap);
    drop(blocks);
    let (Some(first), Some(_)) = (store.pop(0), store.pop(1)) else {
        return Ok(false);
    };
    let _blocks = take_all(alloc, &heap)?;
    let both = store.push(1, second).is_ok() && store.push(0, first).is_ok();
    Ok(both && has_only(&store, 1, 2))
}

/// Pushes an entry without moves onto the stack of each team from the third on, until there is no
/// room for one more. Returns the last team that has an entry, or the second team if no team from
/// the third on has one.
fn fill_teams<'a>(store: &mut UndoStore<&'a LocalHeap>, heap: &'a LocalHeap) -> usize
    requires { length store.old.lists ≡ 16 }
    ensures teams { length store.new.lists ≡ 16 }
    ensures last { result < 16 }
{
    let mut last = 1;
    for team in 2..16 {
        if store.push(team, Moves::new(heap)).is_err() {
            return last;
        }
        last = team;
    }
    last
}

/// True if a team's removed entry leaves its room, even if another team, whose stack is at its
/// limit, gets an entry then. Both happen while there is memory, and another entry is pushed when
/// no memory is left.
fn stays_at_the_limit(alloc: Global) -> Result<bool, Fail> {
    let heap = LocalHeap::new(alloc, 8192)?;
    let mut store: UndoStore<&LocalHeap> = UndoStore::build(&heap, 16, 1)?;
    let second = one_move(&heap, 2)?;
    if store.push(1, one_move(&heap, 1)?).is_err() {
        return Ok(false);
    }
    let blocks = take_all(alloc, &heap)?;
    let last = fill_teams(&mut store, &heap);
    drop(blocks);
    let popped = store.pop(last);
    if popped.is_none() || store.push(1, second).is_err() {
        return Ok(false);
    }
    let _blocks = take_all(alloc, &heap)?;
    Ok(store.push(last, Moves::new(&heap)).is_ok() && has_only(&store, 1, 2))
}

/// True if the first team's removed entry leaves room for one of the second team that was made
/// earlier.
fn leaves_its_room(alloc: Global) -> Result<bool, Fail> {
    let heap = LocalHeap::new(alloc, 8192)?;
    let mut store: UndoStore<&LocalHeap> = UndoStore::build(&heap, 2, 1)?;
    let second = one_move(&heap, 2)?;
    if store.push(0, one_move(&heap, 1)?).is_err() {
        return Ok(false);
    }
    let _blocks = take_all(alloc, &heap)?;
    let popped = store.pop(0);
    Ok(popped.is_some() && store.push(1, second).is_ok() && has_only(&store, 1, 2))
}

/// True if an entry finds the room that was reserved for it while there was memory.
fn finds_its_room(alloc: Global) -> Result<bool, Fail> {
    let heap = LocalHeap::new(alloc, 8192)?;
    let mut store: UndoStore<&LocalHeap> = UndoStore::build(&heap, 2, 1)?;
    let second = one_move(&heap, 2)?;
    store.reserve(1)?;
    let _blocks = take_all(alloc, &heap)?;
    Ok(store.push(1, second).is_ok() && has_only(&store, 1, 2))
}

#[test]
fn entries_where_no_memory_is_left(rt: HostRuntime) -> Result<(), Fail> {
    assert!(rt; holds(rt.alloc(), 64, 0, Case::RoomOfAnother)?);
    assert!(rt; holds(rt.alloc(), 64, 0, Case::RoomMade)?);
    assert!(rt; holds(rt.alloc(), 64, 1, Case::NoRoom)?);
    assert!(rt; holds(rt.alloc(), 1, 1, Case::Limit)?);
    assert!(rt; leave_their_rooms(rt.alloc())?);
    assert!(rt; stays_at_the_limit(rt.alloc())?);
    assert!(rt; leaves_its_room(rt.alloc())?);
    assert!(rt; finds_its_room(rt.alloc())?);
    Ok(())
}
