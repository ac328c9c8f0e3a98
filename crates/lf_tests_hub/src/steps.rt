//! Steps of a hub, for other modules.

use crate::counters::Counter;
use lf_hub::{Core, Progress};

/// The most turns of a test.
const TURNS: u32 = 10_000;

/// Has bytes come from a client. False if not all of them are taken.
pub(crate) fn send(core: &mut Core, slot: usize, bytes: &[u8]) -> bool {
    if core.client(slot).is_none() {
        return false;
    }
    match core.comes(slot, bytes) {
        Ok(count) => count == bytes.len(),
        Err(_) => false,
    }
}

/// Takes turns until nobody waits. False if an allocation fails, or somebody always waits.
pub(crate) fn answer_all(core: &mut Core, floor: &mut Counter, takes_changes: bool) -> bool {
    for _ in 0..TURNS {
        match core.answer(floor, takes_changes) {
            Ok(Progress::Idle) => return true,
            Ok(_) => {}
            Err(_) => return false,
        }
    }
    false
}

/// Returns whether these bytes may be sent to a client.
pub(crate) fn may_send(core: &Core, slot: usize, bytes: &[u8]) -> bool {
    match core.client(slot) {
        Some(client) => client.ready() == bytes,
        None => false,
    }
}

/// Returns how many bytes may be sent to a client.
pub(crate) fn ready_bytes(core: &Core, slot: usize) -> usize {
    match core.client(slot) {
        Some(client) => client.ready().len(),
        None => 0,
    }
}

/// Has a client leave. False if it has left already, or if an allocation fails.
pub(crate) fn leave(core: &mut Core, slot: usize) -> bool {
    if !core.is_live(slot) {
        return false;
    }
    core.leaves(slot).is_ok()
}
