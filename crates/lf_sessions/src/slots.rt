//! The session slots of one team.

ghost use Rattle.std.specs.Prelude.{◌≡◌, ◌<◌, ◌≤◌, if◌then◌else◌, IfOk, IfSome, MatchOption, None, Some, is_none, is_some, length, position, replicate, slice_set};
ghost use Rattle.lf_sessions.specs.Slots.{seen_at};

use std::alloc::{AllocError, Global};
use std::marker::Model;

/// The session slots of one team. Their number fits into 32 bits.
#[derive(Drop)]
pub(crate) struct Slots {
    /// For each slot the revision that its session has seen; `None` if the slot is free.
    slots: Vec<Option<u32>>,
}

impl Model for Slots {
    ghost use Rattle.std.specs.Prelude.{◌≤◌, ℕ, List, Option, length};

    ghost Value = { List (Option ℕ) };

    ghost view = { λ s. s.slots.items };

    ghost invariant = { λ s. length s.slots.items ≤ 4294967295 };
}

/// Returns the least free slot. `None` if all slots are taken.
fn least_free(slots: &[Option<u32>]) -> Option<usize>
    ensures free { result ≡ position is_none slots.now }
    ensures within { IfSome result (λ session. session < length slots.now) }
{
    slots.iter().position(|slot| slot.is_none())
}

impl Slots {
    /// Returns `count` free slots. `Err` if an allocation fails.
    pub(crate) fn free(alloc: Global, count: u32) -> Result<Self, AllocError>
        ensures { IfOk result (λ slots. slots ≡ replicate count None) }
    {
        Ok(Slots {
            slots: vec![in alloc; None; count as usize]?,
        })
    }

    /// Returns these slots. Their number must fit into 32 bits.
    pub(crate) fn of(slots: Vec<Option<u32>>) -> Self
        requires { length slots.items ≤ 4294967295 }
        ensures { result ≡ slots.items }
    {
        Slots { slots }
    }

    /// Returns the slots, in their order.
    pub(crate) fn as_slice(&self) -> &[Option<u32>]
        ensures { result.now ≡ self.now }
    {
        self.slots.as_slice()
    }

    /// Takes the least free slot for a session that has seen this revision. `None` if all slots are
    /// taken.
    pub(crate) fn take(&mut self, revision: u32) -> Option<u32>
        ensures session { result ≡ position is_none self.old }
        ensures slots { MatchOption result (self.new ≡ self.old)
            (λ session. self.new ≡ slice_set self.old session (Some revision)) }
    {
        let session = least_free(&self.slots)?;
        self.slots[session] = Some(revision);
        Some(session as u32)
    }

    /// Returns the revision that a session has seen. `None` if the session is not open.
    pub(crate) fn seen(&self, session: u32) -> Option<u32>
        ensures { result ≡ seen_at self.now session }
    {
        match self.slots.get(session as usize) {
            Some(slot) => *slot,
            None => None,
        }
    }

    /// Sets the slot of an open session. Returns false if the session is not open.
    pub(crate) fn write_open(&mut self, session: u32, seen: Option<u32>) -> bool
        ensures open { result ≡ is_some (seen_at self.old session) }
        ensures slots { self.new ≡ (if result then slice_set self.old session seen else self.old) }
    {
        let open = self.seen(session).is_some();
        if open {
            self.slots[session as usize] = seen;
        }
        open
    }
}
