//! The table of all teams' session slots.

ghost use Rattle.std.specs.Prelude.{◌≡◌, ◌<◌, ◌≤◌, if◌then◌else◌, IfOk, MatchOption, None, Some, is_none, is_some, length, position, replicate, slice_set};
ghost use Rattle.lf_sessions.specs.Slots.{seen_at, slots_of, with_slot};

use crate::slots::Slots;
use std::alloc::{AllocError, Global};
use std::marker::Model;

/// The session slots of all teams. A session is identified by its team and the number of its slot,
/// the first at 0.
///
/// Contracts see for each team the list of its slots: for each slot the revision that its session
/// has seen, `None` if the slot is free. Only `build` allocates.
#[derive(Drop)]
pub struct SessionTable {
    teams: Vec<Slots>,
}

impl Model for SessionTable {
    ghost use Rattle.std.specs.Prelude.{ℕ, List, Option};

    ghost Value = { List (List (Option ℕ)) };

    ghost view = { λ t. t.teams.items };
}

impl SessionTable {
    /// Returns a table of `teams` teams, each with `slots` slots, all free.
    ///
    /// `Err` if an allocation fails.
    pub fn build(alloc: Global, teams: usize, slots: u32) -> Result<SessionTable, AllocError>
        ensures { IfOk result (λ table. table ≡ replicate teams (replicate slots None)) }
    {
        let mut table = Vec::with_capacity(alloc, teams)?;
        for _ in 0..teams {
            table.push(Slots::free(alloc, slots)?)?;
        }
        Ok(SessionTable { teams: table })
    }

    /// Returns the slots of the team: for each the revision that its session has seen, `None` if it
    /// is free. The list is empty if there is no such team.
    pub fn slots(&self, team: usize) -> &[Option<u32>]
        ensures { result.now ≡ slots_of self.now team }
    {
        match self.teams.get(team) {
            Some(slots) => slots.as_slice(),
            None => &[],
        }
    }

    /// Replaces the slots of the team. Their number must fit into 32 bits. No other team's slots
    /// change.
    pub fn set_slots(&mut self, team: usize, slots: Vec<Option<u32>>)
        requires team { team < length self.old }
        requires few { length slots.items ≤ 4294967295 }
        ensures { self.new ≡ slice_set self.old team slots.items }
    {
        self.teams[team] = Slots::of(slots);
    }

    /// Opens a session of the team, which has seen this revision. Takes the team's least free slot
    /// and returns its number; no other slot changes. `None`, and no change, iff all slots are
    /// taken or there is no such team.
    pub fn take_slot(&mut self, team: usize, revision: u32) -> Option<u32>
        ensures session { result ≡ position is_none (slots_of self.old team) }
        ensures table { MatchOption result (self.new ≡ self.old)
            (λ session. self.new ≡ with_slot self.old team session (Some revision)) }
        ensures teams { length self.new ≡ length self.old }
    {
        self.teams.get_mut(team)?.take(revision)
    }

    /// Closes a session of the team and frees its slot; no other slot changes. Returns false, and
    /// changes nothing, iff the session is not open or there is no such team.
    pub fn free_slot(&mut self, team: usize, session: u32) -> bool
        ensures open { result ≡ is_some (seen_at (slots_of self.old team) session) }
        ensures table { self.new ≡ (if result then with_slot self.old team session None else self.old) }
        ensures teams { length self.new ≡ length self.old }
    {
        write_open(&mut self.teams, team, session, None)
    }

    /// Returns the revision that a session of the team has seen. `None` iff the session is not
    /// open, or there is no such team.
    pub fn seen(&self, team: usize, session: u32) -> Option<u32>
        ensures { result ≡ seen_at (slots_of self.now team) session }
    {
        self.teams.get(team)?.seen(session)
    }

    /// Sets the revision that an open session of the team has seen; no other slot changes. Returns
    /// false, and changes nothing, iff the session is not open or there is no such team.
    pub fn set_seen(&mut self, team: usize, session: u32, revision: u32) -> bool
        ensures open { result ≡ is_some (seen_at (slots_of self.old team) session) }
        ensures table { self.new ≡ (if result then with_slot self.old team session (Some revision) else self.old) }
        ensures teams { length self.new ≡ length self.old }
    {
        write_open(&mut self.teams, team, session, Some(revision))
    }
}

/// Sets the slot of an open session of the team. Returns false if the session is not open.
fn write_open(teams: &mut Vec<Slots>, team: usize, session: u32, seen: Option<u32>) -> bool
    ensures open { result ≡ is_some (seen_at (slots_of teams.old.items team) session) }
    ensures table { teams.new.items
        ≡ (if result then with_slot teams.old.items team session seen else teams.old.items) }
{
    match teams.get_mut(team) {
        Some(slots) => slots.write_open(session, seen),
        None => false,
    }
}
