//! Where the strips of each team begin in each row.

use crate::strip::Strip;
use std::alloc::{AllocError, Global};

/// The greatest number of entries of the table for each strip.
const MOST: usize = 4;

/// The rows from a team's first strip up to its last, and where their entries begin in the table.
#[derive(Clone, Copy)]
struct TeamRows {
    first: usize,
    end: usize,
    at: usize,
}

/// For each team, and each row from its first strip up to its last, the number of the team's first
/// strip in the row. The table is empty if it would be large next to the list of strips.
///
/// Contracts do not mention the numbers. A search tests the number that it gets.
#[derive(Drop)]
pub(crate) struct TeamStarts {
    teams: Vec<TeamRows>,
    starts: Vec<usize>,
}

/// Returns the rows of each team. `Err` if an allocation fails.
fn rows_of_teams(alloc: Global, strips: &[Strip]) -> Result<Vec<TeamRows>, AllocError> {
    let none = TeamRows {
        first: usize::MAX,
        end: 0,
        at: 0,
    };
    let mut teams = Vec::new(alloc);
    for strip in strips {
        if teams.len() <= strip.team {
            teams.resize(strip.team.saturating_add(1), none)?;
        }
        if let Some(rows) = teams.get_mut(strip.team) {
            rows.first = rows.first.min(strip.row);
            rows.end = rows.end.max(strip.row.saturating_add(1));
        }
    }
    Ok(teams)
}

/// Sets where the entries of each team begin. Returns the number of entries.
fn place_teams(teams: &mut Vec<TeamRows>) -> usize {
    let mut count = 0usize;
    for rows in teams.iter_mut() {
        rows.at = count;
        count = count.saturating_add(rows.end.saturating_sub(rows.first));
    }
    count
}

/// Returns the position of the entry of the row and the team. Unspecified if the team has no strip
/// in the row.
fn entry_of(teams: &[TeamRows], row: usize, team: usize) -> usize {
    match teams.get(team) {
        Some(rows) => rows.at.saturating_add(row.saturating_sub(rows.first)),
        None => usize::MAX,
    }
}

/// Writes the number of each team's first strip in each row to its entry.
fn write_starts(starts: &mut Vec<usize>, teams: &[TeamRows], strips: &[Strip]) {
    for (number, strip) in strips.iter().enumerate() {
        if let Some(start) = starts.get_mut(entry_of(teams, strip.row, strip.team)) {
            *start = number.min(*start);
        }
    }
}

impl TeamStarts {
    /// Returns the table for these strips. `Err` if an allocation fails.
    pub(crate) fn build(alloc: Global, strips: &[Strip]) -> Result<Self, AllocError> {
        let mut teams = rows_of_teams(alloc, strips)?;
        let count = place_teams(&mut teams);
        let mut starts = Vec::new(alloc);
        if count <= strips.len().saturating_mul(MOST) {
            starts.resize(count, usize::MAX)?;
        }
        write_starts(&mut starts, &teams, strips);
        Ok(TeamStarts { teams, starts })
    }

    /// Returns the number of the team's first strip in the row. Unspecified if there is no such
    /// strip, or the table is empty.
    pub(crate) fn start_of(&self, row: usize, team: usize) -> usize {
        match self.starts.get(entry_of(&self.teams, row, team)) {
            Some(start) => *start,
            None => usize::MAX,
        }
    }
}
