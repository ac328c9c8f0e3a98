//! The teams on which a task works.

ghost use Rattle.std.specs.Prelude.{◌≡◌, IfErr, OnOk, bytes_eq, is_some, map, position};
ghost use Rattle.lf_floor_model.specs.Teams.{team_number};
ghost use Rattle.lf_task_run.specs.Teams.{AreKnown, IsUnknown, is_selected};

use crate::progress::Progress;
use lf_floor::Floor;
use lf_floorplan::Frame;
use lf_legalize::IndexSeeker;
use lf_task_faults::Fault;

/// The first position of the name in the list. `None` if it is not in the list.
fn position_of(teams: &[&str], name: &[u8]) -> Option<usize>
    ensures { result ≡ position (λ team. bytes_eq team.now name.now) teams.now }
{
    teams.iter().position(|team| team.as_bytes() == name)
}

/// Returns whether the team with this name is selected: it is in the list, or the list is empty.
pub fn is_selected(teams: &[&str], name: &[u8]) -> bool
    ensures { result ≡ is_selected (map (λ team. team.now) teams.now) name.now }
{
    if teams.len() == 0 {
        return true;
    }
    position_of(teams, name).is_some()
}

/// Whether a team has this name.
fn is_known(floor: &Floor<IndexSeeker>, name: &[u8]) -> bool
    ensures { result ≡ is_some (team_number floor.now.frame name.now) }
{
    floor.team_number(name).is_some()
}

/// Checks that every name is a team's. `Err(NoTeam)` with the first one that is not.
pub fn all_known<'a>(floor: &Floor<IndexSeeker>, teams: &'a [&'a str]) -> Result<(), Fault<'a>>
    ensures ok { OnOk result (AreKnown floor.now.frame (map (λ team. team.now) teams.now)) }
    ensures err { IfErr result (IsUnknown floor.now.frame (map (λ team. team.now) teams.now)) }
{
    for team in teams {
        if !is_known(floor, team.as_bytes()) {
            return Err(Fault::NoTeam(team));
        }
    }
    Ok(())
}

/// Reports that work on the team with this name and number begins.
pub fn announce_team<P: Progress>(
    progress: &mut P,
    work: &'static str,
    frame: &Frame,
    name: &[u8],
    number: usize,
) {
    let (number, teams) = (number.saturating_add(1), frame.teams.len() + 1);
    progress.begin(work, name, number, teams);
}
