//! The fences that claim each component.

ghost use Rattle.std.specs.Prelude.{◌≡◌, IfOk, OnOk, length};
ghost use Rattle.lf_frame.specs.Teams.{fences, fence_names};
ghost use Rattle.lf_frame.specs.NameMaps.{HasAllValues};
ghost use Rattle.lf_frame.specs.ClaimTables.{IsTableOf, FindsClaimedTwice, FindsFirstClaimedTwice, FindsDuplicate, FindsTeam, claim_at};
ghost use Rattle.lf_frame.specs.Claims.{NumbersNames, NumbersOneMore};

use crate::claim::Claim;
use crate::claims::Claims;
use crate::component_names::first_second_name;
use crate::name_map::NameMap;
use crate::pattern_index::index_of;
use lf_def::{Component, Group, Region, is_fence, is_movable};
use lf_units::Name;
use std::alloc::{AllocError, Global};
use std::marker::Model;

/// Facts about the names of all components: the first that has the name of an earlier one, and the
/// fences that claim each. A contract sees these facts.
#[derive(Drop)]
pub struct ClaimTable {
    second: Option<usize>,
    claims: Claims,
    ground: usize,
}

impl Model for ClaimTable {
    ghost use Rattle.lf_frame.specs.ClaimTables.{ClaimFacts};

    ghost Value = { ClaimFacts };

    ghost view = { λ t. record { second = t.second; claims = t.claims; ground = t.ground } };
}

/// Adds the fence's number under its name, unless an earlier fence has the name.
fn put_fence(numbers: &mut NameMap<usize>, name: &Name, number: usize) -> Result<(), AllocError>
    requires { HasAllValues numbers.old }
    ensures { OnOk result (NumbersOneMore numbers.old numbers.new number name.now) }
{
    match numbers.get(name.as_bytes()) {
        Some(_) => (),
        None => numbers.put(name.as_bytes(), number)?,
    }
    Ok(())
}

/// Returns the number of each fence by its name, and the number of fences. `Err` if an allocation
/// fails.
fn number_fences(alloc: Global, regions: &[Region]) -> Result<(NameMap<usize>, usize), AllocError>
    ensures numbers { IfOk result (λ answer. NumbersNames (fence_names regions.now) answer.0) }
    ensures ground { IfOk result (λ answer. answer.1 ≡ length (fences regions.now)) }
{
    let mut numbers = NameMap::new(alloc);
    let mut count: usize = 0;
    for region in regions {
        if is_fence(region) {
            put_fence(&mut numbers, &region.name, count)?;
            count += 1;
        }
    }
    Ok((numbers, count))
}

/// Returns the table of these components, regions and groups. It has no claims if two components
/// have the same name. A group claims for the first fence with its region's name. `Err` if an
/// allocation fails.
pub fn claim_table(
    alloc: Global,
    components: &[Component],
    groups: &[Group],
    regions: &[Region],
) -> Result<ClaimTable, AllocError>
    ensures { IfOk result (λ table. IsTableOf regions.now groups.now components.now table) }
{
    let (numbers, ground) = number_fences(alloc, regions)?;
    let index = index_of(alloc, groups, &numbers)?;
    if let Some(claims) = index.claims_of(alloc, components)? {
        return Ok(ClaimTable {
            second: None,
            claims,
            ground,
        });
    }
    Ok(ClaimTable {
        second: first_second_name(alloc, components)?,
        claims: Claims::unclaimed(alloc, 0)?,
        ground,
    })
}

impl ClaimTable {
    /// Returns the number of the first component that has the name of an earlier one. `None` if and
    /// only if all names differ.
    pub fn first_duplicate(&self) -> Option<usize>
        ensures { FindsDuplicate self.now result }
    {
        self.second
    }

    /// Returns the team of the component with this number, if names differ and no two fences claim
    /// it. The team is the position of its fence among the fences, or the number of fences if no
    /// fence claims it.
    pub fn team_at(&self, number: usize) -> usize
        ensures { FindsTeam self.now number result }
    {
        match self.claims.claim_at(number) {
            Claim::ByOne(team) => team,
            Claim::Unclaimed => self.ground,
            Claim::ByTwo => self.ground,
        }
    }

    /// True if teams may move the component with this number, and groups of two different fences
    /// name it.
    fn is_claimed_twice(&self, number: usize, component: &Component) -> bool
        ensures { FindsClaimedTwice (claim_at self.now.claims number) component.now result }
    {
        match self.claims.claim_at(number) {
            Claim::ByTwo => is_movable(component),
            Claim::ByOne(_) => false,
            Claim::Unclaimed => false,
        }
    }
}

/// Returns the number of the first movable component that groups of two different fences name.
/// `None` if and only if there is no such component. The result is valid if no two components have
/// the same name and the table is that of the components.
pub fn first_claimed_twice(components: &[Component], table: &ClaimTable) -> Option<usize>
    ensures { FindsFirstClaimedTwice table.now components.now result }
{
    for (number, component) in components.iter().enumerate() {
        if table.is_claimed_twice(number, component) {
            return Some(number);
        }
    }
    None
}
