//! The verb `swap`.

ghost use Rattle.std.specs.Prelude.{◌≡◌, IfOk, None, OnErr, Some};
ghost use Rattle.lf_rules.specs.Legalizer.{Legalizer};
ghost use Rattle.lf_cells.specs.Cells.{cells_of, working_at};
ghost use Rattle.lf_undo.specs.Stacks.{HasRoomForEntry};
ghost use Rattle.lf_placement.specs.Placements.{Fits, IsBrokenFrameRule, IsBrokenAt, moves_applied, working_places_of};
ghost use Rattle.lf_floor_model.specs.Outcomes.{IsOutcome, IsOutOfMemory};
ghost use Rattle.lf_floor_model.specs.Teams.{team_rules};
ghost use Rattle.lf_floor_model.specs.Changes.{broken_where, swapped};
ghost use Rattle.lf_floor_verbs.specs.Tables.{CanChange, EntriesFit, KeepsOtherTeams, table_cells, frame_of, own_team, context_in, team_in};
ghost use Rattle.lf_floor_verbs.specs.Swapping.{IsExchange, IsExchanged, exchange_moves, illegal_by, swap_refusal, swapped_here};

use crate::context::TeamContext;
use crate::tables::Tables;
use lf_cells::CellId;
use lf_floorplan::Place;
use lf_placement::Placement;
use lf_proto::{Refusal, Reply};
use lf_rules::{Broken, Padding, Rule, verdict_is_unique};
use lf_undo::{Move, Moves};
use std::alloc::{AllocError, Global};

/// Two cells of a team and the working place of each, which becomes the place of the other.
#[derive(Clone, Copy)]
struct Exchange {
    first: CellId,
    second: CellId,
    from: Place,
    to: Place,
}

/// The two moves of the exchange.
///
/// `Err` if an allocation fails.
fn exchange_moves(alloc: Global, exchange: &Exchange) -> Result<Moves, AllocError>
    ensures { IfOk result (λ moves. moves ≡ exchange_moves exchange.now) }
{
    let mut moves = Moves::new(alloc);
    moves.push(Move::new(exchange.first.own, Some(exchange.to)))?;
    moves.push(Move::new(exchange.second.own, Some(exchange.from)))?;
    Ok(moves)
}

/// Returns the first rule that a cell breaks at the place. `alone` is the first rule except overlap
/// that it breaks there.
fn broken_beside(
    placement: &Placement,
    id: CellId,
    place: &Place,
    alone: Option<Rule>,
    padding: Padding,
) -> Option<Broken>
    requires { IsBrokenFrameRule placement.now id place.now alone }
    ensures { IsBrokenAt placement.now padding.sites id place.now result }
{
    if let Some(rule) = alone {
        return Some(Broken { rule, other: None });
    }
    let own = placement.first_overlapping(id, place, padding)?;
    Some(Broken {
        rule: Rule::Overlap,
        other: Some(own),
    })
}

/// The refusal of a cell that breaks this rule.
fn illegal_by(broken: Option<Broken>, own: u32) -> Option<Refusal>
    ensures { result ≡ illegal_by broken own }
{
    let broken = broken?;
    Some(Refusal::Illegal {
        rule: broken.rule,
        cell: own,
        other: broken.other,
    })
}

/// Returns the refusal of a cell at this place, which is its working place. `alone` is the first
/// rule except overlap that it breaks there. `None` if it breaks no rule.
fn refusal_at(
    placement: &Placement,
    id: CellId,
    place: &Place,
    alone: Option<Rule>,
    padding: Padding,
) -> Option<Refusal>
    requires alone { IsBrokenFrameRule placement.now id place.now alone }
    requires there { working_at (cells_of placement.now.cells id.team) id.own ≡ Some place.now }
    ensures { (l : Legalizer) → result ≡ illegal_by
        (broken_where (team_rules l placement.now.frame id.team padding.sites)
        (cells_of placement.now.cells id.team) id.own) id.own }
{
    verdict_is_unique();
    placement.cells_are_sized();
    illegal_by(broken_beside(placement, id, place, alone, padding), id.own)
}

/// Returns the refusal of two exchanged cells; the first is tested first. The first breaks no rule
/// except overlap, and `alone` is the first rule except overlap that the second breaks. `None` if
/// neither breaks a rule.
fn refusal_of(
    placement: &Placement,
    exchange: &Exchange,
    alone: Option<Rule>,
    padding: Padding,
) -> Option<Refusal>
    requires { IsExchanged placement.now exchange.now alone }
    ensures { (l : Legalizer) → result
        ≡ swap_refusal (team_rules l placement.now.frame exchange.now.first.team padding.sites)
        (cells_of placement.now.cells exchange.now.first.team) exchange.now.first.own exchange.now.second.own }
{
    match refusal_at(placement, exchange.first, &exchange.to, None, padding) {
        Some(refusal) => Some(refusal),
        None => refusal_at(placement, exchange.second, &exchange.from, alone, padding),
    }
}

impl Tables {
    /// Exchanges two cells by their moves, for which there is room. If a cell then breaks a rule,
    /// moves both back and refuses with `Illegal`. Does not allocate.
    fn exchange(
        &mut self,
        session: u32,
        exchange: &Exchange,
        moves: Moves,
        alone: Option<Rule>,
        padding: Padding,
    ) -> Reply
        requires change { CanChange exchange.now.first.team session self.old }
        requires room { HasRoomForEntry self.old.undo exchange.now.first.team }
        requires fits { Fits self.old.placement exchange.now.first.team
            (working_places_of (moves_applied moves (table_cells exchange.now.first.team self.old))) }
        requires are { IsExchange exchange.now.first.team (table_cells exchange.now.first.team self.old) exchange.now }
        requires moves { moves ≡ exchange_moves exchange.now }
        requires first { IsBrokenFrameRule self.old.placement exchange.now.first exchange.now.to None }
        requires second { IsBrokenFrameRule self.old.placement exchange.now.second exchange.now.from alone }
        ensures team { (l : Legalizer) → IsOutcome
            (swapped_here (team_rules l (frame_of self.old) exchange.now.first.team padding.sites) session
            exchange.now.first.own exchange.now.second.own
            (own_team exchange.now.first.team self.old)) result (own_team exchange.now.first.team self.new) }
        ensures others { KeepsOtherTeams exchange.now.first.team self.old self.new }
        ensures fit { EntriesFit exchange.now.first.team self.new }
    {
        let number = exchange.first.team as usize;
        let mut moves = moves;
        self.placement.boxes_match_places();
        self.placement.apply(number, &mut moves, 0);
        match refusal_of(&self.placement, exchange, alone, padding) {
            None => Reply::Revision(self.push_undo(number, session, moves)),
            Some(refusal) => {
                self.placement.undo_moves(number, &moves);
                Reply::Refused(refusal)
            }
        }
    }

    /// Exchanges the places of two placed cells of the team. Refuses with `Illegal` if a cell then
    /// breaks a rule. If the first breaks a rule except overlap at its new place, the cells are not
    /// moved at all.
    ///
    /// `Err` if an allocation fails; then the team is unchanged.
    fn swap_placed<S>(
        &mut self,
        context: &TeamContext<'_, S>,
        session: u32,
        exchange: &Exchange,
    ) -> Result<Reply, AllocError>
        requires change { CanChange context.now.number session self.old }
        requires are { IsExchange context.now.number (table_cells context.now.number self.old) exchange.now }
        ensures ok { (l : Legalizer) → IfOk result (λ reply. IsOutcome
            (swapped_here (context_in l context.now self.old) session exchange.now.first.own exchange.now.second.own
            (team_in context.now self.old))
            reply (team_in context.now self.new)) }
        ensures err { OnErr result (team_in context.now self.new ≡ team_in context.now self.old) }
        ensures others { KeepsOtherTeams context.now.number self.old self.new }
        ensures fit { EntriesFit context.now.number self.new }
    {
        let Exchange {
            first,
            second,
            from,
            to,
        } = *exchange;
        verdict_is_unique();
        self.placement.cells_are_sized();
        let alone = self.placement.broken_frame_rule(first, &to);
        if let Some(rule) = alone {
            return Ok(Reply::Refused(Refusal::Illegal {
                rule,
                cell: first.own,
                other: None,
            }));
        }
        let alone = self.placement.broken_frame_rule(second, &from);
        let moves = exchange_moves(context.alloc, exchange)?;
        self.reserve_moves(context.alloc, context.number, moves.as_slice())?;
        Ok(self.exchange(session, exchange, moves, alone, context.padding))
    }

    /// Exchanges the places of two cells. For each of these reasons the first cell is tested first.
    ///
    /// - `NoCell` if the team has no cell of a name
    /// - then `Unplaced` if a cell is unplaced
    /// - then `Illegal` if a cell breaks a rule at its new place
    ///
    /// `Err` if an allocation fails; then the team is unchanged.
    #[tactic(auto, unfolding(lf_floor_model::specs::Changes::swapped))]
    pub(crate) fn swap<S>(
        &mut self,
        context: &TeamContext<'_, S>,
        session: u32,
        first: &[u8],
        second: &[u8],
    ) -> Result<Reply, AllocError>
        requires change { CanChange context.now.number session self.old }
        ensures ok { (l : Legalizer) → IfOk result (λ reply. IsOutcome
            (swapped (context_in l context.now self.old) session first.now second.now (team_in context.now self.old))
            reply (team_in context.now self.new)) }
        ensures err { (l : Legalizer) → OnErr result (IsOutOfMemory
            (swapped (context_in l context.now self.old) session first.now second.now (team_in context.now self.old))
            (team_in context.now self.old) (team_in context.now self.new)) }
        ensures others { KeepsOtherTeams context.now.number self.old self.new }
        ensures fit { EntriesFit context.now.number self.new }
    {
        let Some(first) = self.cell_named(context.number, first) else {
            return Ok(Reply::Refused(Refusal::NoCell));
        };
        let Some(second) = self.cell_named(context.number, second) else {
            return Ok(Reply::Refused(Refusal::NoCell));
        };
        let Some(from) = self.working(first) else {
            return Ok(Reply::Refused(Refusal::Unplaced { cell: first.own }));
        };
        let Some(to) = self.working(second) else {
            return Ok(Reply::Refused(Refusal::Unplaced { cell: second.own }));
        };
        let exchange = Exchange {
            first,
            second,
            from,
            to,
        };
        self.swap_placed(context, session, &exchange)
    }
}
