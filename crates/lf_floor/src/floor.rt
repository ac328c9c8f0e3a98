//! The floor of all teams.

ghost use Rattle.std.specs.Prelude.{◌≡◌, ◌↔◌, ◌<◌, ◌≤◌, ◌+◌, ◌++◌, ◌∷◌, [], bytes_eq, position, ℕ, List, All};
ghost use Rattle.std.specs.Prelude.{IfOk, IfSome, OnOk, OnErr, Some, false, option_and_then, option_map, replicate, true, length, vec_len, vec_capacity};
ghost use Rattle.lf_floorplan.specs.Bounds.{IsDesignName};
ghost use Rattle.lf_floorplan.specs.Fences.{ground_name};
ghost use Rattle.lf_rules.specs.Legalizer.{Legalizer};
ghost use Rattle.lf_rules.specs.FullyLegal.{IsFullyLegal};
ghost use Rattle.lf_proto.specs.Commands.{command_with_names, order_of};
ghost use Rattle.lf_floor_model.specs.States.{TeamState};
ghost use Rattle.lf_floor_model.specs.Places.{AreCommittedPlaces};
ghost use Rattle.lf_floor.specs.Working.{ListsWorkingPlaces};
ghost use Rattle.lf_floor_verbs.specs.Tables.{AreTables, floor_in, frame_of};
ghost use Rattle.lf_floor_model.specs.Teams.{IsTeamOf, team_number, state_of};
ghost use Rattle.lf_floor_model.specs.Outcomes.{name_at};
ghost use Rattle.lf_cells.specs.Cells.{working_at};
ghost use Rattle.lf_floor_model.specs.Verbs.{is_tested, takes_memory};
ghost use Rattle.lf_floor_model.specs.Designs.{initial_floor};
ghost use Rattle.lf_floor_model.specs.Runs.{Run, IsIsolated};
ghost use Rattle.lf_floor_model.specs.Journals.{IsBackup, AreOmittable, lasting, lasting_replies};
ghost use Rattle.lf_floor_model.specs.Committed.{IsCommittedLegal, AreAtLoadedPlaces, loaded_design};
ghost use Rattle.lf_floor_model.specs.CommittedRuns.{CommitsMakeLegal, EachTidiedCommits, LegalRun};
ghost use Rattle.lf_floor_model.specs.Steps.{IsAnswerOf, CommitsLegally, IsGivenAnswer, KeepsIfRefused, LegalizesLegally, PlacesLegally, SwapsLegally, TidiesLegally};
ghost use Rattle.lf_floor_model.specs.Steps.{IsOutOfMemoryAnswer, MayRunOutOfMemory, Step, IsTo, answer_at};

use crate::cell_places::{CellPlaces, PlaceKind, all_committed, places_of};
use lf_floor_verbs::{Tables, TeamContext};
use lf_floorplan::{Frame, Loaded, Place};
use lf_legalize::Seeker;
use lf_proto::{Command, Refusal, Reply, Request, RequestList, TeamCommand};
use lf_rules::{legal_in_range, legalizer_exists};
use std::alloc::{AllocError, Global};
use std::marker::Model;

/// The teams of a design in their common frame: the fence teams in the frame's order, then `-`, the
/// ground team outside all fences.
///
/// Contracts see the frame, each team's state and the positions of the cells' entries among all
/// COMPONENTS. The replies do not depend on how best places are searched for.
///
/// A floor guarantees of each team:
///
/// - The names of its cells differ and are names of a text.
/// - The numbers of undo entries and revisions are within the limits.
/// - Each undo entry has a place for each cell.
/// - No session has seen a revision above the team's.
#[derive(Drop)]
pub struct Floor<S: Seeker> {
    pub(crate) alloc: Global,
    pub(crate) seeker: S,
    pub(crate) tables: Tables,
}

impl<S: Seeker> Model for Floor<S> {
    ghost use Rattle.lf_floor_model.specs.States.{FloorState};
    ghost use Rattle.lf_floor_verbs.specs.Tables.{AreTables, floor_in};

    ghost Value = { FloorState };

    ghost view = { λ f. floor_in f.tables };

    ghost invariant = { λ f. AreTables f.tables };
}

/// Returns true if this is the name of the ground team, `-`.
fn is_outside(name: &[u8]) -> bool
    ensures { result ≡ bytes_eq ground_name name.now }
{
    matches!(name, [b'-'])
}

/// Returns the number of the team of that name: the fence teams in the frame's order, then the one
/// named `-`. `None` if no team has the name.
pub(crate) fn team_with_name(frame: &Frame, name: &[u8]) -> Option<usize>
    ensures found { result ≡ team_number frame.now name.now }
    ensures within { IfSome result (λ number. number < length frame.now.teams + 1) }
{
    match fence_named(frame, name) {
        Some(number) => Some(number),
        None => {
            if !is_outside(name) {
                return None;
            }
            Some(frame.teams.len())
        }
    }
}

/// Returns the number of the fence of that name. `None` if no fence has the name.
fn fence_named(frame: &Frame, name: &[u8]) -> Option<usize>
    ensures found { result ≡ position (λ t. bytes_eq t.name name.now) frame.now.teams }
    ensures within { IfSome result (λ number. number < length frame.now.teams) }
{
    frame
        .teams
        .as_slice()
        .iter()
        .position(|team| team.name.is(name))
}

/// Runs a command of the team of that number.
///
/// `Err` if an allocation fails; then the floor is unchanged.
fn run_team_command<S: Seeker>(
    alloc: Global,
    seeker: &S,
    number: usize,
    tables: &mut Tables,
    command: &TeamCommand<&[u8]>,
) -> Result<Reply, AllocError>
    requires within { number < length (frame_of tables.old).teams + 1 }
    requires tables { AreTables tables.old }
    ensures ok { (l : Legalizer) → IfOk result (λ reply. IsGivenAnswer
        (answer_at (Some number) l (floor_in tables.old) (order_of command.now)) reply (floor_in tables.new)) }
    ensures err { (l : Legalizer) → OnErr result (IsOutOfMemoryAnswer
        (answer_at (Some number) l (floor_in tables.old) (order_of command.now)) (floor_in tables.old)
        (floor_in tables.new)) }
    ensures takes { OnErr result (takes_memory (order_of command.now) ≡ true) }
    ensures untested { (l : Legalizer) → OnErr result (is_tested (order_of command.now)
        (answer_at (Some number) l (floor_in tables.old) (order_of command.now)).reply ≡ false) }
    ensures frame { frame_of tables.new ≡ frame_of tables.old }
    ensures tables { AreTables tables.new }
{
    legalizer_exists();
    let context = TeamContext {
        alloc,
        seeker,
        number,
        padding: tables.padding(number),
    };
    tables.run_command(&context, command)
}

/// Appends a reply, for which there is room.
fn push_within(replies: &mut Vec<Reply>, reply: Reply)
    requires { vec_len replies.old < vec_capacity replies.old }
    ensures items { replies.new.items ≡ replies.old.items ++ reply ∷ [] }
    ensures len { vec_len replies.new ≡ vec_len replies.old + 1 }
    ensures room { vec_capacity replies.old ≤ vec_capacity replies.new }
{
    if replies.push(reply).is_err() {
        unreachable!();
    }
}

impl<S: Seeker + Drop> Floor<S> {
    /// Makes the floor of a design as loaded. Each team has its own cells at their places in the
    /// DEF text, which are committed. Its revision is 0, it has no undo entry and no open session.
    /// `seeker` is the search for best places. The committed design is fully legal if and only if
    /// the loaded design is.
    ///
    /// `Err` if an allocation fails; the design and the seeker are then dropped.
    pub fn start(alloc: Global, loaded: Loaded, seeker: S) -> Result<Floor<S>, AllocError>
        ensures opens { IfOk result (λ floor. floor ≡ initial_floor loaded) }
        ensures committed { IfOk result (λ floor. AreAtLoadedPlaces loaded floor) }
        ensures legal { IfOk result (λ floor. IsCommittedLegal floor
            ↔ IsFullyLegal loaded.frame (loaded_design loaded)) }
    {
        let tables = Tables::initial(alloc, loaded)?;
        Ok(Floor {
            alloc,
            seeker,
            tables,
        })
    }

    /// Returns the working place of the team's cell at that position in loading order, the first at
    /// 0.
    ///
    /// `None` if the cell is unplaced, the team has no such cell, or there is no such team.
    pub fn place_of(&self, team: &[u8], own: usize) -> Option<Place>
        ensures { result ≡ option_and_then (λ s. working_at s.cells own) (state_of self.now team.now) }
    {
        let number = team_with_name(self.tables.placement.frame(), team)?;
        self.tables.working(self.tables.cell_at(number, own)?)
    }

    /// Returns the name of the team's cell at that position in loading order, the first at 0.
    /// Replies name cells by these positions. The name is a name of a text.
    ///
    /// `None` if the team has no such cell, or there is no such team.
    pub fn name_of(&self, team: &[u8], own: usize) -> Option<&[u8]>
        ensures name { option_map (λ name. name.now) result
            ≡ option_and_then (λ s. name_at s.cells own) (state_of self.now team.now) }
        ensures printed { IfSome result (λ name. IsDesignName name.now) }
    {
        let number = team_with_name(self.tables.placement.frame(), team)?;
        let id = self.tables.cell_at(number, own)?;
        Some(self.tables.placement.cells().cell(id)?.name)
    }

    /// Returns all movable components: the positions of their entries among all COMPONENTS of the
    /// DEF text, ascending, each with the committed place of its cell. The place is `None` if the
    /// cell has no committed place.
    ///
    /// `Err` if an allocation fails.
    pub fn committed_places(&self) -> Result<Vec<(usize, Option<Place>)>, AllocError>
        ensures { IfOk result (λ places. AreCommittedPlaces self.now places.items) }
    {
        all_committed(self.alloc, self.tables.placement.cells())
    }

    /// The same list, without allocating: its places are looked up one by one.
    pub fn committed(&self) -> CellPlaces<'_>
        ensures { AreCommittedPlaces self.now result }
    {
        places_of(self.tables.placement.cells(), PlaceKind::Committed)
    }

    /// The same list with the working places of the cells, committed or not.
    pub fn working(&self) -> CellPlaces<'_>
        ensures { ListsWorkingPlaces self.now result }
    {
        places_of(self.tables.placement.cells(), PlaceKind::Working)
    }

    /// A law: each team of a floor is a team of its frame, whatever commands the floor has run. Its
    /// cells' macros and names, and the numbers of its cells, session slots, undo entries and
    /// revisions, are within the frame's limits. No session has seen a revision above the team's.
    ///
    /// The laws on runs require this of the floor at the start, as `run_stays_legal` does. Call
    /// this before them.
    pub fn teams_match_frame(&self)
        ensures { All (λ s. IsTeamOf self.now.frame s) self.now.teams }
    {
        let _ = &self.tables;
    }
}

impl<S: Seeker + Drop> Floor<S> {
    /// Runs one command.
    ///
    /// `Err` if an allocation fails; then the floor is unchanged.
    fn try_step(&mut self, request: &Request) -> Result<Reply, AllocError>
        ensures ok { (l : Legalizer)
            → IfOk result (λ reply. IsAnswerOf l self.old (command_with_names request.now) reply self.new) }
        ensures err { (l : Legalizer)
            → OnErr result (MayRunOutOfMemory l self.old (command_with_names request.now) self.new) }
    {
        match request {
            Command::Bye => Ok(Reply::Done),
            Command::To { team, order } => {
                let Some(number) = team_with_name(self.tables.placement.frame(), team) else {
                    return Ok(Reply::Refused(Refusal::NoTeam));
                };
                run_team_command(self.alloc, &self.seeker, number, &mut self.tables, order)
            }
        }
    }

    /// Runs one command by the rules (`Step` of `lf_floor_model`). The reply depends on the state
    /// of the named team alone. No other team changes, nor the frame, nor the positions of
    /// components.
    ///
    /// `NoTeam` comes before all refusals of a team. A refusal leaves the whole floor unchanged.
    /// `OutOfMemory` replaces only the reply to an accepted change, a broken rule, a best place or
    /// the lack of one, a report or a DEF text. It never replaces the reply to an undo or a pad,
    /// nor to a place that breaks a rule.
    ///
    /// After an accepted place or legalize the cell is team-legal, after a swap both cells are, and
    /// after a tidy or a commit every cell of the team is. A fully legal committed design stays so
    /// after any command.
    pub fn step(&mut self, request: &Request) -> Reply
        ensures step { (l : Legalizer) → Step l self.old (command_with_names request.now) result self.new }
        ensures others { (team : List ℕ) → ¬ IsTo team (command_with_names request.now)
            → state_of self.new team ≡ state_of self.old team }
        ensures frame { self.new.frame ≡ self.old.frame }
        ensures components { self.new.components ≡ self.old.components }
        ensures placed { (l : Legalizer) → PlacesLegally l (command_with_names request.now) result self.new }
        ensures legalized { (l : Legalizer) → LegalizesLegally l (command_with_names request.now) result self.new }
        ensures tidied { (l : Legalizer) → TidiesLegally l (command_with_names request.now) result self.new }
        ensures swapped { (l : Legalizer) → SwapsLegally l (command_with_names request.now) result self.new }
        ensures committed { (l : Legalizer) → CommitsLegally l (command_with_names request.now) result self.new }
        ensures legal { IsCommittedLegal self.old → IsCommittedLegal self.new }
        ensures refused { KeepsIfRefused result self.old self.new }
    {
        legalizer_exists();
        legal_in_range();
        self.teams_match_frame();
        match self.try_step(request) {
            Ok(reply) => reply,
            Err(_) => Reply::Refused(Refusal::OutOfMemory),
        }
    }

    /// Runs requests in order, each as `step` does, with one reply to each. Each team's replies and
    /// its last state are those of its own requests alone, run in order.
    ///
    /// A fully legal committed design is so after each of them. Otherwise it is fully legal at the
    /// end if a commit of each team that has a cell was accepted. A commit that is a team's next
    /// accepted change after a tidy is never refused for a cell.
    ///
    /// Refused requests (`OutOfMemory` included) and queries (bye, check, def, where, find) may be
    /// left out. The remaining requests, run from the same floor, get the same replies and end in
    /// the same floor. Without all of those, the remaining requests are a complete backup: run from
    /// the same floor, with memory for each request, they end in this floor.
    ///
    /// Memory for all replies is allocated first. `Err` if that fails; then no request was run.
    pub fn run(&mut self, requests: &RequestList) -> Result<Vec<Reply>, AllocError>
        ensures run { (l : Legalizer) → IfOk result (λ replies. Run l self.old requests.now replies.items self.new) }
        ensures isolated { (l : Legalizer)
            → IfOk result (λ replies. IsIsolated l self.old requests.now replies.items self.new) }
        ensures legal { (l : Legalizer) → IfOk result (λ replies. IsCommittedLegal self.old
            → LegalRun l self.old requests.now replies.items self.new) }
        ensures commits { IfOk result (λ replies. CommitsMakeLegal self.old requests.now replies.items self.new) }
        ensures tidied { IfOk result (λ replies. EachTidiedCommits self.old requests.now replies.items) }
        ensures left_out { (l : Legalizer)
            → IfOk result (λ replies. AreOmittable l self.old requests.now replies.items self.new) }
        ensures backed_up { (l : Legalizer)
            → IfOk result (λ replies. IsBackup l self.old (lasting requests.now replies.items)
            (lasting_replies requests.now replies.items) self.new) }
        ensures components { self.new.components ≡ self.old.components }
        ensures err { OnErr result (self.new ≡ self.old) }
    {
        legalizer_exists();
        legal_in_range();
        self.teams_match_frame();
        let mut replies = Vec::with_capacity(self.alloc, requests.len())?;
        for i in 0..requests.len() {
            let Some(request) = requests.request(i) else {
                unreachable!();
            };
            let reply = self.step(&request);
            push_within(&mut replies, reply);
        }
        Ok(replies)
    }
}
