//! Commands.

ghost use Rattle.std.specs.Prelude.{◌≡◌, IfOk};
ghost use Rattle.lf_proto.specs.Commands.{command_with_names, order_of};

use crate::verb::Action;
use lf_floorplan::Place;
use lf_units::Name;
use std::alloc::{AllocError, Global};

/// One command of a connection. Its names have the type `N`: slices of a line in a `Request`, lists
/// of bytes in a contract. Its places have the type `P`, which is `Place`. Places and targets are
/// in database units.
#[derive(Drop)]
pub enum Command<N, P = Place> {
    /// Ends the connection, so that no later line is answered; sessions stay.
    ///
    /// Reply: `ok`.
    Bye,
    /// A command of the team of that name; `-` is the ground team outside all fences.
    To { team: N, order: TeamCommand<N, P> },
}

/// A command of one team.
#[derive(Drop)]
pub enum TeamCommand<N, P = Place> {
    /// Takes the team's least free session slot.
    ///
    /// Reply: `ok N REV`. Refusals: 10.
    Open,
    /// An action of the session of that number.
    Within { session: u32, action: Action<N, P> },
}

/// A command whose names are slices of its line.
pub type Request<'a> = Command<&'a [u8]>;

impl TeamCommand<&[u8]> {
    /// Returns a copy that owns its names.
    ///
    /// `Err` if an allocation fails.
    pub(crate) fn to_owned(&self, alloc: Global) -> Result<TeamCommand<Name>, AllocError>
        ensures { IfOk result (λ order. order ≡ order_of self.now) }
    {
        Ok(match self {
            TeamCommand::Open => TeamCommand::Open,
            TeamCommand::Within { session, action } => TeamCommand::Within {
                session: *session,
                action: action.to_owned(alloc)?,
            },
        })
    }
}

impl Command<&[u8]> {
    /// Returns a copy that owns its names.
    ///
    /// `Err` if an allocation fails.
    pub fn to_owned(&self, alloc: Global) -> Result<Command<Name>, AllocError>
        ensures { IfOk result (λ command. command ≡ command_with_names self.now) }
    {
        Ok(match self {
            Command::Bye => Command::Bye,
            Command::To { team, order } => Command::To {
                team: Name::from_slice(alloc, team)?,
                order: order.to_owned(alloc)?,
            },
        })
    }
}

impl TeamCommand<Name> {
    /// Returns the same command with borrowed names.
    pub(crate) fn borrowed(&self) -> TeamCommand<&[u8]>
        ensures { order_of result ≡ self.now }
    {
        match self {
            TeamCommand::Open => TeamCommand::Open,
            TeamCommand::Within { session, action } => TeamCommand::Within {
                session: *session,
                action: action.borrowed(),
            },
        }
    }
}

impl Command<Name> {
    /// Returns the same command with borrowed names.
    pub fn borrowed(&self) -> Request<'_>
        ensures { command_with_names result ≡ self.now }
    {
        match self {
            Command::Bye => Command::Bye,
            Command::To { team, order } => Command::To {
                team: team.as_bytes(),
                order: order.borrowed(),
            },
        }
    }
}
