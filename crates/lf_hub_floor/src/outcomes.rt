//! What a reply says of its command.

ghost use Rattle.std.specs.Prelude.{◌≡◌};
ghost use Rattle.lf_proto.specs.Commands.{command_with_names, order_of};
ghost use Rattle.lf_proto.specs.Verbs.{action_of};
ghost use Rattle.lf_floor_model.specs.Journals.{is_lasting, is_query};
ghost use Rattle.lf_floor_model.specs.VerbLaws.{is_ok};
ghost use Rattle.lf_hub_floor.specs.Answers.{change_made, is_query_action, outcome_of};

use lf_hub_clients::Outcome;
use lf_proto::{Action, Command, Reply, Request, TeamCommand};

/// Returns whether the command was accepted.
fn is_ok(reply: &Reply) -> bool
    ensures { result ≡ is_ok reply.now }
{
    match reply {
        Reply::Refused(_) => false,
        _ => true,
    }
}

/// Returns whether the action is a query.
fn is_query_action(action: &Action<&[u8]>) -> bool
    ensures { result ≡ is_query_action (action_of action.now) }
{
    match action {
        Action::Check => true,
        Action::Def => true,
        Action::Where { .. } => true,
        Action::Find { .. } => true,
        Action::Close => false,
        Action::Sync => false,
        Action::Change(_) => false,
    }
}

/// Returns whether the command is a query.
pub(crate) fn is_query(request: &Request) -> bool
    ensures { result ≡ is_query (command_with_names request.now) }
{
    match request {
        Command::Bye => true,
        Command::To { order, .. } => match order {
            TeamCommand::Open => false,
            TeamCommand::Within { action, .. } => is_query_action(action),
        },
    }
}

/// Returns the outcome of an accepted command that is not a query.
fn change_made(order: &TeamCommand<&[u8]>, reply: &Reply) -> Outcome
    ensures { result ≡ change_made (order_of order.now) reply.now }
{
    match order {
        TeamCommand::Open => match reply {
            Reply::Opened { session, .. } => Outcome::Opened { session: *session },
            _ => Outcome::Changed,
        },
        TeamCommand::Within { session, action } => match action {
            Action::Close => Outcome::Closed { session: *session },
            _ => Outcome::Changed,
        },
    }
}

/// Returns whether the command was accepted and is not a query.
fn is_lasting(request: &Request, reply: &Reply) -> bool
    ensures { result ≡ is_lasting (command_with_names request.now) reply.now }
{
    is_ok(reply) && !is_query(request)
}

/// Returns the outcome of a command with this reply.
pub(crate) fn outcome_of(request: &Request, reply: &Reply) -> Outcome
    ensures { result ≡ outcome_of (command_with_names request.now) reply.now }
{
    let lasts = is_lasting(request, reply);
    match request {
        Command::Bye => Outcome::Ended,
        Command::To { order, .. } => {
            if lasts {
                change_made(order, reply)
            } else {
                Outcome::Unchanged
            }
        }
    }
}
