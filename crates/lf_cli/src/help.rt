//! Requests for help and for the version.

ghost use Rattle.std.specs.Prelude.{◌≡◌, ◌∷◌, [], map};
ghost use Rattle.lf_cli.specs.Help.{help_requested, is_help};

use crate::subcommand::{Subcommand, subcommand_named};

/// The help that the words request.
#[derive(Clone, Copy, Debug, PartialEq, Eq)]
pub enum Help {
    /// The help of the program.
    Program,
    /// The version of the program.
    Version,
    /// The help of a subcommand.
    Of(Subcommand),
}

/// Returns whether the word requests help.
fn is_help(word: &str) -> bool
    ensures { result ≡ is_help word.now }
{
    word == "--help" || word == "-h"
}

/// Returns the help that the only word after the program's name requests.
fn program_topic(word: &str) -> Option<Help>
    ensures { result ≡ help_requested ([] ∷ word.now ∷ []) }
{
    if is_help(word) {
        return Some(Help::Program);
    }
    if word == "--version" {
        return Some(Help::Version);
    }
    None
}

/// Returns the help that the two words after the program's name request.
fn subcommand_topic(subcommand: &str, word: &str) -> Option<Help>
    ensures { result ≡ help_requested ([] ∷ subcommand.now ∷ word.now ∷ []) }
{
    if is_help(word) {
        return Some(Help::Of(subcommand_named(subcommand)?));
    }
    None
}

/// Returns the help that the words request. The first word is the program's name. It is followed by
/// `--help`, `-h` or `--version` alone, or by a subcommand and `--help` or `-h`. `None` for all
/// other words.
pub fn help_of(words: &[&str]) -> Option<Help>
    ensures { result ≡ help_requested (map (λ word. word.now) words.now) }
{
    if words.len() == 2 {
        return program_topic(words[1]);
    }
    if words.len() == 3 {
        return subcommand_topic(words[1], words[2]);
    }
    None
}
