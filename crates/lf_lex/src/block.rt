//! Blocks: statement after statement, up to the last.

ghost use Rattle.std.specs.Prelude.{⊤, IfErr};
ghost use Rattle.lf_lex.specs.declared.fault.ReadError.{ReadError};
ghost use Rattle.lf_lex.specs.Reading as reading;
ghost use Rattle.lf_lex.specs.Reading.{Reads, Statement};

use crate::fault::ReadError;
use crate::lexer::Lexer;

/// A block of statements: how each of them is read, and what the statements keep of a state
/// (`keeps`).
pub trait Block {
    /// The state: what the statements read so far contain.
    type State;

    // What a statement reads, given the state in front of it.
    ghost statement: { Self → Statement Self.State };

    // What each statement keeps of the state.
    ghost keeps: { Self → Self.State → Type 0 } = { λ _ _. ⊤ };

    // What an error may be.
    ghost fails: { ReadError → Type 0 } = { λ _. ⊤ };

    /// Reads a statement and updates the state. Returns whether more statements follow.
    ///
    /// `Err` is a fault of the text with its line, or a failed allocation.
    fn turn(&self, lexer: &mut Lexer, state: &mut Self::State) -> Result<bool, ReadError>
        requires kept { keeps self.now state.old }
        ensures read { Reads (reading.turn state.new) result (statement self.now state.old) lexer.old lexer.new }
        ensures fault { IfErr result fails }
        ensures kept { keeps self.now state.new };
}

/// Reads statements up to the last, each as `Block::turn` reads it, and updates the state.
///
/// `keeps` must hold of the state at the start, and it holds of it at the end. `Err` is that of the
/// first statement that fails; `keeps` then still holds of the state, and nothing more is promised.
pub fn read_block<B: Block>(
    lexer: &mut Lexer,
    block: &B,
    state: &mut B::State,
) -> Result<(), ReadError>
    requires kept { B.keeps block.now state.old }
    ensures read { Reads (λ _. state.new) result (reading.block (B.statement block.now) state.old) lexer.old lexer.new }
    ensures fault { IfErr result B.fails }
    ensures kept { B.keeps block.now state.new }
{
    while block.turn(lexer, state)? {}
    Ok(())
}
