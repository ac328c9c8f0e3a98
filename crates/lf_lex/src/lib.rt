//! The tokens of LEF and DEF texts, and the reading functions that both readers share.
//!
//! A contract sees of a `Lexer` the tokens that are left, the fault after them if there is one, and
//! the line on which the text ends. A reading function takes tokens from the front of that list. It
//! returns what the definition of the same name (`specs/Reading.antt`) reads, or fails with the
//! first fault and its line. It allocates nothing, so it never fails for memory. `read_block`
//! allocates if a statement of its block does.
//!
//! The faults of reading and of loading a design have one numbering, 1 to 24 (`FaultNumber`).
//!
//! Used by most other crates.
//!
//! Modules, in reading order:
//!
//! - `tokens`: tokens, their kinds, and why there is no further token
//! - `scan`: steps over the bytes of a text: white space, comments, words and quoted texts
//! - `lexer`: the lexer, and laws on the tokens of every text
//! - `fault`: the faults of texts and designs, with their numbers
//! - `block`: blocks of statements, read in a loop
//! - `read`: the reading functions: words, names, and what is skipped
//! - `laws`: laws on the reading functions
//!
//! From `crates/lf_lef/src/sites.rt`:
//!
//! ```
//! let word = word(lexer)?;
//! keyword(lexer, b";")?;
//! Ok(word.text)
//! ```
#![tactic(auto)]

mod block;
mod fault;
mod laws;
mod lexer;
mod read;
mod scan;
mod tokens;

pub use block::{Block, read_block};
pub use fault::{FaultNumber, LoadFault, ReadError, ReadFault};
pub use laws::{passing_takes_tokens, words_read_alike};
pub use lexer::{Lexer, cuts_at_tokens, kinds_follow_texts, slices_in_order, splices_tokens};
pub use read::{
    end_name, fault_at, is_any_word, is_token, is_word, keyword, name, next, skip_to_end,
    skip_to_semicolon, skip_to_word, token, word,
};
pub use tokens::{LexFault, Token, TokenKind, TokenOf};
