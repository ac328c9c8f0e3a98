//! Runs a journal on a floor, and compares each reply with the recorded one.
//!
//! A journal is one segment (`lf_journal_text`). Its beginning is compared first: the line of the
//! design, and the name of the state with which the segment begins. The line of a design begins with
//! the number of session slots in 10 digits.
//!
//! Then the lines of all records are served as those of one connection (`lf_server`). The journal is
//! accepted if and only if the replies are, byte for byte, the recorded ones, and no line is `bye`.
//! A journal whose beginning is torn has no batch: it is accepted, and changes nothing.
//!
//! | refusal | what it means |
//! |---|---|
//! | 25, 28 to 32 | the segment is damaged (`DamageKind`) |
//! | `36 OtherTexts` | the segment is that of a design of other texts |
//! | `37 OtherSessions` | it is that of a floor with another number of session slots |
//! | `38 OtherState` | it begins with another state |
//! | `39 OtherReply` | the reply to a line is not the recorded one |
//!
//! Modules, in reading order:
//!
//! - `fault`: why a journal is not run
//! - `beginning`: the beginning, compared with the due one
//! - `texts`: the lines and the replies of records as texts, and where a record is
//! - `replies`: the text that serving lines writes
//! - `run`: a journal that is run on a floor
//! - `laws`: what holds of runs holds of journals
#![tactic(auto)]

mod beginning;
mod fault;
mod laws;
mod replies;
mod run;
mod texts;

pub use beginning::Beginning;
pub use fault::RunError;
pub use laws::journals_run;
pub use run::run_journal;
