//! Request lines, requests, replies and their texts.
//!
//! A line has visible characters, spaces and tabs. Its fields are the runs between blanks. It is a
//! `Request`: `bye`, `open TEAM`, or a verb of a session, as in `place TEAM N CELL X Y O`. A
//! `Reply` names cells by their positions in their team, and `reply_text` writes it with the names.
//! Places and targets are in database units, paddings in core sites.
//!
//! Contracts see of a `LineFramer` the bytes since the last line feed, or `None` if they exceed the
//! limit of 4,096, and the last line. They see of a `RequestList` its requests, and of a `Text` its
//! bytes. For contracts, requests that own their names are the same as those that borrow them.
//!
//! Used by most other crates.
//!
//! Modules, in reading order:
//!
//! - `verb`: the verbs of a session
//! - `request`: commands
//! - `request_list`: lists of requests that own their names
//! - `numbers`: the numbers of a request line
//! - `parse`: from a line to its request
//! - `framer`: lines of a stream that comes in pieces
//! - `words`: words and lines, appended to a text
//! - `request_text`: the line of a request
//! - `reply`: replies and refusals
//! - `reply_words`: the texts of replies
//! - `report_text`: the text of a report
//! - `violations`: violations in reports that name cells by their positions
//!
//! From `crates/lf_server/src/answer.rt`:
//!
//! ```
//! match parse_line(line?) {
//!     Ok(request) => Some(request),
//!     Err(_) => None,
//! }
//! ```
#![tactic(auto)]

mod framer;
mod numbers;
mod parse;
mod reply;
mod reply_words;
mod report_text;
mod request;
mod request_list;
mod request_text;
mod verb;
mod violations;
mod words;

pub use framer::{Fed, Got, LineFramer, framing_keeps_lines};
pub use numbers::digits_of;
pub use parse::{
    BadRequest, blanks_around_pass, blanks_between_pass, orient_named, parse_line,
    printed_reads_back, read_place,
};
pub use reply::{Refusal, Reply, Text};
pub use reply_words::reply_text;
pub use report_text::{put_violation, report_begun, report_closed, report_json};
pub use request::{Command, Request, TeamCommand};
pub use request_list::RequestList;
pub use request_text::write_request;
pub use verb::{Action, Change};
pub use violations::{Names, put_verdict};
