//! One request a line, as a JSON object (RFC 8259), and one answer a line.
//!
//! [`read_request`] reads a line: its members have the names `in`, `out`, `index` and those of the program's long options, and
//! what they request is given as the words of a command line, which the program's own parser reads. [`write_done`] and
//! [`write_failed`] write a line of answer.
//!
//! ```text
//! read_request(alloc, b"{\"in\":\"a.ttf\",\"out\":\"b.ttf\",\"gids\":[3,5]}")?     // -o b.ttf --gids 3,5 -- a.ttf
//! write_failed(3, 1, "malformed font", &mut out)?         // {"line":3,"status":1,"error":"malformed font"}
//! ```
#![tactic(auto)]

mod answers;
mod fault;
mod json;
mod kinds;
mod laws;
mod lines;
mod members;
mod object;
mod request;
mod values;

pub use answers::{write_done, write_failed};
pub use fault::{Fault, Unread, Wanted};
pub use laws::read_again;
pub use lines::{Line, lines_of};
pub use request::read_request;
