//! The language of scripts, and what other languages of lines share with it: how lines are read and
//! run in turn, what their words name, and how answers are printed.
#![tactic(auto)]

mod answer;
mod error;
mod line_by_line;
mod lines;
mod options;
mod script;

pub use answer::{
    call_name, mark_name, put_address, put_answer, put_bytes, put_received, put_rest,
};
pub use error::ScriptError;
pub use line_by_line::{RunsLines, print, run_lines};
pub use lines::{Lines, MOST_TURNS};
pub use options::Options;
pub use script::{
    Line, LineError, LineWords, MAX_LINE, Setting, call_of, from_address, is_skipped, parse_line,
    side,
};
