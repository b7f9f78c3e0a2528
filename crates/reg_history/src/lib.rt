//! The text of a history: all calls of a run with their points and replies, line by line, and its check by anyone.
//!
//! It stands on `reg_model`, which says which rows are lawful, and on `reg_requests`, which prints calls and replies.
//! `reg_top` prints the history of each run, and checks those that it is given. `specs/History.antt` has the one text of a
//! run, `specs/check/Checking.antt` the first line that can't stand in any other text. `print` makes the text. `check`
//! reads it back, a line at a time: `lines` guesses what a line tells, prints it and compares; `check::step` says what the
//! line makes of those before it, `check::serving` whether a row can stand, and `ledger` whether its reply can, over the
//! live declarations of each kind.
#![tactic(auto)]

mod check;
mod laws;
mod ledger;
mod lines;
mod print;

pub use check::check_history;
pub use check::fault::{CheckFault, CheckRefusal, CheckWhy, Summary};
pub use laws::{a_history_text_has_one_run, a_text_has_one_check};
pub use print::{append_history, print_history};

#[cfg(test)]
mod tests;
