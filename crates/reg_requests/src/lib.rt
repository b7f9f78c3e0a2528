//! Request lines: what each line of a request file asks for, and the texts of calls, replies and refused lines.
//!
//! It stands on the texts of ISCCs (`iscc_text`, `iscc_code`), on the Instance-Codes of bytes (`iscc_instance`) and on
//! calls and replies (`reg_model`). `reg_top` serves the calls and prints the replies. The way of a file: `cut` (lines),
//! `words` (words of a line), `line` (what the words ask for), with `code` for texts of ISCCs, `number` and `digits`
//! for the other words; the way back: `print`. `specs/Requests.antt` says what a line asks for and why it is refused.
#![tactic(auto)]

mod code;
mod cut;
mod digits;
mod items;
mod laws;
mod line;
mod number;
mod print;
mod words;

pub use cut::read_requests;
pub use items::{BadLine, Item, Line, Requests};
pub use laws::a_file_has_one_list_of_items;
pub use line::read_line;
pub use number::read_number;
pub use print::{kind_of, print_bad, print_call, print_reply, print_word, print_word_number};

#[cfg(test)]
mod tests;
