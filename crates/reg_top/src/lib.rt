//! The top call: it reads the words of a command line, fetches the files that they name from a shelf, does the command, and
//! writes its output, or the line of a fault, to a sink.
//!
//! It stands on `reg_session`, which has shelf and sink and serves sessions in threads, on `reg_turn`, the desk over which
//! they are served, on `reg_make` (the workload of `make`), on `reg_requests`, `reg_history` and `reg_image`, which read and write
//! texts and images, on `reg_model`, and on the crates of ISCCs. `iscc_registry` calls `top` with the real shelf and sink, tests
//! with those in memory.
//! The way of a request: `side_commands` (what serves nothing) or `serving` (what serves), `words` and `run_words` (what is asked),
//! `fetch` (a file's bytes), a file of `commands` (what is made of it; rounds are served over the desk of `served`), `run_images` (what
//! is loaded and saved), `write` (bytes to the sink), `fault_line` (the line of a fault), `ending` (the status).
//! `specs/Fetches.antt` says what each command fetches, a file of `specs/commands/` what it writes and refuses, and
//! `specs/Outcomes.antt` how every call ends, and why.
#![tactic(auto)]

mod args;
mod commands;
mod ending;
mod fault_line;
mod fetch;
mod laws;
mod refusal;
mod replies;
mod run_files;
mod run_images;
mod run_rounds;
mod run_words;
mod saved_history;
mod served;
mod serving;
mod side_commands;
mod top_call;
mod words;
mod write;

pub use args::Args;
pub use laws::{a_command_line_has_one_command, words_of_lone_sessions_have_one_output};
pub use reg_session::{
    Failed, FetchFault, Gate, ListShelf, ListSink, NoGate, PutFault, Seals, Shelf, Sink, SureShelf,
    SureSink,
};
pub use served::{Served, no_seals};
pub use side_commands::side;
pub use top_call::top;

#[cfg(test)]
mod tests;
