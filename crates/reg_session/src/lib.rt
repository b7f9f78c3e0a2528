//! Sessions and the outside of the registry: what serves the sessions of a round in threads, where files come from, where
//! output goes, and what a fault of either is.
//!
//! It stands on `reg_model`, and serves over any `Desk` of it. `serve` makes the calls of one session, `run_round` those of
//! all sessions of a round; a [`Gate`] may hold sessions back, and [`Seals`] keeps what is left of rounds.
//! `specs/Sessions.antt` says what they do. `reg_top` is written over the traits [`Shelf`] and [`Sink`]; `iscc_registry` has
//! the real ones, and tests use those in memory here. A [`Shelf`] is a map from names to bytes and two counts, of failed fetches
//! and of failed puts, a [`Sink`] the bytes that it took and a count of failed writes. `specs/Faults.antt` says what such a
//! count tells, `specs/Files.antt` what a fetch gives, what a put leaves and what a sink takes, `specs/Shelves.antt` and
//! `specs/Sinks.antt` what those in memory do.
#![tactic(auto)]

mod gate;
mod list_shelf;
mod list_sink;
mod rounds;
mod seals;
mod session;
mod shelf;
mod sink;
mod sure_shelf;
mod sure_sink;

pub use gate::{Gate, NoGate};
pub use list_shelf::ListShelf;
pub use list_sink::ListSink;
pub use rounds::{RoundFault, run_round};
pub use seals::Seals;
pub use session::serve;
pub use shelf::{FetchFault, PutFault, Shelf};
pub use sink::{Failed, Sink};
pub use sure_shelf::SureShelf;
pub use sure_sink::SureSink;

#[cfg(test)]
mod tests;
