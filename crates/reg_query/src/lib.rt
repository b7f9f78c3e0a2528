//! Snapshots, and what is found at them: the hits of a query, and the declaration with an id.
//!
//! It stands on `reg_commit` (pins, the front, completing its last record), on `mih_chain` and `mih_plan` (the chains of the
//! buckets of a plan), and on the looks of `reg_rule`. `specs/Snapshots.antt` says what opening a snapshot and showing an id
//! do; `specs/Queries.antt`, what a query does. A snapshot answers for its point, however long it is open and
//! whatever others declare, withdraw and reclaim meanwhile. None of the calls waits, and a query alone takes memory.
#![tactic(auto)]

mod looks;
mod near;
mod query;
mod showing;
mod snapshots;

pub use near::{NearAnswer, near_at};
pub use showing::{carried_entry, record_entry, show_at};
pub use snapshots::{begin, end};

#[cfg(test)]
mod tests;
