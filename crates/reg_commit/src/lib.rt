//! The calls on the log: its front, pins, helping, one update, and an entry for a declaration.
//!
//! It stands on `reg_rule`: each call is a few of its steps, and tells the view that they leave as an equation. What a walk
//! may be told and what it finds is in `specs/Fronts.antt`; what helping does, in `specs/Helps.antt`; what taking an entry
//! does, in `specs/Takes.antt`. None of the calls waits or takes memory.
#![tactic(auto)]

mod helping;
mod pins;
mod taking;
mod updating;
mod walking;

pub use helping::help;
pub use pins::{pin, unpin};
pub use taking::{Empty, take};
pub use updating::{Lost, commit};
pub use walking::front;

#[cfg(test)]
mod tests;
