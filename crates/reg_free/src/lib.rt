//! The lock-free desk: a registry that many callers use at once, none of which holds up another.
//!
//! It stands on the calls of `reg_commit`, `mih_chain`, `reg_sweep` and `reg_query`, and implements the trait `Desk` of
//! `reg_model`. `specs/Fit.antt` says what a pass is like between its calls. A declaration alone waits, and only while
//! other declarations are pushed into its buckets. `declaring`, `withdrawing` and `asking` have the calls, `desk` the
//! desk.
#![tactic(auto)]

mod asking;
mod declaring;
mod desk;
mod withdrawing;

pub use desk::FreeDesk;

#[cfg(test)]
mod tests;
