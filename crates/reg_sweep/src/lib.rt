//! Reclamation: the entries of what was withdrawn are unlinked and given back, in the order of the log.
//!
//! It stands on `reg_commit` for the walk to the front, on `mih_chain` for unlinking and on the steps of `reg_rule`.
//! `specs/Sweeping.antt` says what a sweep does and why it stops. `sweeping` goes from place to place, `seizing` takes the
//! sweep, `reclaiming` does one place, and `scanning` looks for pins in the way. None of it waits or takes memory.
#![tactic(auto)]

mod reclaiming;
mod scanning;
mod seizing;
mod sweeping;

pub use sweeping::sweep;

#[cfg(test)]
mod tests;
