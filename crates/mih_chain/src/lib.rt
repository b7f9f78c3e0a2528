//! The chains of the buckets: an entry is linked in front, a walk meets the entries of a bucket, and an entry is unlinked.
//!
//! It stands on `reg_rule`, whose steps it makes, and on `mih_plan` for an entry's bucket. `specs/Linking.antt` says what
//! linking and unlinking do. Linking waits: another push may come between, again and again. None of the calls takes memory.
#![tactic(auto)]

mod linking;
mod unlinking;
mod walks;

pub use linking::link;
pub use unlinking::unlink;
pub use walks::{first, next};

#[cfg(test)]
mod tests;
