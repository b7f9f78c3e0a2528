use crate::carried::Carried;
use crate::lists::Accounts;
use crate::sizes::Sizes;

/// The most rounds of a history.
pub const ROUNDS_MOST: usize = 8;

/// A round that was served: its base and sizes, the rows of its sessions, and what the next round begins with.
#[derive(Debug, Drop)]
pub struct Round {
    pub base: u64,
    pub sizes: Sizes,
    pub accounts: Accounts,
    pub carried: Carried,
}
