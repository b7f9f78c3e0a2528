//! The plain registry: the calls of a registry of ISCC units, the replies to them, the rows of a history,
//! and a slow registry that says what they mean.
//!
//! It stands on `iscc_header`. Every desk above is compared with what stands here: `specs/Live.antt` says which
//! declarations are live after a log of updates, `specs/Replies.antt` which reply a call may have, `specs/Rows.antt`
//! which lists of rows are a lawful round, and `specs/Runs.antt` how rounds follow each other.
//! `Plain` serves one call at a time, by the definitions; it is plain and stays so.
#![tactic(auto)]

mod call;
mod carried;
mod desk;
mod laws;
mod leaving;
mod lists;
mod merging;
mod plain;
mod reply;
mod round;
mod sizes;
mod start;
mod update;

pub use call::Call;
pub use carried::Carried;
pub use desk::{CloseRefusal, CloseWhy, Closed, Desk};
pub use laws::{
    a_lone_round_has_one_list_of_rows, a_merge_keeps_each_account, accounts_have_one_merge,
    accounts_in_one_log_merge, accounts_take_a_row_that_changes_nothing,
    accounts_take_the_next_update, each_call_comes_after_what_its_session_had_seen,
    empty_accounts_share_the_empty_log, hits_are_told_by_their_list,
    lawful_rows_stand_in_their_log,
};
pub use leaving::Leaving;
pub use lists::{Accounts, Hits, Rows, Updates};
pub use merging::{Order, Place, merge};
pub use plain::Plain;
pub use reply::{Answer, FullCause, Hit, Reply, Row};
pub use round::{ROUNDS_MOST, Round};
pub use sizes::{
    BITS_LEAST, BITS_MOST, BITS_USUAL, CALLERS_MOST, ENTRIES_MOST, ENTRIES_USUAL, LOG_MOST,
    LOG_USUAL, Sizes,
};
pub use start::{StartFault, start_fault};
pub use update::{Declared, Update};

/// The greatest radius of a query, in bits. With four substrings a radius of 15 leaves one of them within 3 bits.
pub const RADIUS_MOST: u32 = 15;

#[cfg(test)]
mod tests;
