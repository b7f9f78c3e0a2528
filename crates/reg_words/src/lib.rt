//! The words of the lock-free core: how a record of the log, a stamp or the state of the sweep is packed into one word of
//! 64 bits and read from it again, and where in one table of words each area begins.
//!
//! It stands on `iscc_header`, whose kinds are packed, and takes no memory. The rule of the table stands above it: which seat
//! may change which word, and when. `specs/Packing.antt` has each word as a number, `specs/Memory.antt` the areas and what
//! one write changes, `specs/Laws.antt` what both tell. `word` packs and unpacks, `layout` places the areas, `sweeping` says
//! what a sweep did and why it stopped, and `laws` has the laws.
#![tactic(auto)]

mod laws;
mod layout;
mod sweeping;
mod word;

pub use laws::{
    a_log_word_is_of_one_record, a_stamp_word_is_of_one_stamp, a_sweep_word_is_of_one_state,
    a_write_changes_one_cell, each_cell_is_a_word_of_its_own,
};
pub use layout::Areas;
pub use sweeping::{Swept, Why};
pub use word::{LogWord, StampWord, SweepWord};

#[cfg(test)]
mod tests;
