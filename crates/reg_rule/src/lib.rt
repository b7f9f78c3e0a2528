//! The rule of the registry's shared words: what they stand for between any two atomic steps, and what each step does.
//!
//! It stands on `reg_words` (packed words and areas), `mih_plan` (buckets) and `reg_model`, over one `atomic_table`. A
//! `Words` is the table, a `Pass` one caller, and each kind of step is one function: `specs/Conditions.antt` says when it
//! may be made, `specs/Moves.antt` what it does to what the pass knows (`src/view.rt`), `specs/Steps.antt` what it tells.
//! `src/remembered.rt` has what a program may ask of a pass. `specs/Rounds.antt` speaks of the start and the end.
//! `specs/Readers.antt` says in ten sentences what the words stand for, and `laws.rt` that they do so between any two
//! steps; the rule that gives it, a record of parts, is `specs/inner/Rule.antt`.
//! `docs/PROTOCOL.md` tells all of it in words.
#![tactic(auto)]

mod chain_steps;
mod cut_steps;
mod finish;
mod help_steps;
mod last_words;
mod laws;
mod log_steps;
mod look_steps;
mod remembered;
mod ring_steps;
mod rule;
mod start;
mod sweep_steps;
mod told;
mod view;
mod words;

pub use chain_steps::{load_head, load_next, store_next, swap_head};
pub use cut_steps::{cut_head, cut_next};
pub use finish::{Seal, WordsRefusal};
pub use help_steps::{store_note, swap_birth, swap_death};
pub use laws::{
    a_bucket_has_one_chain, the_words_have_one_log, the_words_have_one_sweep,
    the_words_stand_for_one_registry, what_is_seen_stays,
};
pub use log_steps::{load_log, swap_log};
pub use look_steps::{load_code, load_stamp};
pub use ring_steps::{
    load_give, load_put, load_take, store_give, store_held, store_put, swap_take,
};
pub use rule::{Joining, OneRegistry, Sealing, Splitting, Telling};
pub use sweep_steps::{load_pin, store_pin, store_sweep, swap_sweep};
pub use told::Told;
pub use view::{
    Account, Cost, Cursor, Empty, Found, Hand, Holding, Key, Link, Met, Place, Taking, View, Way,
};
pub use words::{Pass, Words};

#[cfg(test)]
mod tests;
