//! The workload of a generated load: from a seed, how many units each session declares, and how many sessions there are, the calls
//! of two rounds, the rounds themselves, and their counts.
//!
//! It stands on `reg_model` and `reg_session`, and serves over any `Desk`. `reg_top` stands above: it prints the counts.
//! `specs/Generator.antt` has the numbers that follow from the seed and the units that they make, `specs/Workloads.antt` the
//! calls, what a run of them is, and its counts, `specs/Counting.antt` what is counted in rows. `generator` makes the numbers,
//! `calls` the lists of calls, `serving` serves them, and `counts` counts rows.
#![tactic(auto)]

mod calls;
mod counts;
mod generator;
mod laws;
mod serving;
mod work;

pub use counts::{Counts, count_work};
pub use laws::a_workload_has_one_line;
pub use serving::{WorkRun, serve_work};
pub use work::{SESSIONS_MOST, UNITS_MOST, Workload};

#[cfg(test)]
mod tests;
