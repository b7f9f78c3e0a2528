//! Which buckets a query of a radius looks into: multi-index hashing, after Norouzi, Punjani and Fleet, "Fast search in
//! Hamming space with multi-index hashing" (CVPR 2012).
//!
//! A body of 64 bits has four substrings of 16 bits, with a table each. The low bits of a substring number its bucket in
//! that table. Two bodies that differ in few bits differ in few bits of some substring, so the bodies near a code all
//! stand in the buckets near its own: those are the plan of a query, table by table.
//!
//! It stands on `iscc_header`, whose distance it counts by, and knows nothing of tables in memory: the crates above walk
//! the chains of the buckets that a plan names. `specs/Buckets.antt` has the definitions. `probe` has buckets, probes and
//! plans, `cursor` gives the probes of a plan one by one, `search` finds the next bucket, and `laws` has the law that no
//! near body is missed.
#![tactic(auto)]

mod cursor;
mod laws;
mod probe;
mod search;

pub use cursor::{Probes, plan};
pub use laws::{near_bodies_share_a_probe, plans_are_in_order, plans_have_near_buckets};
pub use probe::{Plan, Probe, bucket_of};

#[cfg(test)]
mod tests;
