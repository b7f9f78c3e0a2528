//! The hash of an input of any length, which comes in pieces.
//!
//! A [`Hasher`] takes an input piece by piece and gives its BLAKE3 hash in plain mode. It never holds
//! the input: the chunks before the last one are complete subtrees, of which it keeps the chaining
//! values (`subtrees`), and of the last chunk it keeps a `ChunkState` (`state`).
//!
//! The first bits of a hash are the body of an Instance-Code ([`instance_unit`], [`instance_code`]).
//!
//! The layer below is `blake3_core`, with the compression function, chunks and parents, and `iscc_code`
//! with units. Above stand the callers that hash files and request lines.
#![tactic(auto)]

mod hasher;
mod state;
mod subtrees;
#[cfg(test)]
mod tests;
mod unit;

pub use hasher::Hasher;
pub use unit::{instance_code, instance_unit};
