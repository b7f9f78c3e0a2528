//! BLAKE3's compression function and the nodes of its tree: chunks and parents.
//!
//! A chunk or a parent ends in one compression, its [`Output`]: as the root of the tree it gives the
//! hash, and else a chaining value for its parent. A [`ChunkState`] takes a chunk in pieces. The key
//! and the mode's flags are parameters, and plain mode has `IV` and 0.
//!
//! This is the lowest layer of hashing. `iscc_instance` stands on it, and hashes a whole input.
//!
//! Source: O'Connor, Aumasson, Neves and Wilcox-O'Hearn, "BLAKE3: one function, fast everywhere",
//! 2020. Section numbers in comments are that paper's.
#![tactic(auto)]

mod chunk;
mod compression;
mod node;
#[cfg(test)]
mod tests;

pub use chunk::{CHUNK_LEN, ChunkState, chunk_value};
pub use compression::{IV, compress};
pub use node::{Output, parent_output, parent_value, tree_laws};
