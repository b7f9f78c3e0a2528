// The stack of complete subtrees.

ghost use Rattle.std.specs.Prelude.{◌≡◌, ℕ, ◌+◌, ◌*◌, ◌^◌, ◌<◌, ◌≤◌, List, [], length, drop};
ghost use Rattle.blake3_core.specs.Compression.{iv};
ghost use Rattle.blake3_core.specs.Tree.{chunk_output, tree};

use blake3_core::{IV, Output, parent_output, parent_value};

// 2^64 bytes are 2^54 chunks.
const LEVELS: usize = 54;

/// The values of the complete subtrees before the last chunk. They follow the bits of the number of
/// chunks before it: place `k` has the value of a subtree of 2^k chunks where bit `k` is set.
#[derive(Drop)]
pub(crate) struct Subtrees {
    values: [[u32; 8]; LEVELS],
    count: u64,
}

impl Subtrees {
    ghost use Rattle.iscc_instance.specs.inner.Subtrees.{Stands, full_value};

    pub(crate) fn new() -> Subtrees
        ensures count { result.count ≡ 0 }
        ensures stands { Stands result [] }
    {
        Subtrees {
            values: [[0; 8]; LEVELS],
            count: 0,
        }
    }

    pub(crate) fn count(&self) -> u64
        ensures { result ≡ self.now.count }
    {
        self.count
    }

    /// Adds the next chunk, which is not the last one. A subtree that it completes takes in the
    /// subtree of the same size on its left.
    pub(crate) fn push(&mut self, chunk: &[u32; 8])
        requires { self.old.count + 1 < 2 ^ 54 }
        ensures count { self.new.count ≡ self.old.count + 1 }
        ensures stands { (bytes : List ℕ) → Stands self.old bytes
            → 1024 * (self.old.count + 1) ≤ length bytes
            → chunk.now ≡ full_value bytes 0 self.old.count
            → Stands self.new bytes }
    {
        let count = self.count;
        self.count += 1;
        let mut value = *chunk;
        'levels: for level in 0..LEVELS {
            if (count >> level) % 2 == 0 {
                self.values[level] = value;
                return;
            }
            value = parent_value(&IV, 0, &self.values[level], &value);
        }
    }

    /// The root of the whole tree, whose last chunk is `last`.
    pub(crate) fn root(&self, last: Output) -> Output
        ensures { (bytes : List ℕ) → Stands self.now bytes
            → last ≡ chunk_output iv 0 (drop (1024 * self.now.count) bytes) self.now.count
            → length bytes ≤ 1024 * (self.now.count + 1)
            → (0 < self.now.count → 1024 * self.now.count < length bytes)
            → length bytes < 2 ^ 64
            → result ≡ tree iv 0 bytes 0 }
    {
        let mut output = last;
        'levels: for level in 0..LEVELS {
            if (self.count >> level) % 2 == 1 {
                output = parent_output(&IV, 0, &self.values[level], &output.value());
            }
        }
        output
    }
}
