// The bytes so far: complete subtrees, and a last chunk.

ghost use Rattle.std.specs.Prelude.{◌≡◌, ℕ, ◌+◌, ◌*◌, ◌^◌, ◌<◌, ◌≤◌, List, [], ◌++◌, length, drop};
ghost use Rattle.blake3_core.specs.Chunk.{chunk_len};
ghost use Rattle.blake3_core.specs.Tree.{hash};
ghost use Rattle.iscc_instance.specs.inner.Subtrees.{Stands};

use crate::subtrees::Subtrees;
use blake3_core::{CHUNK_LEN, ChunkState, IV, chunk_value};

#[derive(Drop)]
pub(crate) struct State {
    subtrees: Subtrees,
    chunk: ChunkState,
}

impl State {
    ghost use Rattle.iscc_instance.specs.inner.State.{HasBytes, state_len};

    pub(crate) fn new() -> State
        ensures len { state_len result ≡ 0 }
        ensures in_chunk { chunk_len result.chunk ≤ 1024 }
        ensures bytes { HasBytes result [] }
    {
        State {
            subtrees: Subtrees::new(),
            chunk: ChunkState::new(&IV, 0, 0),
        }
    }

    pub(crate) fn len(&self) -> u64
        requires { state_len self.now < 2 ^ 64 }
        ensures { result ≡ state_len self.now }
    {
        CHUNK_LEN as u64 * self.subtrees.count() + self.chunk.len() as u64
    }

    /// Adds `piece` to the bytes.
    pub(crate) fn update(&mut self, piece: &[u8])
        requires in_chunk { chunk_len self.old.chunk ≤ 1024 }
        requires fits { state_len self.old + length piece.now < 2 ^ 64 }
        ensures len { state_len self.new ≡ state_len self.old + length piece.now }
        ensures in_chunk { chunk_len self.new.chunk ≤ 1024 }
        ensures bytes { (bytes : List ℕ) → HasBytes self.old bytes
            → HasBytes self.new (bytes ++ piece.now) }
    {
        let used = self.chunk.len();
        let room = CHUNK_LEN - used;
        if piece.len() <= room {
            self.chunk.update(piece);
            return;
        }
        if used == 0 {
            self.begin_chunk(piece);
            return;
        }
        self.chunk.update(&piece[..room]);
        let value = self.chunk.output().value();
        self.subtrees.push(&value);
        self.begin_chunk(&piece[room..]);
    }

    // Adds `rest`, which begins a chunk: the chunk before it, if any, is among the subtrees. The whole
    // chunks before the last one are hashed where they lie.
    fn begin_chunk(&mut self, rest: &[u8])
        requires more { 0 < length rest.now }
        requires fits { 1024 * self.old.subtrees.count + length rest.now < 2 ^ 64 }
        ensures len { state_len self.new ≡ 1024 * self.old.subtrees.count + length rest.now }
        ensures in_chunk { chunk_len self.new.chunk ≤ 1024 }
        ensures bytes { (bytes : List ℕ) → Stands self.old.subtrees bytes
            → rest.now ≡ drop (1024 * self.old.subtrees.count) bytes
            → HasBytes self.new bytes }
    {
        let count = (rest.len() - 1) / CHUNK_LEN;
        'chunks: for i in 0..count {
            let at = CHUNK_LEN * i;
            let number = self.subtrees.count();
            let value = chunk_value(&IV, 0, &rest[at..at + CHUNK_LEN], number);
            self.subtrees.push(&value);
        }
        self.chunk = ChunkState::new(&IV, 0, self.subtrees.count());
        self.chunk.update(&rest[CHUNK_LEN * count..]);
    }

    /// The hash of the bytes.
    pub(crate) fn hash(&self) -> [u8; 32]
        requires { state_len self.now < 2 ^ 64 }
        ensures { (bytes : List ℕ) → HasBytes self.now bytes → result ≡ hash bytes }
    {
        self.subtrees.root(self.chunk.output()).root_hash()
    }
}
