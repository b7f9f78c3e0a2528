// Chunks of up to 1024 bytes (2.4), whole and in pieces.

ghost use Rattle.std.specs.Prelude.{◌≡◌, ℕ, ◌+◌, ◌-◌, ◌*◌, ◌<◌, ◌≤◌, List, [], ◌++◌, length, take, drop, bit_or};
ghost use Rattle.blake3_core.specs.Compression.{compress, word_at};
ghost use Rattle.blake3_core.specs.Tree.{block_words, chunk_end, chunk_output, node_value, start_flag, value_after};

use crate::compression::{compress, first_half};
use crate::node::Output;

/// How many bytes a chunk has at most: only the last chunk of an input has fewer.
pub const CHUNK_LEN: usize = 1024;

const BLOCK_LEN: usize = 64;

const CHUNK_START: u32 = 1;

const CHUNK_END: u32 = 2;

fn start_flag(place: usize) -> u32
    ensures { result ≡ start_flag place }
{
    if place == 0 { CHUNK_START } else { 0 }
}

#[inline(always)]
fn word_at(bytes: &[u8], i: usize) -> u32
    requires { i + 4 ≤ length bytes.now }
    ensures { result ≡ word_at bytes.now i }
{
    u32::from_le_bytes([bytes[i], bytes[i + 1], bytes[i + 2], bytes[i + 3]])
}

#[inline(always)]
fn full_block_words(block: &[u8]) -> [u32; 16]
    requires { length block.now ≡ 64 }
    ensures { result ≡ block_words block.now }
{
    [
        word_at(block, 0),
        word_at(block, 4),
        word_at(block, 8),
        word_at(block, 12),
        word_at(block, 16),
        word_at(block, 20),
        word_at(block, 24),
        word_at(block, 28),
        word_at(block, 32),
        word_at(block, 36),
        word_at(block, 40),
        word_at(block, 44),
        word_at(block, 48),
        word_at(block, 52),
        word_at(block, 56),
        word_at(block, 60),
    ]
}

fn block_words(block: &[u8]) -> [u32; 16]
    requires { length block.now ≤ 64 }
    ensures { result ≡ block_words block.now }
{
    if block.len() == BLOCK_LEN {
        return full_block_words(block);
    }
    let mut filled = [0u8; BLOCK_LEN];
    filled[..block.len()].copy_from_slice(block);
    full_block_words(&filled)
}

// The chaining value after a full block that is not its chunk's last.
#[inline(always)]
fn next_value(input: &[u32; 8], flags: u32, block: &[u8], place: usize, counter: u64) -> [u32; 8]
    requires { length block.now ≡ 64 }
    ensures { result ≡ take 8 (compress input.now (block_words block.now) counter 64 (bit_or flags (start_flag place))) }
{
    let words = full_block_words(block);
    first_half(&compress(input, &words, counter, 64, flags | start_flag(place)))
}

// The chaining value after `count` more full blocks, which `bytes` begins with: `first` blocks of the
// chunk came before, and none of these is the chunk's last.
fn value_after(
    input: &[u32; 8],
    flags: u32,
    bytes: &[u8],
    first: usize,
    count: usize,
    counter: u64,
) -> [u32; 8]
    requires in_bytes { 64 * count ≤ length bytes.now }
    requires in_chunk { first + count ≤ 16 }
    ensures { (key chunk : List ℕ) → input.now ≡ value_after key flags chunk counter first
        → bytes.now ≡ drop (64 * first) chunk
        → result ≡ value_after key flags chunk counter (first + count) }
{
    let mut value = *input;
    'blocks: for i in 0..count {
        let at = BLOCK_LEN * i;
        value = next_value(
            &value,
            flags,
            &bytes[at..at + BLOCK_LEN],
            first + i,
            counter,
        );
    }
    value
}

// The last compression of a chunk whose last block is `block`, at `place`.
fn last_output(input: &[u32; 8], flags: u32, block: &[u8], place: usize, counter: u64) -> Output
    requires { length block.now ≤ 64 }
    ensures { result ≡ record {
      input = input.now;
      block = block_words block.now;
      counter = counter;
      len = length block.now;
      flags = bit_or (bit_or flags (start_flag place)) chunk_end;
    } }
{
    Output {
        input: *input,
        block: block_words(block),
        counter,
        len: block.len() as u32,
        flags: flags | start_flag(place) | CHUNK_END,
    }
}

/// The chaining value of chunk number `counter`, where it is not the root.
pub fn chunk_value(key: &[u32; 8], flags: u32, chunk: &[u8], counter: u64) -> [u32; 8]
    requires { length chunk.now ≤ 1024 }
    ensures { result ≡ node_value (chunk_output key.now flags chunk.now counter) }
{
    let last = chunk.len().saturating_sub(1) / BLOCK_LEN;
    let input = value_after(key, flags, chunk, 0, last, counter);
    last_output(&input, flags, &chunk[BLOCK_LEN * last..], last, counter).value()
}

/// A chunk that is taken in piece by piece: the chaining value after every block but the last so
/// far, and that block.
#[derive(Drop)]
pub struct ChunkState {
    input: [u32; 8],
    block: [u8; BLOCK_LEN],
    // How many bytes the chunk has so far.
    len: usize,
    counter: u64,
    flags: u32,
}

impl ChunkState {
    ghost use Rattle.blake3_core.specs.Chunk.{HasChunk, chunk_len};

    /// The state of chunk number `counter` before its first byte.
    pub fn new(key: &[u32; 8], flags: u32, counter: u64) -> ChunkState
        ensures empty { HasChunk key.now flags counter result [] }
    {
        ChunkState {
            input: *key,
            block: [0; BLOCK_LEN],
            len: 0,
            counter,
            flags,
        }
    }

    /// How many bytes of the chunk it has.
    pub fn len(&self) -> usize
        ensures { result ≡ chunk_len self.now }
    {
        self.len
    }

    /// Takes in the chunk's next bytes.
    pub fn update(&mut self, piece: &[u8])
        requires { chunk_len self.old + length piece.now ≤ 1024 }
        ensures len { chunk_len self.new ≡ chunk_len self.old + length piece.now }
        ensures bytes { (key : List ℕ) (flags counter : ℕ) (bytes : List ℕ)
            → HasChunk key flags counter self.old bytes
            → HasChunk key flags counter self.new (bytes ++ piece.now) }
    {
        let before = self.len.saturating_sub(1) / BLOCK_LEN;
        let used = self.len - BLOCK_LEN * before;
        let room = BLOCK_LEN - used;
        if piece.len() <= room {
            self.block[used..used + piece.len()].copy_from_slice(piece);
            self.len += piece.len();
            return;
        }
        if used == 0 {
            self.continue_from(0, piece);
            return;
        }
        self.block[used..].copy_from_slice(&piece[..room]);
        self.input = next_value(&self.input, self.flags, &self.block, before, self.counter);
        self.continue_from(before + 1, &piece[room..]);
    }

    // Takes in `rest`, with no block kept: the blocks before `first` are compressed. The last block
    // of `rest` is kept, since the chunk may end with it.
    fn continue_from(&mut self, first: usize, rest: &[u8])
        requires more { 0 < length rest.now }
        requires in_chunk { 64 * first + length rest.now ≤ 1024 }
        ensures len { chunk_len self.new ≡ 64 * first + length rest.now }
        ensures bytes { (key : List ℕ) (flags counter : ℕ) (bytes : List ℕ)
            → self.old.flags ≡ flags → self.old.counter ≡ counter
            → self.old.input ≡ value_after key flags bytes counter first
            → rest.now ≡ drop (64 * first) bytes → 64 * first ≤ length bytes
            → HasChunk key flags counter self.new bytes }
    {
        let count = (rest.len() - 1) / BLOCK_LEN;
        self.input = value_after(&self.input, self.flags, rest, first, count, self.counter);
        let tail = &rest[BLOCK_LEN * count..];
        self.block[..tail.len()].copy_from_slice(tail);
        self.len = BLOCK_LEN * first + rest.len();
    }

    /// The last compression of the chunk that ends here.
    pub fn output(&self) -> Output
        ensures { (key : List ℕ) (flags counter : ℕ) (bytes : List ℕ)
            → HasChunk key flags counter self.now bytes
            → result ≡ chunk_output key flags bytes counter }
    {
        let last = self.len.saturating_sub(1) / BLOCK_LEN;
        let used = self.len - BLOCK_LEN * last;
        last_output(
            &self.input,
            self.flags,
            &self.block[..used],
            last,
            self.counter,
        )
    }
}
