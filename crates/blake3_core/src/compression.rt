// The compression function (the BLAKE3 paper, 2.2).

ghost use Rattle.std.specs.Prelude.{◌≡◌, ℕ, ◌+◌, ◌<◌, ◌≤◌, length, take};
ghost use Rattle.blake3_core.specs.Compression.{compress, mixed, permuted, quarter_round, round, rounds, word_at};

/// The constants `IV[0]` to `IV[7]`, which are SHA-256's initial hash value, and the key of plain mode.
pub const IV: [u32; 8] = [
    0x6A09_E667,
    0xBB67_AE85,
    0x3C6E_F372,
    0xA54F_F53A,
    0x510E_527F,
    0x9B05_688C,
    0x1F83_D9AB,
    0x5BE0_CD19,
];

#[inline(always)]
fn quarter_round(a: u32, b: u32, c: u32, d: u32, x: u32, y: u32) -> [u32; 4]
    ensures { result ≡ quarter_round a b c d x y }
{
    let a = a.wrapping_add(b).wrapping_add(x);
    let d = (d ^ a).rotate_right(16);
    let c = c.wrapping_add(d);
    let b = (b ^ c).rotate_right(12);
    let a = a.wrapping_add(b).wrapping_add(y);
    let d = (d ^ a).rotate_right(8);
    let c = c.wrapping_add(d);
    let b = (b ^ c).rotate_right(7);
    [a, b, c, d]
}

// G on the places `a`, `b`, `c` and `d` of the state.
#[inline(always)]
fn mix(v: &mut [u32; 16], a: usize, b: usize, c: usize, d: usize, x: u32, y: u32)
    requires a_in { a < 16 }
    requires b_in { b < 16 }
    requires c_in { c < 16 }
    requires d_in { d < 16 }
    ensures { v.new ≡ mixed v.old a b c d x y }
{
    let [w, x, y, z] = quarter_round(v[a], v[b], v[c], v[d], x, y);
    v[a] = w;
    v[b] = x;
    v[c] = y;
    v[d] = z;
}

#[inline(always)]
fn round(v: &mut [u32; 16], m: &[u32; 16])
    ensures { v.new ≡ round v.old m.now }
{
    mix(v, 0, 4, 8, 12, m[0], m[1]);
    mix(v, 1, 5, 9, 13, m[2], m[3]);
    mix(v, 2, 6, 10, 14, m[4], m[5]);
    mix(v, 3, 7, 11, 15, m[6], m[7]);
    mix(v, 0, 5, 10, 15, m[8], m[9]);
    mix(v, 1, 6, 11, 12, m[10], m[11]);
    mix(v, 2, 7, 8, 13, m[12], m[13]);
    mix(v, 3, 4, 9, 14, m[14], m[15]);
}

#[inline(always)]
fn permuted(m: &[u32; 16]) -> [u32; 16]
    ensures { result ≡ permuted m.now }
{
    [
        m[2], m[6], m[3], m[10], m[7], m[0], m[4], m[13], m[1], m[11], m[12], m[5], m[9], m[14],
        m[15], m[8],
    ]
}

#[inline(always)]
fn seven_rounds(v: &mut [u32; 16], m: &[u32; 16])
    ensures { v.new ≡ rounds v.old m.now 7 }
{
    round(v, m);
    let m = permuted(m);
    round(v, &m);
    let m = permuted(&m);
    round(v, &m);
    let m = permuted(&m);
    round(v, &m);
    let m = permuted(&m);
    round(v, &m);
    let m = permuted(&m);
    round(v, &m);
    let m = permuted(&m);
    round(v, &m);
}

/// The compression function on the chaining value `cv` and a block of 16 words, with the block's
/// true length in bytes, 0 to 64. The first 8 words of the result are the new chaining value.
pub fn compress(cv: &[u32; 8], block: &[u32; 16], counter: u64, len: u32, flags: u32) -> [u32; 16]
    ensures { result ≡ compress cv.now block.now counter len flags }
{
    let low = (counter % (1 << 32)) as u32;
    let high = (counter >> 32) as u32;
    let mut v = [
        cv[0], cv[1], cv[2], cv[3], cv[4], cv[5], cv[6], cv[7], IV[0], IV[1], IV[2], IV[3], low,
        high, len, flags,
    ];
    seven_rounds(&mut v, block);
    [
        v[0] ^ v[8],
        v[1] ^ v[9],
        v[2] ^ v[10],
        v[3] ^ v[11],
        v[4] ^ v[12],
        v[5] ^ v[13],
        v[6] ^ v[14],
        v[7] ^ v[15],
        v[8] ^ cv[0],
        v[9] ^ cv[1],
        v[10] ^ cv[2],
        v[11] ^ cv[3],
        v[12] ^ cv[4],
        v[13] ^ cv[5],
        v[14] ^ cv[6],
        v[15] ^ cv[7],
    ]
}

/// The first 8 of 16 words.
pub(crate) fn first_half(words: &[u32; 16]) -> [u32; 8]
    ensures { result ≡ take 8 words.now }
{
    [
        words[0], words[1], words[2], words[3], words[4], words[5], words[6], words[7],
    ]
}
