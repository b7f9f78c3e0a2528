ghost use Rattle.std.specs.Prelude.{◌≡◌, ◌≤◌};
ghost use Rattle.iscc_header.specs.Bits.{distance as hamming};

/// The Hamming distance of two bodies of 64 bits: the number of places where their bits differ.
pub fn distance(a: u64, b: u64) -> u32
    ensures value { result ≡ hamming a b }
    ensures most { result ≤ 64 }
{
    (a ^ b).count_ones()
}
