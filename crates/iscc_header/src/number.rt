ghost use Rattle.std.specs.Prelude.{◌≡◌, ◌<◌, ◌≤◌, ◌+◌, ◌-◌, ◌*◌, ◌^◌, ◌++◌, ◌↔◌, ℕ, List, length, IsNone, IfSome, IfOk, IsOkAnd, MatchResult};
ghost use Rattle.iscc_header.specs.Bits.{bits_of};
ghost use Rattle.iscc_header.specs.Headers.{number_bits, bits_from, IsEncodable, EncodesNumber, BeginsWithNumber, EndsWithinNumber, BeginsWithNoNumber};
ghost use Rattle.iscc_header.specs.inner.Reading.{ReadsNumber};

/// The greatest number that a header can have. Four nibbles that begin with the bits 1110 have 12 bits for the
/// number, and what they encode begins at 584: 584 + 2^12 - 1.
pub const NUMBER_MOST: u16 = 4679;

/// The encoding of a number of a header: the low `4 * count` bits of `value`, the highest of them first.
#[derive(Clone, Copy, Debug, PartialEq, Eq)]
pub struct Nibbles {
    /// How many nibbles it has, 1 to 4.
    pub count: u8,
    /// The nibbles as one number, the first of them the highest.
    pub value: u16,
}

/// Why no number of a header stands at a place, in the order of the causes.
#[derive(Clone, Copy, Debug, PartialEq, Eq)]
pub enum NibbleFault {
    /// The bytes end within an encoding.
    Short,
    /// The nibble there is 15, with which no encoding begins.
    NoCode,
}

/// The encoding of a number of a header, in 1 to 4 nibbles (ISO 24138:2024, header encoding). A number above
/// [`NUMBER_MOST`] has none.
pub fn put_nibbles(n: u16) -> Option<Nibbles>
    ensures found { IfSome result (λ s. bits_of (4 * s.count) s.value ≡ number_bits n) }
    ensures fits { IfSome result (λ s. s.value < 2 ^ (4 * s.count)) }
    ensures count { IfSome result (λ s. s.count ≤ 4) }
    ensures none { IsNone result ↔ (NUMBER_MOST < n) }
{
    match n {
        0..=7 => Some(Nibbles { count: 1, value: n }),
        8..=71 => Some(Nibbles {
            count: 2,
            value: 0x80 + (n - 8),
        }),
        72..=583 => Some(Nibbles {
            count: 3,
            value: 0xC00 + (n - 72),
        }),
        584..=NUMBER_MOST => Some(Nibbles {
            count: 4,
            value: 0xE000 + (n - 584),
        }),
        _ => None,
    }
}

/// Reads the number of a header at nibble place `at`, and gives it with the place after it.
///
/// Place 0 is the high half of the first byte, and place 1 its low half.
pub fn get_nibbles(bytes: &[u8], at: usize) -> Result<(u16, usize), NibbleFault>
    requires { at ≤ 2 * length bytes.now }
    ensures within { IfOk result (λ read. read.1 ≤ 2 * length bytes.now) }
    ensures found { IfOk result (λ read.
        BeginsWithNumber (bits_from bytes.now at) read.0 (bits_from bytes.now read.1)) }
    ensures complete { (n : ℕ) (rest : List ℕ) → BeginsWithNumber (bits_from bytes.now at) n rest
        → IsOkAnd result (λ read. read.0 ≡ n) }
    ensures short { (result ≡ Err NibbleFault.Short) ↔ EndsWithinNumber (bits_from bytes.now at) }
    ensures no_code { (result ≡ Err NibbleFault.NoCode) ↔ BeginsWithNoNumber (bits_from bytes.now at) }
{
    read_number(bytes, at)
}

// The first nibble says how many more there are.
fn read_number(bytes: &[u8], at: usize) -> Result<(u16, usize), NibbleFault>
    requires { at ≤ 2 * length bytes.now }
    ensures { ReadsNumber bytes.now at result }
{
    if at == 2 * bytes.len() {
        return Err(NibbleFault::Short);
    }
    let first = nibble_at(bytes, at) as u16;
    match first {
        0..=7 => Ok((first, at + 1)),
        8..=11 => read_rest(bytes, at + 1, 1, 8 + 16 * (first - 8)),
        12..=13 => read_rest(bytes, at + 1, 2, 72 + 256 * (first - 12)),
        14 => read_rest(bytes, at + 1, 3, 584),
        _ => Err(NibbleFault::NoCode),
    }
}

// Some number from `least` on, by the nibbles that are left of its encoding.
fn read_rest(bytes: &[u8], at: usize, count: usize, least: u16) -> Result<(u16, usize), NibbleFault>
    requires within { at ≤ 2 * length bytes.now }
    requires few { count ≤ 3 }
    requires small { least ≤ 584 }
    ensures { MatchResult result
        (λ read. (number : ℕ) × (read.0 ≡ least + number) × (number < 2 ^ (4 * count))
        × (read.1 ≤ 2 * length bytes.now)
        × (bits_from bytes.now at ≡ bits_of (4 * count) number ++ bits_from bytes.now read.1))
        (λ fault. (fault ≡ NibbleFault.Short) × (2 * length bytes.now < at + count)) }
{
    if 2 * bytes.len() - at < count {
        return Err(NibbleFault::Short);
    }
    let mut number = 0u16;
    for i in 0..count {
        number = 16 * number + nibble_at(bytes, at + i) as u16;
    }
    Ok((least + number, at + count))
}

/// The nibble at a place of the bytes.
pub(crate) fn nibble_at(bytes: &[u8], at: usize) -> u8
    requires { at < 2 * length bytes.now }
    ensures small { result < 16 }
    ensures value { bits_from bytes.now at ≡ bits_of 4 result ++ bits_from bytes.now (at + 1) }
{
    let byte = bytes[at / 2];
    if at % 2 == 0 { byte / 16 } else { byte % 16 }
}
