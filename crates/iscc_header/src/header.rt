ghost use Rattle.std.specs.Prelude.{◌≡◌, ◌≢◌, ◌<◌, ◌≤◌, ◌+◌, ◌*◌, ◌%◌, ◌^◌, ◌++◌, ◌↔◌, ◌⊎◌, ℕ, List, length, take, All, IsNone, IfSome, IfNone, IfOk};
ghost use Rattle.iscc_header.specs.Bits.{bits_of, byte_bits, IsByte};
ghost use Rattle.iscc_header.specs.Headers.{number_bits, padded, bits_from, IsEncodable, Numbers, IsHeader, EncodesHeader, EndsWithinHeader, LacksNumber, IsPaddedWrongly};
ghost use Rattle.iscc_header.specs.inner.Reading.{ReadsHeader};

use crate::number::{NUMBER_MOST, NibbleFault, get_nibbles, nibble_at, put_nibbles};
use arrayvec::ArrayVec;
use std::marker::Model;

/// The four numbers of a header (ISO 24138:2024), each of them at most [`NUMBER_MOST`].
#[derive(Clone, Copy, Debug, PartialEq, Eq)]
pub struct Header {
    main: u16,
    sub: u16,
    version: u16,
    len: u16,
}

impl Model for Header {
    ghost use Rattle.iscc_header.specs.Headers.{Numbers, IsHeader};

    ghost Value = { Numbers };

    ghost view = { λ h. record { main = h.main; sub = h.sub; version = h.version; len = h.len } };

    ghost invariant = { λ h. IsHeader (record { main = h.main; sub = h.sub; version = h.version; len = h.len }) };

    ghost inverse = { λ n. record { main = n.main; sub = n.sub; version = n.version; len = n.len } };
}

/// Why bytes begin with no header, in the order of the causes.
#[derive(Clone, Copy, Debug, PartialEq, Eq)]
pub enum HeaderFault {
    /// The bytes end within a number.
    Short,
    /// A nibble 15 stands where a number should begin.
    NoCode,
    /// The four numbers have an odd number of nibbles, and the nibble after them isn't 0.
    Padding,
}

impl Header {
    /// The header with these four numbers, or none if one of them is above [`NUMBER_MOST`]. What they may be for
    /// an ISCC is asked when one is decoded.
    pub fn new(main: u16, sub: u16, version: u16, length: u16) -> Option<Header>
        ensures found { IfSome result (λ h. h ≡ record { main = main; sub = sub; version = version; len = length }) }
        ensures none { IsNone result ↔ ((NUMBER_MOST < main) ⊎ (NUMBER_MOST < sub)
            ⊎ (NUMBER_MOST < version) ⊎ (NUMBER_MOST < length)) }
    {
        if main > NUMBER_MOST
            || sub > NUMBER_MOST
            || version > NUMBER_MOST
            || length > NUMBER_MOST
        {
            return None;
        }
        Some(Header {
            main,
            sub,
            version,
            len: length,
        })
    }

    /// The MainType, as the number that the header has.
    pub fn main(&self) -> u16
        ensures value { result ≡ self.now.main }
        ensures range { IsHeader self.now }
    {
        self.main
    }

    /// The SubType, as the number that the header has.
    pub fn sub(&self) -> u16
        ensures { result ≡ self.now.sub }
    {
        self.sub
    }

    /// The version, which is 0 in every ISCC of ISO 24138:2024.
    pub fn version(&self) -> u16
        ensures { result ≡ self.now.version }
    {
        self.version
    }

    /// The Length. Of a unit it tells how wide the body is, and of an ISCC-CODE which units it has.
    pub fn length(&self) -> u16
        ensures { result ≡ self.now.len }
    {
        self.len
    }
}

/// The bytes of a header: 2 to 8 of them (ISO 24138:2024, header encoding).
pub fn encode_header(header: &Header) -> ArrayVec<u8, 8>
    ensures { EncodesHeader header.now result.items }
{
    let all = [header.main, header.sub, header.version, header.len];
    let mut bits = Encoding { count: 0, value: 0 };
    for number in all {
        bits = joined(bits, number);
    }
    bytes_of(whole_bytes(bits))
}

// The low `4 * count` bits of `value`.
#[derive(Clone, Copy)]
struct Encoding {
    count: u32,
    value: u64,
}

// The bits with those of a number behind them.
fn joined(front: Encoding, number: u16) -> Encoding
    requires number { IsEncodable number }
    requires room { front.count ≤ 12 }
    requires fits { front.value < 2 ^ (4 * front.count) }
    ensures bits { bits_of (4 * result.count) result.value ≡ bits_of (4 * front.count) front.value ++ number_bits number }
    ensures fits { result.value < 2 ^ (4 * result.count) }
    ensures count { result.count ≤ front.count + 4 }
{
    let Some(last) = put_nibbles(number) else {
        unreachable!()
    };
    let width = 4 * last.count as u32;
    Encoding {
        count: front.count + last.count as u32,
        value: (front.value << width) + last.value as u64,
    }
}

// With one nibble 0 more, where the nibbles are odd in number.
fn whole_bytes(bits: Encoding) -> Encoding
    requires room { bits.count ≤ 16 }
    requires fits { bits.value < 2 ^ (4 * bits.count) }
    ensures bits { bits_of (4 * result.count) result.value ≡ padded (bits_of (4 * bits.count) bits.value) }
    ensures even { result.count % 2 ≡ 0 }
    ensures room { result.count ≤ 16 }
{
    if bits.count % 2 == 0 {
        return bits;
    }
    Encoding {
        count: bits.count + 1,
        value: bits.value << 4,
    }
}

// The bytes of the bits, the highest first.
fn bytes_of(bits: Encoding) -> ArrayVec<u8, 8>
    requires even { bits.count % 2 ≡ 0 }
    requires room { bits.count ≤ 16 }
    ensures encoded { byte_bits result.items ≡ bits_of (4 * bits.count) bits.value }
    ensures bytes { All IsByte result.items }
{
    let mut bytes = ArrayVec::new();
    let count = bits.count / 2;
    for i in 0..count {
        bytes.push(((bits.value >> (8 * (count - 1 - i))) % 256) as u8);
    }
    bytes
}

/// Reads the header at the front of the bytes, and gives how many bytes it has.
///
/// The four numbers are read in order, and the first fault is answered.
pub fn decode_header(bytes: &[u8]) -> Result<(Header, usize), HeaderFault>
    ensures within { IfOk result (λ read. read.1 ≤ length bytes.now) }
    ensures found { IfOk result (λ read. EncodesHeader read.0 (take read.1 bytes.now)) }
    ensures complete { (header : Numbers) (front rest : List ℕ) → EncodesHeader header front
        → bytes.now ≡ front ++ rest → result ≡ Ok (header, length front) }
    ensures short { (result ≡ Err HeaderFault.Short) ↔ EndsWithinHeader (byte_bits bytes.now) }
    ensures no_code { (result ≡ Err HeaderFault.NoCode) ↔ LacksNumber (byte_bits bytes.now) }
    ensures padding { (result ≡ Err HeaderFault.Padding) ↔ IsPaddedWrongly (byte_bits bytes.now) }
{
    read_header(bytes)
}

fn read_header(bytes: &[u8]) -> Result<(Header, usize), HeaderFault>
    ensures { ReadsHeader bytes.now result }
{
    let mut numbers = [0u16; 4];
    let mut at = 0;
    for i in 0..4 {
        match get_nibbles(bytes, at) {
            Ok((number, next)) => {
                numbers[i] = number;
                at = next;
            }
            Err(NibbleFault::Short) => return Err(HeaderFault::Short),
            Err(NibbleFault::NoCode) => return Err(HeaderFault::NoCode),
        }
    }
    let Some(end) = padded_end(bytes, at) else {
        return Err(HeaderFault::Padding);
    };
    let [main, sub, version, len] = numbers;
    let header = Header {
        main,
        sub,
        version,
        len,
    };
    Ok((header, end))
}

// How many bytes the numbers take that end at this nibble place, with the nibble 0 behind them if they have an odd number of nibbles.
fn padded_end(bytes: &[u8], at: usize) -> Option<usize>
    requires { at ≤ 2 * length bytes.now }
    ensures found { IfSome result (λ end. (2 * end ≡ at)
        ⊎ ((2 * end ≡ at + 1) × (bits_from bytes.now at ≡ bits_of 4 0 ++ bits_from bytes.now (at + 1)))) }
    ensures within { IfSome result (λ end. end ≤ length bytes.now) }
    ensures none { IfNone result ((at % 2 ≡ 1) × (take 4 (bits_from bytes.now at) ≢ bits_of 4 0)) }
{
    if at % 2 == 0 {
        return Some(at / 2);
    }
    if nibble_at(bytes, at) == 0 {
        Some(at / 2 + 1)
    } else {
        None
    }
}
