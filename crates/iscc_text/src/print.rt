ghost use Rattle.std.specs.Prelude.{◌≡◌, ◌<◌, ◌≤◌, ◌+◌, ◌*◌, [], ◌∷◌, ◌++◌, length, drop, slice_index};
ghost use Rattle.arrayvec.specs.ArrayString.{array_string_len};
ghost use Rattle.iscc_header.specs.Bits.{bits_of, byte_bits};
ghost use Rattle.iscc_header.specs.Kinds.{main_of, sub_of};
ghost use Rattle.iscc_header.specs.Unit64s.{IsUnit64};
ghost use Rattle.iscc_code.specs.Units.{unit_parts};
ghost use Rattle.iscc_code.specs.declared.iscc.Iscc.TheVariants.{Unit as AUnit};
ghost use Rattle.iscc_text.specs.Base32.{letter};
ghost use Rattle.iscc_text.specs.UnitText.{unit_text};
ghost use Rattle.iscc_text.specs.PrintedTexts.{IsPrintedText};
ghost use Rattle.iscc_text.specs.Texts.{StandsFor};

use arrayvec::ArrayString;
use iscc_code::{Iscc, encode};
use iscc_header::{Kind, Unit64};

/// What a printed text begins with.
pub(crate) const SCHEME: &str = "ISCC:";

/// The letters of a unit of 64 bits: 16 bits of header and 64 bits of body, five to a letter.
pub(crate) const LETTERS: usize = 16;

// MainType and SubType take a nibble of the header each, and Version and Length the byte behind them.
const NIBBLE: u32 = 16;

const BYTE: u32 = 256;

// Version 0, and the Length that stands for 64 bits.
const VERSION_AND_LENGTH: u32 = 1;

/// The printed text of a unit of 64 bits: `ISCC:` and 16 capital letters of base32 (RFC 4648, section 6), the header
/// first.
///
/// Takes no memory.
pub fn print_unit(unit: &Unit64) -> ArrayString<80>
    ensures text { result.bytes ≡ unit_text unit.now }
    ensures printed { IsPrintedText (AUnit (unit_parts unit.now)) result.bytes }
    ensures stands { StandsFor result.bytes (AUnit (unit_parts unit.now)) }
    ensures range { IsUnit64 unit.now }
{
    let bits = header_number(unit.kind) as u128 * (1 << 64) + unit.body as u128;
    let mut text = ArrayString::new();
    text.push_str(SCHEME);
    for i in 0..LETTERS {
        let place = 5 * (LETTERS - 1 - i);
        push_letter(&mut text, ((bits >> place) % 32) as u8);
    }
    text
}

// The header of a unit of 64 bits, as the number that its 16 bits are.
fn header_number(kind: Kind) -> u32
    ensures value { result ≡ (main_of kind * 16 + sub_of kind) * 256 + 1 }
    ensures range { kind < 13 }
{
    let main = kind.main().number() as u32;
    let sub = kind.sub() as u32;
    (main * NIBBLE + sub) * BYTE + VERSION_AND_LENGTH
}

/// The printed text of an ISCC: `ISCC:` and the capital letters of its bytes, without padding characters.
///
/// Takes no memory.
pub fn print_iscc(iscc: &Iscc) -> ArrayString<80>
    ensures printed { IsPrintedText iscc.now result.bytes }
    ensures stands { StandsFor result.bytes iscc.now }
{
    let bytes = encode(iscc);
    let bytes = bytes.as_slice();
    let mut text = ArrayString::new();
    text.push_str(SCHEME);
    for i in 0..(8 * bytes.len() + 4) / 5 {
        push_letter(&mut text, digit_at(bytes, i));
    }
    text
}

// The five bits at letter place `i`, with zeros behind the last byte.
fn digit_at(bytes: &[u8], i: usize) -> u8
    requires within { 5 * i < 8 * length bytes.now }
    requires short { length bytes.now ≤ 42 }
    ensures range { result < 32 }
    ensures bits { drop (5 * i) (byte_bits bytes.now ++ bits_of 8 0)
        ≡ bits_of 5 result ++ drop (5 * (i + 1)) (byte_bits bytes.now ++ bits_of 8 0) }
{
    let place = 5 * i / 8;
    let two = bytes[place] as u16 * 256 + byte_or_zero(bytes, place + 1) as u16;
    ((two >> (11 - 5 * i % 8)) % 32) as u8
}

fn byte_or_zero(bytes: &[u8], at: usize) -> u8
    ensures inside { at < length bytes.now → result ≡ slice_index bytes.now at }
    ensures past { length bytes.now ≤ at → result ≡ 0 }
    ensures byte { result < 256 }
{
    if at < bytes.len() { bytes[at] } else { 0 }
}

// The letter of RFC 4648 for five bits.
fn push_letter(text: &mut ArrayString<80>, digit: u8)
    requires digit { digit < 32 }
    requires room { array_string_len text.old < 80 }
    ensures { text.new.bytes ≡ text.old.bytes ++ letter digit ∷ [] }
{
    let byte = if digit < 26 {
        b'A' + digit
    } else {
        b'2' + (digit - 26)
    };
    text.push(byte as char);
}
