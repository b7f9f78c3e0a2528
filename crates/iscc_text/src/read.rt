ghost use Rattle.std.specs.Prelude.{◌≡◌, ◌≢◌, ◌<◌, ◌≤◌, ◌-◌, ◌+◌, ◌*◌, ◌^◌, ◌∷◌, ◌++◌, ◌↔◌, ◌⊎◌, ℕ, List, length, take, drop, slice_index_or, map, codes, true, false, Some, IfSome, IfNone, IfOk, IsTrue};
ghost use Rattle.std.specs.List.{AllPass};
ghost use Rattle.iscc_code.specs.declared.iscc.Iscc.{Iscc as AnIscc};
ghost use Rattle.iscc_text.specs.declared.read.TextFault.{TextFault as AFault};
ghost use Rattle.iscc_text.specs.Texts.{StandsFor, HasTextFault, IsScheme, is_blank, is_allowed, is_no_colon, capital};
ghost use Rattle.iscc_text.specs.inner.Reading.{ReadsText, LettersMean};
ghost use Rattle.iscc_header.specs.declared.unit.Unit64.{Unit64 as AUnit};
ghost use Rattle.iscc_header.specs.Kinds.{main_of, sub_of};
ghost use Rattle.iscc_header.specs.Unit64s.{IsUnit64};
ghost use Rattle.iscc_text.specs.UnitText.{unit_text};
ghost use Rattle.iscc_text.specs.inner.Letters.{number_after};

use crate::gather::{KEPT, digit, gather, is_whole};
use crate::print::{LETTERS, SCHEME, print_unit};
use iscc_code::{Iscc, IsccFault, decode};
use iscc_header::{Kind, MainType, Unit64};

/// Why a text stands for no ISCC, in the order of the causes.
#[derive(Clone, Copy, Debug, PartialEq, Eq)]
pub enum TextFault {
    /// A colon stands there, and before the first one something other than `iscc`.
    Scheme,
    /// A byte that is no letter of base32 and no hyphen, at this place of the whole text, counted from 0.
    Letter { at: usize },
    /// The letters are those of no bytes. The number of letters of bytes, without hyphens, is 0, 2, 4, 5 or 7 modulo 8,
    /// and the bits behind the last whole byte are 0.
    Bits,
    /// The bytes encode no ISCC.
    Iscc(IsccFault),
}

/// The ISCC that a text stands for, or the first fault.
///
/// Blanks at both ends, a scheme `iscc:` in any mixture of cases, small letters and hyphens are taken
/// (ISO 24138:2024; RFC 4648, section 6, without padding characters). Takes no memory, for any length.
pub fn read_iscc(text: &[u8]) -> Result<Iscc, TextFault>
    ensures found { IfOk result (λ iscc. StandsFor text.now iscc) }
    ensures complete { (iscc : AnIscc) → StandsFor text.now iscc → result ≡ Ok iscc }
    ensures fault { (fault : AFault) → (result ≡ Err fault) ↔ HasTextFault text.now fault }
{
    read_text(text)
}

fn read_text(text: &[u8]) -> Result<Iscc, TextFault>
    ensures { ReadsText text.now result }
{
    let start = blanks_in_front(text);
    let behind = &text[start..];
    let core = &behind[..before_blanks(behind)];
    let Some(head) = scheme_len(core) else {
        return Err(TextFault::Scheme);
    };
    read_letters(&core[head..], start + head)
}

// A space or a tab.
#[tactic(auto, unfolding(crate::specs::Texts::is_blank))]
fn blank(byte: u8) -> bool
    ensures { result ≡ is_blank byte }
{
    byte == b' ' || byte == b'\t'
}

// A letter in either case, or a hyphen.
#[tactic(auto, unfolding(crate::specs::Texts::is_allowed, crate::specs::Texts::is_letter, crate::specs::Texts::capital))]
fn allows(byte: u8) -> bool
    ensures { result ≡ is_allowed byte }
{
    let capital = byte.to_ascii_uppercase();
    byte == b'-' || (b'A' <= capital && capital <= b'Z') || (b'2' <= capital && capital <= b'7')
}

// How many blanks the text begins with.
fn blanks_in_front(text: &[u8]) -> usize
    ensures within { result ≤ length text.now }
    ensures blank { AllPass is_blank (take result text.now) }
    ensures first { is_blank (slice_index_or text.now result 0) ≡ false }
{
    for i in 0..text.len() {
        if !blank(text[i]) {
            return i;
        }
    }
    text.len()
}

// How many bytes stand before the blanks that the text ends with.
fn before_blanks(text: &[u8]) -> usize
    ensures within { result ≤ length text.now }
    ensures blank { AllPass is_blank (drop result text.now) }
    ensures last { is_blank (slice_index_or (take result text.now) (result - 1) 0) ≡ false }
{
    let mut end = text.len();
    while end > 0 {
        if !blank(text[end - 1]) {
            return end;
        }
        end -= 1;
    }
    0
}

// How many bytes the scheme has, with its colon. None where a colon stands there and it isn't a scheme.
fn scheme_len(core: &[u8]) -> Option<usize>
    ensures found { IfSome result (λ head. (head ≤ length core.now)
        × ((head ≡ 0 × AllPass is_no_colon core.now) ⊎ IsScheme (take head core.now))) }
    ensures none { IfNone result ((name rest : List ℕ) × (core.now ≡ name ++ 58 ∷ rest)
        × AllPass is_no_colon name × (map capital name ≢ codes "ISCC")) }
{
    let at = colon_place(core);
    if at == core.len() {
        return Some(0);
    }
    if is_name(&core[..at]) {
        Some(at + 1)
    } else {
        None
    }
}

// `iscc` in any mixture of cases.
fn is_name(name: &[u8]) -> bool
    ensures { IsTrue result ↔ (map capital name.now ≡ codes "ISCC") }
{
    name.eq_ignore_ascii_case(b"iscc")
}

// The place of the first colon, or the length.
fn colon_place(core: &[u8]) -> usize
    ensures within { result ≤ length core.now }
    ensures before { AllPass is_no_colon (take result core.now) }
    ensures colon { result < length core.now → slice_index_or core.now result 0 ≡ 58 }
{
    for i in 0..core.len() {
        if core[i] == b':' {
            return i;
        }
    }
    core.len()
}

// What the letters stand for that begin at this place of the text.
fn read_letters(letters: &[u8], place: usize) -> Result<Iscc, TextFault>
    requires { place + length letters.now < 2 ^ 64 }
    ensures { LettersMean letters.now place result }
{
    let good = letters_in_front(letters);
    if good < letters.len() {
        return Err(TextFault::Letter { at: place + good });
    }
    let bits = gather(letters);
    if !is_whole(&bits) {
        return Err(TextFault::Bits);
    }
    match decode(&bits.kept[..bits.count.min(KEPT)]) {
        Ok(iscc) => Ok(iscc),
        Err(fault) => Err(TextFault::Iscc(fault)),
    }
}

// How many letters and hyphens stand in front.
fn letters_in_front(text: &[u8]) -> usize
    ensures within { result ≤ length text.now }
    ensures allowed { AllPass is_allowed (take result text.now) }
    ensures other { result < length text.now → is_allowed (slice_index_or text.now result 0) ≡ false }
{
    for i in 0..text.len() {
        if !allows(text[i]) {
            return i;
        }
    }
    text.len()
}

/// The unit of 64 bits whose printed text this is, if it is one's: neither small letters nor blanks or hyphens are
/// read.
///
/// Takes no memory.
pub fn read_printed(text: &[u8]) -> Option<Unit64>
    ensures found { IfSome result (λ unit. text.now ≡ unit_text unit) }
    ensures range { IfSome result IsUnit64 }
    ensures none { IfNone result ((unit : AUnit) → IsUnit64 unit → text.now ≡ unit_text unit → ⊥) }
{
    let unit = candidate(text)?;
    if print_unit(&unit).as_str().as_bytes() == text {
        Some(unit)
    } else {
        None
    }
}

// Which unit has this text, if one has it. Whether it has is seen by printing it.
fn candidate(text: &[u8]) -> Option<Unit64>
    ensures { (unit : AUnit) → IsUnit64 unit → text.now ≡ unit_text unit → result ≡ Some unit }
{
    let letters = text.strip_prefix(SCHEME.as_bytes())?;
    if letters.len() != LETTERS {
        return None;
    }
    let number = number_of(letters);
    unit_of(((number >> 64) % 65536) as u32, (number % (1 << 64)) as u64)
}

// The unit with this header and body, if there is one.
fn unit_of(header: u32, body: u64) -> Option<Unit64>
    requires { header < 65536 }
    ensures { (unit : AUnit) → IsUnit64 unit → header ≡ (main_of unit.kind * 16 + sub_of unit.kind) * 256 + 1 → body ≡ unit.body → result ≡ Some unit }
{
    let main = MainType::of((header / 4096) as u16)?;
    let kind = Kind::of(main, (header / 256 % 16) as u16)?;
    Some(Unit64 { kind, body })
}

// The number that letters stand for, cut where more come than a number has room for.
fn number_of(letters: &[u8]) -> u128
    ensures { result ≡ number_after 0 letters.now }
{
    let mut number = 0;
    for byte in letters {
        number = number % (1 << 120) * 32 + digit(*byte) as u128;
    }
    number
}
