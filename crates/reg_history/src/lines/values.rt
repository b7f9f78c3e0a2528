//! Values in a text, from the front on. Each function tells what stands there if the text has that form; whether it has
//! is seen by printing what is told.

ghost use Rattle.std.specs.Prelude.{◌≡◌, ◌<◌, ◌≤◌, ◌-◌, ◌^◌, ◌++◌, ℕ, List, length, slice_index};
ghost use Rattle.std.specs.Fmt.{decimal};
ghost use Rattle.iscc_header.specs.Unit64s.{IsUnit64};
ghost use Rattle.iscc_header.specs.declared.unit.Unit64.{Unit64 as AUnit};
ghost use Rattle.iscc_text.specs.UnitText.{unit_text};
ghost use Rattle.reg_history.specs.inner.Bytes.{first, IsValueText};

use iscc_header::Unit64;
use iscc_text::read_printed;
use reg_requests::read_number;

/// The first byte, or 0.
pub(crate) fn first_byte(text: &[u8]) -> u8
    ensures { result ≡ first text.now }
{
    match text {
        [] => 0,
        [byte, ..] => *byte,
    }
}

/// What stands behind a word.
pub(crate) fn behind<'a>(word: &[u8], text: &'a [u8]) -> &'a [u8]
    ensures reads { (rest : List ℕ) → text.now ≡ word.now ++ rest → result.now ≡ rest }
    ensures within { length result.now ≡ length text.now - length word.now }
{
    &text[word.len().min(text.len())..]
}

/// The text of a value behind a word, and what stands behind it.
pub(crate) fn value_behind<'a>(word: &[u8], text: &'a [u8]) -> (&'a [u8], &'a [u8])
    ensures reads { (value rest : List ℕ) → IsValueText value → first rest < 48 → text.now ≡ word.now ++ (value ++ rest)
        → (result.0.now ≡ value) × (result.1.now ≡ rest) }
    ensures within { length result.1.now ≤ length text.now }
{
    let text = behind(word, text);
    text.split_at(value_len(text))
}

// How many bytes stand before the first that is below the digits.
fn value_len(text: &[u8]) -> usize
    ensures within { result ≤ length text.now }
    ensures inside { (k : ℕ) → k < result → 48 ≤ slice_index text.now k }
    ensures ends { result < length text.now → slice_index text.now result < 48 }
{
    for (i, byte) in text.iter().enumerate() {
        if *byte < b'0' {
            return i;
        }
    }
    text.len()
}

/// The number behind a word, and what stands behind it.
pub(crate) fn number_behind<'a>(word: &[u8], text: &'a [u8]) -> (u64, &'a [u8])
    ensures reads { (n : ℕ) (rest : List ℕ) → n < 2 ^ 64 → first rest < 48 → text.now ≡ word.now ++ (decimal n ++ rest)
        → (result.0 ≡ n) × (result.1.now ≡ rest) }
    ensures range { result.0 < 2 ^ 64 }
    ensures within { length result.1.now ≤ length text.now }
{
    let (digits, rest) = value_behind(word, text);
    (read_number(digits).unwrap_or(0), rest)
}

/// The unit behind a word, and what stands behind it.
pub(crate) fn unit_behind<'a>(word: &[u8], text: &'a [u8]) -> (Unit64, &'a [u8])
    ensures reads { (unit : AUnit) (rest : List ℕ) → IsUnit64 unit → first rest < 48 → text.now ≡ word.now ++ (unit_text unit ++ rest)
        → (result.0 ≡ unit) × (result.1.now ≡ rest) }
    ensures range { IsUnit64 result.0 }
    ensures within { length result.1.now ≤ length text.now }
{
    let (letters, rest) = value_behind(word, text);
    (read_printed(letters).unwrap_or_default(), rest)
}
