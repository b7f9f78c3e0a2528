ghost use Rattle.std.specs.Prelude.{◌≡◌, IfSome, IfNone};
ghost use Rattle.std.specs.Str.Parse.{digits_value};
ghost use Rattle.reg_requests.specs.Numbers.{IsNumber};

/// The number that a word stands for: 1 to 20 decimal digits below 2^64, leading zeros allowed.
pub fn read_number(word: &[u8]) -> Option<u64>
    ensures found { IfSome result (λ number. IsNumber word.now) }
    ensures value { IfSome result (λ number. number ≡ digits_value 10 word.now) }
    ensures none { IfNone result (IsNumber word.now → ⊥) }
{
    match word {
        [] => return None,
        [first, ..] => {
            if *first == b'+' || word.len() > 20 {
                return None;
            }
        }
    }
    let Ok(text) = std::str::from_utf8(word) else {
        return None;
    };
    text.parse().ok()
}
