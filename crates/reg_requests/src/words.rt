ghost use Rattle.std.specs.Prelude.{◌≡◌, ◌<◌, ◌≤◌, ◌+◌, [], ◌∷◌, ℕ, List, length, take, slice_index, not, true, false, IfSome, IfNone};
ghost use Rattle.std.specs.List.{AllPass};
ghost use Rattle.iscc_text.specs.Texts.{is_blank};
ghost use Rattle.reg_requests.specs.Words.{words_of, without_return as returnless};

/// A line without the carriage return that it may end with.
pub(crate) fn without_return(line: &[u8]) -> &[u8]
    ensures { result.now ≡ returnless line.now }
{
    match line {
        [before @ .., b'\r'] => before,
        _ => line,
    }
}

/// The first word of a text, and what stands behind it.
pub(crate) fn next_word(text: &[u8]) -> Option<(&[u8], &[u8])>
    ensures found { IfSome result (λ pair. words_of text.now ≡ pair.0.now ∷ words_of pair.1.now) }
    ensures none { IfNone result (words_of text.now ≡ []) }
{
    let rest = &text[blanks_in_front(text)..];
    if rest.is_empty() {
        return None;
    }
    Some(rest.split_at(word_len(rest)))
}

/// The word of a text that has one word.
pub(crate) fn only_word(text: &[u8]) -> Option<&[u8]>
    ensures found { IfSome result (λ word. words_of text.now ≡ word.now ∷ []) }
    ensures none { IfNone result ((word : List ℕ) → words_of text.now ≡ word ∷ [] → ⊥) }
{
    let (word, rest) = next_word(text)?;
    match next_word(rest) {
        None => Some(word),
        Some(_) => None,
    }
}

/// The words of a text that has two words.
pub(crate) fn two_words(text: &[u8]) -> Option<(&[u8], &[u8])>
    ensures found { IfSome result (λ pair. words_of text.now ≡ pair.0.now ∷ pair.1.now ∷ []) }
    ensures none { IfNone result ((first second : List ℕ) → words_of text.now ≡ first ∷ second ∷ [] → ⊥) }
{
    let (first, rest) = next_word(text)?;
    let second = only_word(rest)?;
    Some((first, second))
}

// How many blanks a text begins with.
fn blanks_in_front(text: &[u8]) -> usize
    ensures within { result ≤ length text.now }
    ensures blank { AllPass is_blank (take result text.now) }
    ensures other { result < length text.now → is_blank (slice_index text.now result) ≡ false }
{
    for (i, byte) in text.iter().enumerate() {
        if !blank(*byte) {
            return i;
        }
    }
    text.len()
}

// How many bytes a text has before its first blank.
fn word_len(text: &[u8]) -> usize
    ensures within { result ≤ length text.now }
    ensures word { AllPass (λ byte. not (is_blank byte)) (take result text.now) }
    ensures blank { result < length text.now → is_blank (slice_index text.now result) ≡ true }
{
    for (i, byte) in text.iter().enumerate() {
        if blank(*byte) {
            return i;
        }
    }
    text.len()
}

// A space or a tab.
#[tactic(auto, unfolding(iscc_text::specs::Texts::is_blank))]
fn blank(byte: u8) -> bool
    ensures { result ≡ is_blank byte }
{
    byte == b' ' || byte == b'\t'
}
