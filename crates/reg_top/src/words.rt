ghost use Rattle.std.specs.Prelude.{◌≡◌, ◌<◌, ℕ, List, ◌↔◌, IsTrue, IfSome, IfNone, All, length, drop, slice_get};
ghost use Rattle.reg_top.specs.Words.{IsValue, IsMakeForm, HasOneValue, side_text, IsSideCommand};
ghost use Rattle.reg_make.specs.Workloads.{Work};

use crate::args::Args;
use reg_make::Workload;
use reg_requests::read_number;

/// The first word of a command that serves nothing.
#[derive(Clone, Copy, Debug, PartialEq, Eq)]
pub enum SideWord {
    Explain,
    Compose,
    Instance,
    Check,
}

/// Which command that serves nothing the first word names, if it names one.
pub(crate) fn side_word(words: &Args) -> Option<SideWord>
    ensures found { IfSome result (λ which. slice_get words.now 0 ≡ Some (side_text which)) }
    ensures none { IfNone result (IsSideCommand words.now → ⊥) }
{
    if words.len() == 0 {
        return None;
    }
    let word = words.word(0);
    if word == "explain" {
        return Some(SideWord::Explain);
    }
    if word == "compose" {
        return Some(SideWord::Compose);
    }
    if word == "instance" {
        return Some(SideWord::Instance);
    }
    if word == "check" {
        return Some(SideWord::Check);
    }
    None
}

/// The workload that the words of a `make` ask for, if they are of that form.
pub(crate) fn work_asked(words: &Args) -> Option<Workload>
    ensures found { IfSome result (IsMakeForm words.now) }
    ensures none { IfNone result ((work : Work) → IsMakeForm words.now work → ⊥) }
{
    if words.len() != 4 || words.word(0) != "make" {
        return None;
    }
    let seed = read_number(words.word(1).as_bytes())?;
    let each = read_number(words.word(2).as_bytes())?;
    let sessions = read_number(words.word(3).as_bytes())?;
    Workload::new(seed, each, sessions)
}

/// The one value behind a command's first word, where the words are of that form.
pub(crate) fn one_value<'a>(words: &'a Args, first: &str) -> Option<&'a str>
    ensures found { IfSome result (λ value. HasOneValue words.now first.now value.now) }
    ensures none { IfNone result ((value : List ℕ) → HasOneValue words.now first.now value → ⊥) }
{
    if words.len() != 2 || words.word(0) != first {
        return None;
    }
    let value = words.word(1);
    if is_value(value) { Some(value) } else { None }
}

/// Whether behind the first word stand texts, one or more.
pub(crate) fn has_texts(words: &Args) -> bool
    ensures { IsTrue result ↔ ((0 < length (drop 1 words.now)) × All IsValue (drop 1 words.now)) }
{
    if words.len() < 2 {
        return false;
    }
    for at in 0..words.len() - 1 {
        if !is_value(words.word(at + 1)) {
            return false;
        }
    }
    true
}

/// Whether a word isn't empty and doesn't begin with `-`.
pub(crate) fn is_value(word: &str) -> bool
    ensures { IsTrue result ↔ IsValue word.now }
{
    match word.as_bytes() {
        [] => false,
        [first, ..] => *first != b'-',
    }
}
