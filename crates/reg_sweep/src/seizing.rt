// The sweep is taken, where nobody else holds it.
ghost use Rattle.std.specs.Prelude.{◌≡◌, ◌+◌, ◌-◌, ◌%◌, true, false, None, IfNone, IfSome};
ghost use Rattle.reg_words.specs.declared.word.SweepWord.{SweepWord as Sweep};
ghost use Rattle.reg_words.specs.Packing.{sweep_word};
ghost use Rattle.reg_rule.specs.Rounds.{IsWordsPass};
ghost use Rattle.reg_sweep.specs.Sweeping.{WasHeld};
ghost use Rattle.reg_sweep.specs.inner.Turns.{HasSeized, HasTried, refused};

use reg_rule::{Pass, Told, Words, swap_sweep};
use reg_words::{SweepWord, Swept, Why};

/// What a sweep answers that another caller holds.
pub(crate) const HELD: Swept = Swept {
    places: 0,
    given: 0,
    why: Why::Held,
};

/// Takes the sweep, and tells its word as it was before. Where another caller holds it, that was a sweep of its own.
pub(crate) fn seize(words: &Words, pass: &mut Pass) -> Option<SweepWord>
    requires own { IsWordsPass words.now pass.old }
    requires free { pass.old.1.holding ≡ None }
    ensures own { IsWordsPass words.now pass.new }
    ensures taken { IfSome result (λ word. HasSeized pass.old.1 word pass.new.1) }
    ensures held { IfNone result (WasHeld pass.old.1 refused pass.new.1) }
{
    loop {
        match try_seize(words, pass) {
            Try::Taken(word) => return Some(word),
            Try::Held => return None,
            Try::Moved => {}
        }
    }
}

// How one exchange went: the sweep was taken from this word; another caller holds it; its word is a later one.
pub(crate) enum Try {
    Taken(SweepWord),
    Held,
    Moved,
}

// One exchange, from the word that the pass knows.
fn try_seize(words: &Words, pass: &mut Pass) -> Try
    requires own { IsWordsPass words.now pass.old }
    requires free { pass.old.1.holding ≡ None }
    ensures own { IsWordsPass words.now pass.new }
    ensures tried { HasTried result pass.old.1 pass.new.1 }
{
    let old = pass.sweep_word();
    let found = swap_sweep(words, pass, old, held(old), Told::Ends(HELD));
    if found == old {
        return match SweepWord::unpack(old) {
            Some(word) => Try::Taken(word),
            // Never: what was exchanged is a word of the sweep.
            None => Try::Moved,
        };
    }
    if found % 2 == 1 {
        return Try::Held;
    }
    Try::Moved
}

// The word of the same state, held: its low bit says so.
fn held(word: u64) -> u64
    ensures { (s : Sweep) → word ≡ sweep_word s → result ≡ sweep_word (record s { held = true }) }
{
    word - word % 2 + 1
}
