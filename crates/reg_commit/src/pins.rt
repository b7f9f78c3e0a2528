// The pin of a session.
ghost use Rattle.std.specs.Prelude.{◌≡◌, ◌<◌, None};
ghost use Rattle.reg_rule.specs.declared.told.Told.TheVariants.{Nothing};
ghost use Rattle.reg_rule.specs.Rounds.{IsWordsPass};
ghost use Rattle.reg_rule.specs.Moves.{pinned, unpinned};

use reg_rule::{Pass, Told, Words, store_pin};

/// Pins the pass: from here on no entry is given back that it may meet, and no declaration unlinked that is live at a front
/// which it finds.
pub fn pin(words: &Words, pass: &mut Pass)
    requires own { IsWordsPass words.now pass.old }
    requires free { pass.old.1.pin ≡ 0 }
    ensures { pass.new ≡ (words.now.0, pinned pass.old.1) }
{
    let word = pass.places_seen() as u64 + 1;
    store_pin(words, pass, word, Told::Nothing);
}

/// Unpins the pass, which has no open snapshot.
pub fn unpin(words: &Words, pass: &mut Pass)
    requires own { IsWordsPass words.now pass.old }
    requires pinned { 0 < pass.old.1.pin }
    requires unopened { pass.old.1.snapshot ≡ None }
    ensures { pass.new ≡ (words.now.0, unpinned Nothing pass.old.1) }
{
    store_pin(words, pass, 0, Told::Nothing);
}
