// One update.
ghost use Rattle.std.specs.Prelude.{◌≡◌, ◌≢◌, ◌<◌, IfOk, IfErr, None, length};
ghost use Rattle.reg_words.specs.Packing.{FitsLog};
ghost use Rattle.reg_rule.specs.declared.view.Place.{Place};
ghost use Rattle.reg_rule.specs.Log.{place_of, place_word, record_at};
ghost use Rattle.reg_rule.specs.Helping.{HasHelped};
ghost use Rattle.reg_rule.specs.Conditions.{MayCommit};
ghost use Rattle.reg_rule.specs.Moves.{committed, passed};
ghost use Rattle.reg_rule.specs.Steps.{SeenFits, RowsServed};
ghost use Rattle.reg_rule.specs.Rounds.{IsWordsPass};

use reg_model::Update;
use reg_rule::{Pass, Words, swap_log};
use reg_words::LogWord;

/// Another record took the place: this is its word, which isn't 0.
#[derive(Clone, Copy, Debug, PartialEq, Eq)]
pub struct Lost {
    pub found: u64,
}

/// Puts the update into the next place, if it is still empty. The entry is that in hand for a declaration, and for a
/// withdrawal the one in which the declaration was found live. Won or lost, the place is seen.
pub fn commit(
    words: &Words,
    pass: &mut Pass,
    place: u32,
    update: &Update,
    entry: u32,
) -> Result<(), Lost>
    requires own { IsWordsPass words.now pass.old }
    requires pinned { 0 < pass.old.1.pin }
    requires unopened { pass.old.1.snapshot ≡ None }
    requires next { place ≡ length pass.old.1.log }
    requires inside { place < pass.old.1.key.sizes.log }
    requires helped { HasHelped pass.old.1 place }
    requires record { MayCommit pass.old.1 update.now entry }
    requires fits { FitsLog (record_at pass.old.1.key.carried.base place update.now entry) }
    ensures won { IfOk result (λ _. pass.new ≡ (words.now.0, committed pass.old.1 (place_of update.now entry))) }
    ensures lost { IfErr result (λ lost. (lost.found ≢ 0) × ((q : Place) × (lost.found ≡ place_word pass.old.1.key.carried.base place q) × (pass.new ≡ (words.now.0, passed pass.old.1 2 q)))) }
    ensures seen { SeenFits pass.old.1.key pass.new.1.log }
    ensures rows { RowsServed pass.new.1 }
{
    let word = match *update {
        Update::Decl(unit) => LogWord::Decl {
            kind: unit.kind,
            entry,
            id: words.carried().base() + place as u64,
        },
        Update::Wd(id) => LogWord::Wd { entry, id },
    };
    let found = swap_log(words, pass, place, 0, word.pack(), update, entry);
    if found != 0 {
        return Err(Lost { found });
    }
    Ok(())
}
