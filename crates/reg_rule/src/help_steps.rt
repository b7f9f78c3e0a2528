// The steps that complete a record of the log: its note, a birth, a death.
ghost use Rattle.std.specs.Prelude.{◌≡◌, ◌<◌};
ghost use Rattle.reg_rule.specs.Conditions.{MayStoreNote, MaySwapBirth, MaySwapDeath};
ghost use Rattle.reg_rule.specs.Steps.{NoteStored, BirthSwapped, DeathSwapped};
ghost use Rattle.reg_rule.specs.Rounds.{IsWordsPass};

use crate::rule::{StoreNote, SwapBirth, SwapDeath, Telling};
use crate::words::{Pass, Words};
use std::marker::Brand;

fn store_note_as<T: Telling>(words: &Words, pass: &mut Pass, place: u32, new: u64)
    requires told { T.at ≡ place }
    requires own { IsWordsPass words.now pass.old }
    requires may { MayStoreNote place new pass.old.1 }
    requires within { place < words.now.1.sizes.log }
    ensures own { IsWordsPass words.now pass.new }
    ensures told { NoteStored T.at pass.old.1 pass.new.1 }
{
    let at = words.note_at(place);
    words
        .table
        .shared
        .store::<StoreNote<T>>(&mut pass.seat, at, new);
}

/// Kind 4: a store of the note of the place that the pass helps.
pub fn store_note(words: &Words, pass: &mut Pass, place: u32, new: u64)
    requires own { IsWordsPass words.now pass.old }
    requires may { MayStoreNote place new pass.old.1 }
    ensures own { IsWordsPass words.now pass.new }
    ensures told { NoteStored place pass.old.1 pass.new.1 }
{
    store_note_as::<Brand>(words, pass, place, new)
}

/// Kind 5: an exchange of the stamp of the entry that is declared at the place that the pass helps, to its birth.
pub fn swap_birth(words: &Words, pass: &mut Pass, entry: u32, old: u64, new: u64) -> u64
    requires own { IsWordsPass words.now pass.old }
    requires may { MaySwapBirth entry old new pass.old.1 }
    ensures own { IsWordsPass words.now pass.new }
    ensures told { BirthSwapped pass.old.1 pass.new.1 }
{
    let at = words.stamp_at(entry);
    words
        .table
        .shared
        .compare_exchange::<SwapBirth<Brand>>(&mut pass.seat, at, old, new)
}

/// Kind 6: an exchange of the stamp of the entry that is withdrawn at the place that the pass helps, to its death.
pub fn swap_death(words: &Words, pass: &mut Pass, entry: u32, old: u64, new: u64) -> u64
    requires own { IsWordsPass words.now pass.old }
    requires may { MaySwapDeath entry old new pass.old.1 }
    ensures own { IsWordsPass words.now pass.new }
    ensures told { DeathSwapped pass.old.1 pass.new.1 }
{
    let at = words.stamp_at(entry);
    words
        .table
        .shared
        .compare_exchange::<SwapDeath<Brand>>(&mut pass.seat, at, old, new)
}
