// The steps on pins and on the word of the sweep.
ghost use Rattle.std.specs.Prelude.{◌≡◌};
ghost use Rattle.reg_rule.specs.Conditions.{MayLoadPin, MayStorePin, MaySwapSweep, MayStoreSweep};
ghost use Rattle.reg_rule.specs.Steps.{PinLoaded, PinStored, SweepSwapped, SweepStored};
ghost use Rattle.reg_rule.specs.Rounds.{IsWordsPass};

use crate::rule::{LoadPin, StorePin, StoreSweep, SwapSweep, Telling};
use crate::told::Told;
use crate::words::{Pass, Words};
use reg_words::SweepWord;
use std::marker::Brand;

// The store, told by a type what it stands for, as a `Play` is.
fn store_pin_as<T: Telling>(words: &Words, pass: &mut Pass, new: u64, told: Told)
    requires told { T.told ≡ told }
    requires own { IsWordsPass words.now pass.old }
    requires may { MayStorePin told new pass.old.1 }
    ensures own { IsWordsPass words.now pass.new }
    ensures told { PinStored T.told new pass.old.1 pass.new.1 }
{
    let at = words.pin_at(pass.remembered.number);
    words
        .table
        .shared
        .store::<StorePin<T>>(&mut pass.seat, at, new);
    pass.remembered.repin(told, new);
}

/// Kind 17: a store of the pin of the seat's session: it pins, unpins, or stores the same pin again.
pub fn store_pin(words: &Words, pass: &mut Pass, new: u64, told: Told)
    requires own { IsWordsPass words.now pass.old }
    requires may { MayStorePin told new pass.old.1 }
    ensures own { IsWordsPass words.now pass.new }
    ensures told { PinStored told new pass.old.1 pass.new.1 }
{
    store_pin_as::<Brand>(words, pass, new, told)
}

// The load, told by a type where it is made, as a `Play` is.
fn load_pin_as<T: Telling>(words: &Words, pass: &mut Pass, seat: u32) -> u64
    requires told { T.at ≡ seat }
    requires own { IsWordsPass words.now pass.old }
    requires may { MayLoadPin seat pass.old.1 }
    ensures own { IsWordsPass words.now pass.new }
    ensures told { PinLoaded T.at pass.old.1 result pass.new.1 }
{
    let at = words.pin_at(seat);
    words.table.shared.load::<LoadPin<T>>(&mut pass.seat, at)
}

/// Kind 18: a load of the pin of a session, by the holder of the sweep.
pub fn load_pin(words: &Words, pass: &mut Pass, seat: u32) -> u64
    requires own { IsWordsPass words.now pass.old }
    requires may { MayLoadPin seat pass.old.1 }
    ensures own { IsWordsPass words.now pass.new }
    ensures told { PinLoaded seat pass.old.1 result pass.new.1 }
{
    load_pin_as::<Brand>(words, pass, seat)
}

// The store, told by a type what it stands for and which state the word is of.
fn store_sweep_as<T: Telling>(
    words: &Words,
    pass: &mut Pass,
    new: u64,
    _word: &SweepWord,
    told: Told,
)
    requires told { (T.told ≡ told) × (T.word ≡ _word.now) }
    requires own { IsWordsPass words.now pass.old }
    requires may { MayStoreSweep new _word.now pass.old.1 }
    ensures own { IsWordsPass words.now pass.new }
    ensures told { SweepStored T.told T.word pass.old.1 pass.new.1 }
{
    words
        .table
        .shared
        .store::<StoreSweep<T>>(&mut pass.seat, 3, new);
    pass.remembered.leave_sweep(told, new);
}

/// Kind 19, by the holder of the sweep: a store of its word, which keeps the sweep or gives it back.
pub fn store_sweep(words: &Words, pass: &mut Pass, new: u64, word: &SweepWord, told: Told)
    requires own { IsWordsPass words.now pass.old }
    requires may { MayStoreSweep new word.now pass.old.1 }
    ensures own { IsWordsPass words.now pass.new }
    ensures told { SweepStored told word.now pass.old.1 pass.new.1 }
{
    store_sweep_as::<Brand>(words, pass, new, word, told)
}

// The exchange, told by a type what it stands for.
fn swap_sweep_as<T: Telling>(words: &Words, pass: &mut Pass, old: u64, new: u64, told: Told) -> u64
    requires told { T.told ≡ told }
    requires own { IsWordsPass words.now pass.old }
    requires may { MaySwapSweep old new pass.old.1 }
    ensures own { IsWordsPass words.now pass.new }
    ensures told { SweepSwapped T.told old pass.old.1 result pass.new.1 }
{
    let found = words
        .table
        .shared
        .compare_exchange::<SwapSweep<T>>(&mut pass.seat, 3, old, new);
    pass.remembered.find_sweep(told, found);
    found
}

/// Kind 19, to take the sweep: an exchange of its word, from the last one that the pass knows to the same, held.
pub fn swap_sweep(words: &Words, pass: &mut Pass, old: u64, new: u64, told: Told) -> u64
    requires own { IsWordsPass words.now pass.old }
    requires may { MaySwapSweep old new pass.old.1 }
    ensures own { IsWordsPass words.now pass.new }
    ensures told { SweepSwapped told old pass.old.1 result pass.new.1 }
{
    swap_sweep_as::<Brand>(words, pass, old, new, told)
}
