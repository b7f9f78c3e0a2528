// The steps on the log.
ghost use Rattle.std.specs.Prelude.{◌≡◌, ◌<◌};
ghost use Rattle.reg_rule.specs.Log.{place_of};
ghost use Rattle.reg_rule.specs.Conditions.{MayLoadLog, MaySwapLog};
ghost use Rattle.reg_rule.specs.Steps.{LogLoaded, LogSwapped};
ghost use Rattle.reg_rule.specs.Rounds.{IsWordsPass};

use crate::rule::{LoadLog, SwapLog, Telling};
use crate::told::Told;
use crate::words::{Pass, Words};
use reg_model::Update;
use std::marker::Brand;

// The load, told by a type what it stands for, as a `Play` is.
fn load_log_as<T: Telling>(words: &Words, pass: &mut Pass, place: u32, told: Told) -> u64
    requires told { (T.told ≡ told) × (T.at ≡ place) }
    requires own { IsWordsPass words.now pass.old }
    requires may { MayLoadLog told place pass.old.1 }
    requires within { place < words.now.1.sizes.log }
    ensures own { IsWordsPass words.now pass.new }
    ensures told { LogLoaded T.told T.at pass.old.1 result pass.new.1 }
{
    let places = words.sizes.log();
    let at = words.log_at(place);
    let next = place == pass.seen;
    let found = words.table.shared.load::<LoadLog<T>>(&mut pass.seat, at);
    if next && found != 0 {
        pass.seen = place + 1;
        pass.remembered.decls += u32::from(found % 4 == 1);
    }
    let front = next && found == 0 || pass.seen == places;
    pass.remembered.open(told, front, pass.seen);
    found
}

/// Kind 1: a load of a place of the log, the next one or one that was seen.
pub fn load_log(words: &Words, pass: &mut Pass, place: u32, told: Told) -> u64
    requires own { IsWordsPass words.now pass.old }
    requires may { MayLoadLog told place pass.old.1 }
    ensures own { IsWordsPass words.now pass.new }
    ensures told { LogLoaded told place pass.old.1 result pass.new.1 }
{
    load_log_as::<Brand>(words, pass, place, told)
}

// The exchange, told by a type which record it is.
fn swap_log_as<T: Telling>(
    words: &Words,
    pass: &mut Pass,
    place: u32,
    old: u64,
    new: u64,
    update: &Update,
    _entry: u32,
) -> u64
    requires told { (T.at ≡ place) × (T.place ≡ place_of update.now _entry) }
    requires own { IsWordsPass words.now pass.old }
    requires may { MaySwapLog place old new (place_of update.now _entry) pass.old.1 }
    requires within { place < words.now.1.sizes.log }
    ensures own { IsWordsPass words.now pass.new }
    ensures told { LogSwapped T.at T.place pass.old.1 result pass.new.1 }
{
    let _places = words.sizes.log();
    let at = words.log_at(place);
    let found = words
        .table
        .shared
        .compare_exchange::<SwapLog<T>>(&mut pass.seat, at, old, new);
    pass.seen = place + 1;
    if found != 0 {
        pass.remembered.decls += u32::from(found % 4 == 1);
    } else if let Update::Decl(_) = update {
        pass.remembered.decls += 1;
        pass.hand = None;
    }
    found
}

/// Kind 2: an exchange of the next place of the log, from empty to the record of this update and entry.
pub fn swap_log(
    words: &Words,
    pass: &mut Pass,
    place: u32,
    old: u64,
    new: u64,
    update: &Update,
    entry: u32,
) -> u64
    requires own { IsWordsPass words.now pass.old }
    requires may { MaySwapLog place old new (place_of update.now entry) pass.old.1 }
    ensures own { IsWordsPass words.now pass.new }
    ensures told { LogSwapped place (place_of update.now entry) pass.old.1 result pass.new.1 }
{
    swap_log_as::<Brand>(words, pass, place, old, new, update, entry)
}
