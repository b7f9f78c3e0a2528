// The steps on the entry in hand and on the ring.
ghost use Rattle.std.specs.Prelude.{◌≡◌, ℕ, None, Some};
ghost use Rattle.reg_rule.specs.declared.view.Taking.TheVariants.{Named};
ghost use Rattle.reg_rule.specs.Seats.{hand_of};
ghost use Rattle.reg_rule.specs.Conditions.{MayStoreHeld, MayLoadTake, MayLoadPut, MayLoadGive, MayGive, MayStorePut, MaySwapTake};
ghost use Rattle.reg_rule.specs.Steps.{HeldStored, TakeLoaded, PutLoaded, GiveLoaded, GiveStored, PutStored, TakeSwapped};
ghost use Rattle.reg_rule.specs.Rounds.{IsWordsPass};

use crate::rule::{LoadGive, LoadPut, LoadTake, StoreGive, StoreHeld, StorePut, SwapTake, Telling};
use crate::told::Told;
use crate::words::{Pass, Words};
use std::marker::Brand;

// The stamp.
fn store_unborn(words: &Words, pass: &mut Pass, entry: u32)
    requires own { IsWordsPass words.now pass.old }
    requires may { MayStoreHeld pass.old.1 }
    requires entry { hand_of pass.old.1 ≡ Some entry }
    ensures own { IsWordsPass words.now pass.new }
    ensures told { HeldStored None pass.old.1 pass.new.1 }
{
    let at = words.stamp_at(entry);
    words
        .table
        .shared
        .store::<StoreHeld<Brand>>(&mut pass.seat, at, 0);
}

// The code, told by a type, as a `Play` is.
fn store_code_as<T: Telling>(words: &Words, pass: &mut Pass, entry: u32, code: u64)
    requires told { T.code ≡ Some code }
    requires own { IsWordsPass words.now pass.old }
    requires may { MayStoreHeld pass.old.1 }
    requires entry { hand_of pass.old.1 ≡ Some entry }
    ensures own { IsWordsPass words.now pass.new }
    ensures told { HeldStored T.code pass.old.1 pass.new.1 }
{
    let at = words.code_at(entry);
    words
        .table
        .shared
        .store::<StoreHeld<T>>(&mut pass.seat, at, code);
}

/// Kind 8: a store of the code of the entry in hand, or of its stamp as unborn.
pub fn store_held(words: &Words, pass: &mut Pass, new: Option<u64>)
    requires own { IsWordsPass words.now pass.old }
    requires may { MayStoreHeld pass.old.1 }
    ensures own { IsWordsPass words.now pass.new }
    ensures told { HeldStored new pass.old.1 pass.new.1 }
{
    let Some(entry) = pass.hand else { return };
    match new {
        None => store_unborn(words, pass, entry),
        Some(code) => store_code_as::<Brand>(words, pass, entry, code),
    }
}

/// Kind 9: a load of the count of entries taken.
pub fn load_take(words: &Words, pass: &mut Pass) -> u64
    requires own { IsWordsPass words.now pass.old }
    requires may { MayLoadTake pass.old.1 }
    ensures own { IsWordsPass words.now pass.new }
    ensures told { TakeLoaded pass.old.1 result pass.new.1 }
{
    words
        .table
        .shared
        .load::<LoadTake<Brand>>(&mut pass.seat, 1)
}

// The load, told by a type what it stands for.
fn load_put_as<T: Telling>(words: &Words, pass: &mut Pass, _told: Told) -> u64
    requires told { T.told ≡ _told }
    requires own { IsWordsPass words.now pass.old }
    requires may { MayLoadPut _told pass.old.1 }
    ensures own { IsWordsPass words.now pass.new }
    ensures told { PutLoaded T.told pass.old.1 result pass.new.1 }
{
    words.table.shared.load::<LoadPut<T>>(&mut pass.seat, 2)
}

/// Kind 10: a load of the count of entries put, by a pass that takes an entry or by the holder of the sweep.
pub fn load_put(words: &Words, pass: &mut Pass, told: Told) -> u64
    requires own { IsWordsPass words.now pass.old }
    requires may { MayLoadPut told pass.old.1 }
    ensures own { IsWordsPass words.now pass.new }
    ensures told { PutLoaded told pass.old.1 result pass.new.1 }
{
    load_put_as::<Brand>(words, pass, told)
}

/// Kind 11: a load of the ring place of the count that was taken.
pub fn load_give(words: &Words, pass: &mut Pass, place: u32) -> u64
    requires own { IsWordsPass words.now pass.old }
    requires may { MayLoadGive place pass.old.1 }
    ensures own { IsWordsPass words.now pass.new }
    ensures told { GiveLoaded pass.old.1 result pass.new.1 }
{
    let _entries = words.sizes.entries();
    let at = words.give_at(place);
    words
        .table
        .shared
        .load::<LoadGive<Brand>>(&mut pass.seat, at)
}

/// Kind 22: a store of the entry in limbo in its ring place, by the holder of the sweep.
pub fn store_give(words: &Words, pass: &mut Pass, place: u32, new: u64)
    requires own { IsWordsPass words.now pass.old }
    requires may { MayGive place new pass.old.1 }
    ensures own { IsWordsPass words.now pass.new }
    ensures told { GiveStored pass.old.1 pass.new.1 }
{
    let _entries = words.sizes.entries();
    let at = words.give_at(place);
    words
        .table
        .shared
        .store::<StoreGive<Brand>>(&mut pass.seat, at, new);
}

/// Kind 22: a store of the count of entries put, by the holder of the sweep: the entry that it has stored is in the ring
/// from then on, and was given back.
pub fn store_put(words: &Words, pass: &mut Pass, new: u64)
    requires own { IsWordsPass words.now pass.old }
    requires may { MayStorePut new pass.old.1 }
    ensures own { IsWordsPass words.now pass.new }
    ensures told { PutStored pass.old.1 pass.new.1 }
{
    words
        .table
        .shared
        .store::<StorePut<Brand>>(&mut pass.seat, 2, new);
}

// The exchange, told by a type which entry it takes.
fn swap_take_as<T: Telling>(words: &Words, pass: &mut Pass, old: u64, new: u64, entry: u64) -> u64
    requires told { T.at ≡ entry }
    requires own { IsWordsPass words.now pass.old }
    requires may { MaySwapTake old new pass.old.1 }
    requires entry { (p : ℕ) × (pass.old.1.taking ≡ Named old p entry) }
    ensures own { IsWordsPass words.now pass.new }
    ensures told { TakeSwapped old pass.old.1 result pass.new.1 }
{
    let _entries = words.sizes.entries();
    let found = words
        .table
        .shared
        .compare_exchange::<SwapTake<T>>(&mut pass.seat, 1, old, new);
    if found == old {
        pass.hand = Some(entry as u32);
    }
    found
}

/// Kind 12: an exchange of the count of entries taken, by a pass that has loaded this entry from its ring place.
pub fn swap_take(words: &Words, pass: &mut Pass, old: u64, new: u64, entry: u64) -> u64
    requires own { IsWordsPass words.now pass.old }
    requires may { MaySwapTake old new pass.old.1 }
    requires entry { (p : ℕ) × (pass.old.1.taking ≡ Named old p entry) }
    ensures own { IsWordsPass words.now pass.new }
    ensures told { TakeSwapped old pass.old.1 result pass.new.1 }
{
    swap_take_as::<Brand>(words, pass, old, new, entry)
}
