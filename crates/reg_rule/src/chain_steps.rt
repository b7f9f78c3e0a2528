// The steps on the chains: heads, and the next words of entries.
ghost use Rattle.std.specs.Prelude.{◌≡◌, Some};
ghost use Rattle.reg_rule.specs.Seats.{hand_of};
ghost use Rattle.reg_rule.specs.Conditions.{MayStoreNext, MaySwapHead, MayLoadHead, MayLoadNext};
ghost use Rattle.reg_rule.specs.Steps.{NextStored, HeadSwapped};
ghost use Rattle.reg_rule.specs.Rounds.{IsWordsPass};
ghost use Rattle.reg_rule.specs.Steps.{HeadTells, NextTells};

use crate::rule::{LoadHead, LoadNext, StoreNext, SwapHead, Telling};
use crate::told::Told;
use crate::words::{Pass, Words};
use std::marker::Brand;

// The store, told by a type in which table it is made, as a `Play` is.
fn store_next_as<T: Telling>(words: &Words, pass: &mut Pass, table: u32, entry: u32, new: u64)
    requires told { T.table ≡ table }
    requires own { IsWordsPass words.now pass.old }
    requires may { MayStoreNext table pass.old.1 }
    requires entry { hand_of pass.old.1 ≡ Some entry }
    ensures own { IsWordsPass words.now pass.new }
    ensures told { NextStored T.table new pass.old.1 pass.new.1 }
{
    let at = words.next_at(table, entry);
    words
        .table
        .shared
        .store::<StoreNext<T>>(&mut pass.seat, at, new);
}

/// Kind 14: a store of the next word of the entry in hand, in a table in which it is not yet linked.
pub fn store_next(words: &Words, pass: &mut Pass, table: u32, new: u64)
    requires own { IsWordsPass words.now pass.old }
    requires may { MayStoreNext table pass.old.1 }
    ensures own { IsWordsPass words.now pass.new }
    ensures told { NextStored table new pass.old.1 pass.new.1 }
{
    let Some(entry) = pass.hand else { return };
    store_next_as::<Brand>(words, pass, table, entry, new)
}

// The exchange, told by a type in which table it is made.
fn swap_head_as<T: Telling>(
    words: &Words,
    pass: &mut Pass,
    table: u32,
    bucket: u32,
    old: u64,
    new: u64,
) -> u64
    requires told { T.table ≡ table }
    requires own { IsWordsPass words.now pass.old }
    requires may { MaySwapHead table bucket old new pass.old.1 }
    ensures own { IsWordsPass words.now pass.new }
    ensures told { HeadSwapped T.table old pass.old.1 result pass.new.1 }
{
    let at = words.head_at(table, bucket);
    words
        .table
        .shared
        .compare_exchange::<SwapHead<T>>(&mut pass.seat, at, old, new)
}

/// Kind 15: an exchange of the head of a bucket, to push the entry in hand in front of the head that was found.
pub fn swap_head(words: &Words, pass: &mut Pass, table: u32, bucket: u32, old: u64, new: u64) -> u64
    requires own { IsWordsPass words.now pass.old }
    requires may { MaySwapHead table bucket old new pass.old.1 }
    ensures own { IsWordsPass words.now pass.new }
    ensures told { HeadSwapped table old pass.old.1 result pass.new.1 }
{
    swap_head_as::<Brand>(words, pass, table, bucket, old, new)
}

// The load, told by a type what it stands for and in which table it is made.
fn load_head_as<T: Telling>(
    words: &Words,
    pass: &mut Pass,
    table: u32,
    bucket: u32,
    _told: Told,
) -> u64
    requires told { (T.told ≡ _told) × (T.table ≡ table) × (T.at ≡ bucket) }
    requires own { IsWordsPass words.now pass.old }
    requires may { MayLoadHead _told table bucket pass.old.1 }
    ensures own { IsWordsPass words.now pass.new }
    ensures told { HeadTells T.told T.table T.at pass.old.1 result pass.new.1 }
{
    let at = words.head_at(table, bucket);
    words.table.shared.load::<LoadHead<T>>(&mut pass.seat, at)
}

/// Kind 13: a load of the head of a bucket, by a walk, in order to push, or by the holder of the sweep.
pub fn load_head(words: &Words, pass: &mut Pass, table: u32, bucket: u32, told: Told) -> u64
    requires own { IsWordsPass words.now pass.old }
    requires may { MayLoadHead told table bucket pass.old.1 }
    ensures own { IsWordsPass words.now pass.new }
    ensures told { HeadTells told table bucket pass.old.1 result pass.new.1 }
{
    load_head_as::<Brand>(words, pass, table, bucket, told)
}

// The load, told by a type what it stands for and in which table it is made.
fn load_next_as<T: Telling>(
    words: &Words,
    pass: &mut Pass,
    table: u32,
    entry: u32,
    _told: Told,
) -> u64
    requires told { (T.told ≡ _told) × (T.table ≡ table) × (T.at ≡ entry) }
    requires own { IsWordsPass words.now pass.old }
    requires may { MayLoadNext _told table entry pass.old.1 }
    ensures own { IsWordsPass words.now pass.new }
    ensures told { NextTells T.told T.table T.at pass.old.1 result pass.new.1 }
{
    let at = words.next_at(table, entry);
    words.table.shared.load::<LoadNext<T>>(&mut pass.seat, at)
}

/// Kind 16: a load of the next word of an entry, by a walk or by the holder of the sweep.
pub fn load_next(words: &Words, pass: &mut Pass, table: u32, entry: u32, told: Told) -> u64
    requires own { IsWordsPass words.now pass.old }
    requires may { MayLoadNext told table entry pass.old.1 }
    ensures own { IsWordsPass words.now pass.new }
    ensures told { NextTells told table entry pass.old.1 result pass.new.1 }
{
    load_next_as::<Brand>(words, pass, table, entry, told)
}
