// The steps that unlink: the holder of the sweep cuts the entry that it seeks from its chain in one table.
ghost use Rattle.std.specs.Prelude.{◌≡◌};
ghost use Rattle.reg_rule.specs.Conditions.{MayCutHead, MayCutNext};
ghost use Rattle.reg_rule.specs.Steps.{HeadCut, NextCut};
ghost use Rattle.reg_rule.specs.Rounds.{IsWordsPass};

use crate::rule::{CutHead, CutNext, Telling};
use crate::words::{Pass, Words};
use std::marker::Brand;

// The exchange, told by a type in which table it is made, as a `Play` is.
fn cut_head_as<T: Telling>(
    words: &Words,
    pass: &mut Pass,
    table: u32,
    bucket: u32,
    old: u64,
    new: u64,
) -> u64
    requires told { T.table ≡ table }
    requires own { IsWordsPass words.now pass.old }
    requires may { MayCutHead table bucket old new pass.old.1 }
    ensures own { IsWordsPass words.now pass.new }
    ensures told { HeadCut T.table old pass.old.1 result pass.new.1 }
{
    let at = words.head_at(table, bucket);
    words
        .table
        .shared
        .compare_exchange::<CutHead<T>>(&mut pass.seat, at, old, new)
}

/// Kind 20: an exchange of the head of a bucket, from the entry that the holder of the sweep seeks to the next word that
/// it loaded behind it.
pub fn cut_head(words: &Words, pass: &mut Pass, table: u32, bucket: u32, old: u64, new: u64) -> u64
    requires own { IsWordsPass words.now pass.old }
    requires may { MayCutHead table bucket old new pass.old.1 }
    ensures own { IsWordsPass words.now pass.new }
    ensures told { HeadCut table old pass.old.1 result pass.new.1 }
{
    cut_head_as::<Brand>(words, pass, table, bucket, old, new)
}

// The exchange, told by a type in which table it is made.
fn cut_next_as<T: Telling>(
    words: &Words,
    pass: &mut Pass,
    table: u32,
    entry: u32,
    old: u64,
    new: u64,
) -> u64
    requires told { T.table ≡ table }
    requires own { IsWordsPass words.now pass.old }
    requires may { MayCutNext table entry old new pass.old.1 }
    ensures own { IsWordsPass words.now pass.new }
    ensures told { NextCut T.table old pass.old.1 result pass.new.1 }
{
    let at = words.next_at(table, entry);
    words
        .table
        .shared
        .compare_exchange::<CutNext<T>>(&mut pass.seat, at, old, new)
}

/// Kind 21: an exchange of the next word of the entry before the one that the holder of the sweep seeks, from that one
/// to the next word that it loaded behind it.
pub fn cut_next(words: &Words, pass: &mut Pass, table: u32, entry: u32, old: u64, new: u64) -> u64
    requires own { IsWordsPass words.now pass.old }
    requires may { MayCutNext table entry old new pass.old.1 }
    ensures own { IsWordsPass words.now pass.new }
    ensures told { NextCut table old pass.old.1 result pass.new.1 }
{
    cut_next_as::<Brand>(words, pass, table, entry, old, new)
}
