// The looks at an entry: its code and its stamp.
ghost use Rattle.std.specs.Prelude.{◌≡◌};
ghost use Rattle.reg_rule.specs.Conditions.{MayLoadCode, MayLoadStamp};
ghost use Rattle.reg_rule.specs.Steps.{CodeLoaded, StampLoaded};
ghost use Rattle.reg_rule.specs.Rounds.{IsWordsPass};

use crate::rule::{LoadCode, LoadStamp, Telling};
use crate::told::Told;
use crate::words::{Pass, Words};
use std::marker::Brand;

// The load, told by a type what it stands for.
fn load_code_as<T: Telling>(words: &Words, pass: &mut Pass, entry: u32, _told: Told) -> u64
    requires told { (T.told ≡ _told) × (T.at ≡ entry) }
    requires own { IsWordsPass words.now pass.old }
    requires may { MayLoadCode _told entry pass.old.1 }
    ensures own { IsWordsPass words.now pass.new }
    ensures told { CodeLoaded T.told T.at pass.old.1 result pass.new.1 }
{
    let at = words.code_at(entry);
    words.table.shared.load::<LoadCode<T>>(&mut pass.seat, at)
}

/// Kind 3: a load of the code of an entry, by a pass that is pinned or by the holder of the sweep.
pub fn load_code(words: &Words, pass: &mut Pass, entry: u32, told: Told) -> u64
    requires own { IsWordsPass words.now pass.old }
    requires may { MayLoadCode told entry pass.old.1 }
    ensures own { IsWordsPass words.now pass.new }
    ensures told { CodeLoaded told entry pass.old.1 result pass.new.1 }
{
    load_code_as::<Brand>(words, pass, entry, told)
}

// The load, told by a type what it stands for.
fn load_stamp_as<T: Telling>(words: &Words, pass: &mut Pass, entry: u32, _told: Told) -> u64
    requires told { (T.told ≡ _told) × (T.at ≡ entry) }
    requires own { IsWordsPass words.now pass.old }
    requires may { MayLoadStamp _told entry pass.old.1 }
    ensures own { IsWordsPass words.now pass.new }
    ensures told { StampLoaded T.told T.at pass.old.1 result pass.new.1 }
{
    let at = words.stamp_at(entry);
    words.table.shared.load::<LoadStamp<T>>(&mut pass.seat, at)
}

/// Kind 7: a load of the stamp of an entry, by a pass that is pinned, or by the holder of the sweep that examines the entry.
pub fn load_stamp(words: &Words, pass: &mut Pass, entry: u32, told: Told) -> u64
    requires own { IsWordsPass words.now pass.old }
    requires may { MayLoadStamp told entry pass.old.1 }
    ensures own { IsWordsPass words.now pass.new }
    ensures told { StampLoaded told entry pass.old.1 result pass.new.1 }
{
    load_stamp_as::<Brand>(words, pass, entry, told)
}
