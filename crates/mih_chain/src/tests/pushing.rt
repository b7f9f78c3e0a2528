// Two passes link entries that they have in hand.
ghost use Rattle.std.specs.Prelude.{◌≡◌, ◌+◌, ◌<◌, ◌^◌, [], ◌∷◌, length, IfOk, OnOk};
ghost use Rattle.reg_rule.specs.Fresh.{fresh};
ghost use Rattle.reg_rule.specs.Moves.{took, new_hand, pinned};
ghost use Rattle.reg_rule.specs.Rounds.{IsWordsPass};
ghost use Rattle.reg_rule.specs.inner.Trials.{two_callers, all_counted, written_hand, wrote};
ghost use Rattle.mih_chain.specs.inner.Trials.{Knows, with_entry};

use super::*;
use reg_rule::{load_give, load_put, load_take, store_held, swap_take};
use std::sync::Wait;

// A round of two callers, in which nothing is carried.
fn pair(alloc: Global) -> Result<(Words, Pass, Pass), Fail>
    ensures words { IfOk result (λ r. r.0.1 ≡ two_callers 4 8) }
    ensures first { IfOk result (λ r. r.1 ≡ (r.0.0, fresh (two_callers 4 8) 0 1)) }
    ensures second { IfOk result (λ r. r.2 ≡ (r.0.0, fresh (two_callers 4 8) 1 1)) }
{
    let sizes = Sizes::new(4, 8, 4, 2).ok_or("sizes")?;
    let (words, mut passes) = Words::start(alloc, &sizes, &Carried::new(alloc, 0))?;
    let Some(second) = passes.pop() else {
        return Err("no second pass".into());
    };
    let Some(first) = passes.pop() else {
        return Err("no first pass".into());
    };
    Ok((words, first, second))
}

// The entry of this number is taken under the same count.
fn takes(words: &Words, pass: &mut Pass, entry: u32) -> Result<(), Fail>
    requires own { IsWordsPass words.now pass.old }
    requires inside { entry < pass.old.1.key.entries }
    requires none { pass.old.1.hands ≡ [] }
    ensures { OnOk result (pass.new ≡ (words.now.0, took (all_counted pass.old.1 (9 ∷ 10 ∷ 11 ∷ [])) entry)) }
{
    let count = entry as u64;
    if load_take(words, pass) != count {
        return Err("another count".into());
    }
    if load_put(words, pass, Told::Nothing) == count {
        return Err("the ring is empty".into());
    }
    if load_give(words, pass, entry) != count {
        return Err("another entry".into());
    }
    if swap_take(words, pass, count, count + 1, count) != count {
        return Err("it was taken before".into());
    }
    Ok(())
}

// The entry is unborn, and has this code.
fn writes(words: &Words, pass: &mut Pass, entry: u32, code: u64)
    requires own { IsWordsPass words.now pass.old }
    requires inside { entry < pass.old.1.key.entries }
    requires hand { pass.old.1.hands ≡ new_hand entry ∷ [] }
    ensures { pass.new ≡ (words.now.0, wrote pass.old.1 entry code) }
{
    store_held(words, pass, None);
    store_held(words, pass, Some(code));
}

// The entry is taken and written.
fn prepares(words: &Words, pass: &mut Pass, entry: u32, code: u64) -> Result<(), Fail>
    requires own { IsWordsPass words.now pass.old }
    requires inside { entry < pass.old.1.key.entries }
    requires none { pass.old.1.hands ≡ [] }
    ensures { OnOk result (Knows words.now pass.new (with_entry pass.old.1 entry code 0)) }
{
    takes(words, pass, entry)?;
    writes(words, pass, entry, code);
    Ok(())
}

// The entry is linked in this table, after those before.
fn links<R: Wait>(rt: &R, words: &Words, pass: &mut Pass, entry: u32, code: u64, table: u32)
    requires own { IsWordsPass words.now pass.old }
    requires inside { entry < pass.old.1.key.entries }
    requires table { table < 4 }
    requires hand { pass.old.1.hands ≡ written_hand entry code table ∷ [] }
    ensures { Knows words.now pass.new (record pass.old.1 { hands = written_hand entry code (table + 1) ∷ [] }) }
{
    link(rt, words, pass, table, entry, code);
}

// The entry is linked in all four tables.
fn enters<R: Wait>(
    rt: &R,
    words: &Words,
    pass: &mut Pass,
    entry: u32,
    code: u64,
) -> Result<(), Fail>
    requires own { IsWordsPass words.now pass.old }
    requires inside { entry < pass.old.1.key.entries }
    requires none { pass.old.1.hands ≡ [] }
    ensures { OnOk result (Knows words.now pass.new (with_entry pass.old.1 entry code 4)) }
{
    prepares(words, pass, entry, code)?;
    links(rt, words, pass, entry, code, 0);
    links(rt, words, pass, entry, code, 1);
    links(rt, words, pass, entry, code, 2);
    links(rt, words, pass, entry, code, 3);
    Ok(())
}

// The pass, which has seen no place, is pinned.
fn pins(words: &Words, pass: &mut Pass)
    requires own { IsWordsPass words.now pass.old }
    requires free { pass.old.1.pin ≡ 0 }
    requires none { length pass.old.1.log ≡ 0 }
    ensures { pass.new ≡ (words.now.0, pinned pass.old.1) }
{
    store_pin(words, pass, 1, Told::Nothing);
}

// The bucket has this entry alone.
fn meets_one(
    words: &Words,
    pass: &mut Pass,
    table: u32,
    bucket: u32,
    entry: u32,
) -> Result<(), Fail>
    requires own { IsWordsPass words.now pass.old }
    requires pinned { 0 < pass.old.1.pin }
    requires table { table < 4 }
    requires bucket { bucket < 2 ^ pass.old.1.key.sizes.bits }
    ensures own { OnOk result (IsWordsPass words.now pass.new) }
    ensures pin { OnOk result (pass.new.1.pin ≡ pass.old.1.pin) }
{
    let Some(only) = first(words, pass, table, bucket, Told::Nothing) else {
        return Err("no entry".into());
    };
    if only != entry {
        return Err("another entry".into());
    }
    if next(words, pass, table, only).is_some() {
        return Err("an entry more".into());
    }
    Ok(())
}

// The bucket has these two entries, in this order.
fn meets_both(
    words: &Words,
    pass: &mut Pass,
    table: u32,
    bucket: u32,
    newest: u32,
    oldest: u32,
) -> Result<(), Fail>
    requires own { IsWordsPass words.now pass.old }
    requires pinned { 0 < pass.old.1.pin }
    requires table { table < 4 }
    requires bucket { bucket < 2 ^ pass.old.1.key.sizes.bits }
    ensures own { OnOk result (IsWordsPass words.now pass.new) }
    ensures pin { OnOk result (pass.new.1.pin ≡ pass.old.1.pin) }
{
    let Some(front) = first(words, pass, table, bucket, Told::Begins) else {
        return Err("no entry".into());
    };
    if front != newest {
        return Err("another entry".into());
    }
    let Some(behind) = next(words, pass, table, front) else {
        return Err("no entry behind".into());
    };
    if behind != oldest {
        return Err("another entry behind".into());
    }
    if next(words, pass, table, behind).is_some() {
        return Err("an entry more".into());
    }
    Ok(())
}

#[test]
fn the_entry_that_was_linked_last_is_met_first(rt: HostRuntime) -> Result<(), Fail> {
    let (words, mut older, mut newer) = pair(rt.alloc())?;
    enters(&rt, &words, &mut older, 0, 0x0123_4567_89ab_cdef)?;
    // Of the same bucket in the first table, and of others in the rest.
    enters(&rt, &words, &mut newer, 1, 0x0003_0000_0000_0000)?;
    pins(&words, &mut newer);
    meets_both(&words, &mut newer, 0, 3, 1, 0)?;
    meets_one(&words, &mut newer, 1, 7, 0)?;
    meets_one(&words, &mut newer, 2, 11, 0)?;
    meets_one(&words, &mut newer, 3, 15, 0)?;
    meets_one(&words, &mut newer, 3, 0, 1)
}
