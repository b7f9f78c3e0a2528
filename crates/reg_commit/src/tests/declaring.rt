// Two passes declare, and complete each other's places.
ghost use Rattle.std.specs.Prelude.{◌≡◌, ℕ, ◌<◌, [], ◌∷◌, length, None, IfOk, OnOk};
ghost use Rattle.reg_rule.specs.Fresh.{fresh};
ghost use Rattle.reg_rule.specs.Helping.{HasHelped};
ghost use Rattle.reg_rule.specs.Moves.{at_front, committed, new_hand, took};
ghost use Rattle.reg_rule.specs.Rounds.{IsWordsPass, IsAtRest};
ghost use Rattle.reg_rule.specs.declared.told.Told.TheVariants.{Nothing};
ghost use Rattle.reg_rule.specs.inner.Trials.{two_callers, declaring, meta_place, written_hand, wrote, linked_once};
ghost use Rattle.reg_commit.specs.inner.Trials.{Knows, with_entry, prepared, overtaken, caught_up};

use super::*;
use iscc_header::{Kind, Unit64};
use reg_model::{Closed, Update};
use reg_rule::{Told, load_head, load_log, load_stamp, store_held, store_next, swap_head};

// The front is found behind all that was seen.
pub(super) fn finds(words: &Words, pass: &mut Pass, place: u32) -> Result<(), Fail>
    requires own { IsWordsPass words.now pass.old }
    requires next { place ≡ length pass.old.1.log }
    ensures { OnOk result (Knows words.now pass.new (at_front Nothing pass.old.1 place)) }
{
    if front(words, pass, Told::Nothing) != place {
        return Err("another front".into());
    }
    Ok(())
}

// This entry is taken.
pub(super) fn takes(words: &Words, pass: &mut Pass, entry: u32) -> Result<(), Fail>
    requires own { IsWordsPass words.now pass.old }
    requires none { pass.old.1.hands ≡ [] }
    ensures { OnOk result (Knows words.now pass.new (took pass.old.1 entry)) }
{
    let Ok(taken) = take(words, pass) else {
        return Err("no entry".into());
    };
    if taken != entry {
        return Err("another entry".into());
    }
    Ok(())
}

// The entry is unborn, and has the code 0.
fn writes(words: &Words, pass: &mut Pass, entry: u32)
    requires own { IsWordsPass words.now pass.old }
    requires inside { entry < pass.old.1.key.entries }
    requires hand { pass.old.1.hands ≡ new_hand entry ∷ [] }
    ensures { pass.new ≡ (words.now.0, wrote pass.old.1 entry 0) }
{
    store_held(words, pass, None);
    store_held(words, pass, Some(0));
}

// The entry is pushed into the bucket 0 of this table, after those before.
fn links(words: &Words, pass: &mut Pass, entry: u32, table: u32) -> Result<(), Fail>
    requires own { IsWordsPass words.now pass.old }
    requires inside { entry < pass.old.1.key.entries }
    requires bits { pass.old.1.key.sizes.bits ≡ 4 }
    requires table { table < 4 }
    requires hand { pass.old.1.hands ≡ written_hand entry 0 table ∷ [] }
    ensures { OnOk result (pass.new ≡ (words.now.0, linked_once pass.old.1 entry 0 table)) }
{
    let first = load_head(words, pass, table, 0, Told::Links);
    store_next(words, pass, table, first);
    if swap_head(words, pass, table, 0, first, entry as u64 + 1) != first {
        return Err("another push came between".into());
    }
    Ok(())
}

// This entry is taken, written and linked in all four tables.
fn enters(words: &Words, pass: &mut Pass, entry: u32) -> Result<(), Fail>
    requires own { IsWordsPass words.now pass.old }
    requires inside { entry < pass.old.1.key.entries }
    requires bits { pass.old.1.key.sizes.bits ≡ 4 }
    requires none { pass.old.1.hands ≡ [] }
    ensures { OnOk result (Knows words.now pass.new (with_entry pass.old.1 entry 0 4)) }
{
    takes(words, pass, entry)?;
    writes(words, pass, entry);
    links(words, pass, entry, 0)?;
    links(words, pass, entry, 1)?;
    links(words, pass, entry, 2)?;
    links(words, pass, entry, 3)
}

// The pass is pinned, finds the front 0, and enters an entry.
fn prepares(words: &Words, pass: &mut Pass, seat: u32, log: u32) -> Result<(), Fail>
    requires words { words.now.1 ≡ two_callers 4 log }
    requires seat { seat < 2 }
    requires new { pass.old ≡ (words.now.0, fresh (two_callers 4 log) seat 1) }
    ensures { OnOk result (Knows words.now pass.new (prepared log seat)) }
{
    pin(words, pass);
    finds(words, pass, 0)?;
    enters(words, pass, seat)
}

// The kind META.
pub(super) fn meta() -> Result<Kind, Fail>
    ensures { IfOk result (λ kind. kind ≡ 0) }
{
    Ok(Kind::new(0).ok_or("no kind")?)
}

// The next place declares the body 0 of the kind META, in the entry in hand.
fn declares(words: &Words, pass: &mut Pass, place: u32, entry: u32) -> Result<(), Fail>
    requires own { IsWordsPass words.now pass.old }
    requires base { pass.old.1.key.carried.base ≡ 0 }
    requires pinned { 0 < pass.old.1.pin }
    requires unopened { pass.old.1.snapshot ≡ None }
    requires next { place ≡ length pass.old.1.log }
    requires inside { place < pass.old.1.key.sizes.log }
    requires helped { HasHelped pass.old.1 place }
    requires hand { pass.old.1.hands ≡ written_hand entry 0 4 ∷ [] }
    requires small { (entry < 4) × (place < 4) }
    ensures { OnOk result (pass.new ≡ (words.now.0, committed pass.old.1 (meta_place 0 entry))) }
{
    let update = Update::Decl(Unit64 {
        kind: meta()?,
        body: 0,
    });
    if commit(words, pass, place, &update, entry).is_err() {
        return Err("the place is filled".into());
    }
    Ok(())
}

// The second pass finds the first place filled: with the word 1, which is META, entry 0, id 0.
fn is_late(words: &Words, pass: &mut Pass) -> Result<(), Fail>
    requires words { words.now.1 ≡ declaring }
    requires ready { Knows words.now pass.old (prepared 2 1) }
    ensures { OnOk result ((body : ℕ) × Knows words.now pass.new (overtaken body)) }
{
    let update = Update::Decl(Unit64 {
        kind: meta()?,
        body: 0,
    });
    let Err(lost) = commit(words, pass, 0, &update, 1) else {
        return Err("the place was empty".into());
    };
    if lost.found != 1 {
        return Err("another word".into());
    }
    Ok(())
}

// The first pass completes its place, and is unpinned.
fn ends_first(words: &Words, pass: &mut Pass) -> Result<(), Fail>
    requires words { words.now.1 ≡ declaring }
    requires done { Knows words.now pass.old (committed (prepared 2 0) (meta_place 0 0)) }
    ensures { OnOk result (IsWordsPass words.now pass.new × IsAtRest pass.new.1) }
{
    help(words, pass, 0);
    if load_stamp(words, pass, 0, Told::Nothing) != 536_870_912 {
        return Err("another stamp".into());
    }
    unpin(words, pass);
    Ok(())
}

// The second pass finds the front behind the first place, and completes it.
fn catches_up(words: &Words, pass: &mut Pass) -> Result<(), Fail>
    requires words { words.now.1 ≡ declaring }
    requires late { (body : ℕ) × Knows words.now pass.old (overtaken body) }
    ensures { OnOk result ((body : ℕ) × Knows words.now pass.new (caught_up body)) }
{
    finds(words, pass, 1)?;
    help(words, pass, 0);
    Ok(())
}

// It declares at the second place, completes it, and is unpinned.
fn ends_second(words: &Words, pass: &mut Pass) -> Result<(), Fail>
    requires words { words.now.1 ≡ declaring }
    requires ready { (body : ℕ) × Knows words.now pass.old (caught_up body) }
    ensures { OnOk result (IsWordsPass words.now pass.new × IsAtRest pass.new.1) }
{
    declares(words, pass, 1, 1)?;
    help(words, pass, 1);
    finds(words, pass, 2)?;
    if load_log(words, pass, 1, Told::Nothing) != 67_108_929 {
        return Err("another word".into());
    }
    unpin(words, pass);
    Ok(())
}

// The round ends.
pub(super) fn ends_round(
    alloc: Global,
    words: Words,
    first: Pass,
    second: Pass,
) -> Result<Closed, Fail>
    requires first { IsWordsPass words first × IsAtRest first.1 }
    requires second { IsWordsPass words second × IsAtRest second.1 }
{
    let mut passes = Vec::new(alloc);
    passes.push(first)?;
    passes.push(second)?;
    let Ok((closed, _seal)) = words.finish(alloc, passes) else {
        return Err("not ended".into());
    };
    Ok(closed)
}

#[test]
fn two_passes_declare_and_help_each_other(rt: HostRuntime) -> Result<(), Fail> {
    let (words, mut first, mut second) = begins(rt.alloc(), 4, 2)?;
    prepares(&words, &mut first, 0, 2)?;
    prepares(&words, &mut second, 1, 2)?;
    declares(&words, &mut first, 0, 0)?;
    is_late(&words, &mut second)?;
    ends_first(&words, &mut first)?;
    catches_up(&words, &mut second)?;
    ends_second(&words, &mut second)?;
    let closed = ends_round(rt.alloc(), words, first, second)?;
    let update = Update::Decl(Unit64 {
        kind: meta()?,
        body: 0,
    });
    assert_eq!(rt; closed.log.as_slice(), [update, update].as_slice());
    Ok(())
}
