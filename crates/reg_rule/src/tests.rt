// The rows of the tests are steps of two passes, one by one: each is proved to be allowed by what the steps before it told.
ghost use Rattle.std.specs.Prelude.{◌≡◌, ◌<◌, [], ◌∷◌, length, None, IfOk, OnOk};
ghost use Rattle.reg_rule.specs.declared.told.Told.TheVariants.{Nothing};
ghost use Rattle.reg_rule.specs.Fresh.{fresh};
ghost use Rattle.reg_rule.specs.Conditions.{MayTellFront};
ghost use Rattle.reg_rule.specs.Moves.{with_step, again, at_front, pinned, unpinned};
ghost use Rattle.reg_rule.specs.Rounds.{IsWordsPass};
ghost use Rattle.reg_rule.specs.inner.Trials.{two_callers};

use super::*;
use reg_model::{Carried, Sizes};
use reg_words::{SweepWord, Swept, Why};
use std::alloc::Global;
use std::test::Fail;

mod entering;
mod finish;
mod start;
mod sweeping;
mod unlinking;

// A round of two sessions, which begins after five updates and carries nothing.
fn pair(alloc: Global) -> Result<(Words, Pass, Pass), Fail>
    ensures first { IfOk result (λ made. made.1 ≡ (made.0.0, fresh made.0.1 0 1)) }
    ensures second { IfOk result (λ made. made.2 ≡ (made.0.0, fresh made.0.1 1 1)) }
    ensures log { IfOk result (λ made. made.0.1.sizes.log ≡ 64) }
{
    let sizes = Sizes::new(4, 64, 12, 2).ok_or("sizes")?;
    let (words, mut passes) = Words::start(alloc, &sizes, &Carried::new(alloc, 5))?;
    let Some(second) = passes.pop() else {
        return Err("no second pass".into());
    };
    let Some(first) = passes.pop() else {
        return Err("no first pass".into());
    };
    Ok((words, first, second))
}

#[test]
fn a_new_pass_has_its_session_and_nothing_else(rt: HostRuntime) -> Result<(), Fail> {
    let (_words, first, second) = pair(rt.alloc())?;
    assert_eq!(rt; first.number(), 0);
    assert_eq!(rt; second.number(), 1);
    assert_eq!(rt; second.seen(), 5);
    assert_eq!(rt; second.places_seen(), 0);
    assert_eq!(rt; second.snapshot(), None);
    assert_eq!(rt; second.hand(), None);
    assert!(rt; !second.pinned());
    assert_eq!(rt; second.pin(), 0);
    assert_eq!(rt; second.decls(), 0);
    assert_eq!(rt; second.wds(), 0);
    assert_eq!(rt; second.sweep_word(), 0);
    assert_eq!(rt; second.sweeps(), 0);
    assert_eq!(rt; second.last_sweep(), None);
    Ok(())
}

#[test]
fn a_snapshot_is_of_the_point_where_it_was_opened(rt: HostRuntime) -> Result<(), Fail> {
    let (words, mut pass, _second) = pair(rt.alloc())?;
    store_pin(&words, &mut pass, 1, Told::Nothing);
    assert!(rt; pass.pinned());
    assert_eq!(rt; pass.pin(), 1);
    assert_eq!(rt; load_log(&words, &mut pass, 0, Told::Opens), 0);
    assert_eq!(rt; pass.snapshot(), Some(5));
    assert_eq!(rt; load_take(&words, &mut pass), 0);
    assert_eq!(rt; pass.snapshot(), Some(5));
    assert_eq!(rt; pass.seen(), 5);
    assert_eq!(rt; pass.decls(), 0);
    Ok(())
}

#[test]
fn a_sweep_is_counted_where_it_ends(rt: HostRuntime) -> Result<(), Fail> {
    let (words, mut pass, _second) = pair(rt.alloc())?;
    let held = SweepWord {
        held: true,
        limbo: false,
        place: 0,
        mark: 0,
    };
    let free = SweepWord {
        held: false,
        limbo: false,
        place: 0,
        mark: 0,
    };
    let found = swap_sweep(&words, &mut pass, free.pack(), held.pack(), Told::Nothing);
    assert!(rt; found == 0);
    assert_eq!(rt; pass.sweeps(), 0);
    let swept = Swept {
        places: 0,
        given: 0,
        why: Why::Front,
    };
    store_sweep(&words, &mut pass, free.pack(), &free, Told::Ends(swept));
    assert_eq!(rt; pass.sweeps(), 1);
    assert_eq!(rt; pass.last_sweep(), Some(swept));
    assert_eq!(rt; pass.sweep_word(), 0);
    Ok(())
}

// A round of two callers, in which nothing is carried.
fn begins(alloc: Global, entries: u32, log: u32) -> Result<(Words, Pass, Pass), Fail>
    ensures words { IfOk result (λ r. r.0.1 ≡ two_callers entries log) }
    ensures first { IfOk result (λ r. r.1 ≡ (r.0.0, fresh (two_callers entries log) 0 1)) }
    ensures second { IfOk result (λ r. r.2 ≡ (r.0.0, fresh (two_callers entries log) 1 1)) }
{
    let sizes = Sizes::new(entries, log, 4, 2).ok_or("sizes")?;
    let (words, mut passes) = Words::start(alloc, &sizes, &Carried::new(alloc, 0))?;
    let Some(second) = passes.pop() else {
        return Err("no second pass".into());
    };
    let Some(first) = passes.pop() else {
        return Err("no first pass".into());
    };
    Ok((words, first, second))
}

// The passes in this order.
fn both(alloc: Global, first: Pass, second: Pass) -> Result<Vec<Pass>, Fail>
    ensures { IfOk result (λ passes. passes.items ≡ first ∷ second ∷ []) }
{
    let mut passes = Vec::new(alloc);
    passes.push(first)?;
    passes.push(second)?;
    Ok(passes)
}

// The next place is found empty.
fn finds_front(words: &Words, pass: &mut Pass, place: u32, told: Told) -> Result<(), Fail>
    requires own { IsWordsPass words.now pass.old }
    requires next { place ≡ length pass.old.1.log }
    requires inside { place < pass.old.1.key.sizes.log }
    requires telling { MayTellFront told pass.old.1 }
    ensures { OnOk result (pass.new ≡ (words.now.0, at_front told (with_step pass.old.1 1) place)) }
{
    if load_log(words, pass, place, told) != 0 {
        return Err("the place is filled".into());
    }
    Ok(())
}

// A place that was seen is loaded again.
fn finds_again(words: &Words, pass: &mut Pass, place: u32, word: u64) -> Result<(), Fail>
    requires own { IsWordsPass words.now pass.old }
    requires seen { place < length pass.old.1.log }
    requires inside { place < pass.old.1.key.sizes.log }
    ensures { OnOk result (pass.new ≡ (words.now.0, again Nothing pass.old.1)) }
{
    if load_log(words, pass, place, Told::Nothing) != word {
        return Err("another word".into());
    }
    Ok(())
}

// The seat is pinned, having seen no place.
fn pins(words: &Words, pass: &mut Pass)
    requires own { IsWordsPass words.now pass.old }
    requires free { pass.old.1.pin ≡ 0 }
    requires none { length pass.old.1.log ≡ 0 }
    ensures { pass.new ≡ (words.now.0, pinned pass.old.1) }
{
    store_pin(words, pass, 1, Told::Nothing);
}

// The seat is unpinned, with no snapshot open.
fn unpins(words: &Words, pass: &mut Pass)
    requires own { IsWordsPass words.now pass.old }
    requires pinned { 0 < pass.old.1.pin }
    requires unopened { pass.old.1.snapshot ≡ None }
    ensures { pass.new ≡ (words.now.0, unpinned Nothing pass.old.1) }
{
    store_pin(words, pass, 0, Told::Nothing);
}
