// Two passes withdraw one id: one of them is too late, and is shown that it is dead.
ghost use Rattle.std.specs.Prelude.{◌≡◌, ◌<◌, None, IfOk, OnOk};
ghost use Rattle.reg_model.specs.declared.update.Update.TheVariants.{Wd};
ghost use Rattle.reg_rule.specs.declared.view.Place.{Place as APlace};
ghost use Rattle.reg_rule.specs.Fresh.{fresh};
ghost use Rattle.reg_rule.specs.Conditions.{MayCommit};
ghost use Rattle.reg_rule.specs.Moves.{passed};
ghost use Rattle.reg_rule.specs.Rounds.{IsWordsPass, IsAtRest};
ghost use Rattle.reg_commit.specs.inner.Trials.{Knows, seven, carrying, found_live};

use super::declaring::{ends_round, finds, meta};
use super::*;
use iscc_header::Unit64;
use reg_model::{Declared, Update};
use reg_rule::{Told, load_stamp};

// The id 7, below the base 9.
fn one_carried(alloc: Global) -> Result<Carried, Fail>
    ensures { IfOk result (λ carried. carried ≡ seven) }
{
    let unit = Unit64 {
        kind: meta()?,
        body: 1,
    };
    let mut carried = Carried::new(alloc, 9);
    carried.push(Declared { id: 7, unit })?;
    Ok(carried)
}

// A round of two callers, into which the id is carried.
fn carries(alloc: Global) -> Result<(Words, Pass, Pass), Fail>
    ensures words { IfOk result (λ r. r.0.1 ≡ carrying) }
    ensures first { IfOk result (λ r. r.1 ≡ (r.0.0, fresh carrying 0 1)) }
    ensures second { IfOk result (λ r. r.2 ≡ (r.0.0, fresh carrying 1 1)) }
{
    let sizes = Sizes::new(4, 4, 4, 2).ok_or("sizes")?;
    let (words, mut passes) = Words::start(alloc, &sizes, &one_carried(alloc)?)?;
    let Some(second) = passes.pop() else {
        return Err("no second pass".into());
    };
    let Some(first) = passes.pop() else {
        return Err("no first pass".into());
    };
    Ok((words, first, second))
}

// The pass is pinned, and finds the id live at the front 0.
fn finds_live(words: &Words, pass: &mut Pass, seat: u32) -> Result<(), Fail>
    requires words { words.now.1 ≡ carrying }
    requires seat { seat < 2 }
    requires new { pass.old ≡ (words.now.0, fresh carrying seat 1) }
    ensures { OnOk result (Knows words.now pass.new (found_live seat)) }
{
    pin(words, pass);
    finds(words, pass, 0)?;
    if load_stamp(words, pass, 0, Told::Nothing) != 4_294_967_296 {
        return Err("another stamp".into());
    }
    Ok(())
}

// The first pass withdraws it, completes its place, and is unpinned.
fn withdraws(words: &Words, pass: &mut Pass) -> Result<(), Fail>
    requires words { words.now.1 ≡ carrying }
    requires live { Knows words.now pass.old (found_live 0) }
    ensures { OnOk result (IsWordsPass words.now pass.new × IsAtRest pass.new.1) }
{
    if commit(words, pass, 0, &Update::Wd(7), 0).is_err() {
        return Err("the place is filled".into());
    }
    help(words, pass, 0);
    unpin(words, pass);
    Ok(())
}

// The second pass is too late: the place has the word of a withdrawal of the id 7 in entry 0.
fn is_too_late(words: &Words, pass: &mut Pass) -> Result<(), Fail>
    requires words { words.now.1 ≡ carrying }
    requires live { Knows words.now pass.old (found_live 1) }
    ensures { OnOk result ((q : APlace) × Knows words.now pass.new (passed (found_live 1) 2 q)) }
{
    let Err(lost) = commit(words, pass, 0, &Update::Wd(7), 0) else {
        return Err("the place was empty".into());
    };
    if lost.found != 469_762_050 {
        return Err("another word".into());
    }
    Ok(())
}

// At the front 1 the stamp says that the id is dead since place 0, and so it may not be withdrawn again.
fn finds_dead(words: &Words, pass: &mut Pass) -> Result<(), Fail>
    requires words { words.now.1 ≡ carrying }
    requires late { (q : APlace) × Knows words.now pass.old (passed (found_live 1) 2 q) }
    ensures own { OnOk result (IsWordsPass words.now pass.new) }
    ensures pinned { OnOk result (0 < pass.new.1.pin) }
    ensures free { OnOk result ((pass.new.1.snapshot ≡ None) × (pass.new.1.holding ≡ None)) }
    ensures refused { OnOk result (MayCommit pass.new.1 (Wd 7) 0 → ⊥) }
{
    finds(words, pass, 1)?;
    help(words, pass, 0);
    if load_stamp(words, pass, 0, Told::Nothing) != 4_294_967_297 {
        return Err("another stamp".into());
    }
    Ok(())
}

#[test]
fn an_id_is_withdrawn_once(rt: HostRuntime) -> Result<(), Fail> {
    let (words, mut first, mut second) = carries(rt.alloc())?;
    finds_live(&words, &mut first, 0)?;
    finds_live(&words, &mut second, 1)?;
    withdraws(&words, &mut first)?;
    is_too_late(&words, &mut second)?;
    finds_dead(&words, &mut second)?;
    unpin(&words, &mut second);
    let closed = ends_round(rt.alloc(), words, first, second)?;
    assert_eq!(rt; closed.log.as_slice(), [Update::Wd(7)].as_slice());
    assert!(rt; closed.carried.list().is_empty());
    Ok(())
}
