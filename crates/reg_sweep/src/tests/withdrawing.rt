// What is withdrawn is given back, once no pin is in the way.
ghost use Rattle.std.specs.Prelude.{◌≡◌, ◌<◌, [], None, IfOk, OnOk};
ghost use Rattle.reg_rule.specs.Fresh.{fresh};
ghost use Rattle.reg_rule.specs.Rounds.{IsWordsPass};
ghost use Rattle.reg_commit.specs.inner.Trials.{Knows, seven};
ghost use Rattle.reg_sweep.specs.inner.Trials.{one_entry, found_live, IsFree, HasWithdrawn};

use super::*;
use iscc_header::{Kind, Unit64};
use reg_commit::{Empty, commit, front, help, pin, take, unpin};
use reg_model::{Carried, Declared, Sizes, Update};
use reg_rule::{Told, load_stamp};
use std::alloc::Global;
use std::test::Fail;

// The id 7, below the base 9.
fn one_carried(alloc: Global) -> Result<Carried, Fail>
    ensures { IfOk result (λ carried. carried ≡ seven) }
{
    let unit = Unit64 {
        kind: Kind::new(0).ok_or("no kind")?,
        body: 1,
    };
    let mut carried = Carried::new(alloc, 9);
    carried.push(Declared { id: 7, unit })?;
    Ok(carried)
}

// A round of two callers and one entry, in which the id is carried.
pub(super) fn carries(alloc: Global) -> Result<(Words, Pass, Pass), Fail>
    ensures words { IfOk result (λ r. r.0.1 ≡ one_entry) }
    ensures first { IfOk result (λ r. r.1 ≡ (r.0.0, fresh one_entry 0 1)) }
    ensures second { IfOk result (λ r. r.2 ≡ (r.0.0, fresh one_entry 1 1)) }
{
    let sizes = Sizes::new(1, 4, 4, 2).ok_or("sizes")?;
    let (words, mut passes) = Words::start(alloc, &sizes, &one_carried(alloc)?)?;
    let Some(second) = passes.pop() else {
        return Err("no second pass".into());
    };
    let Some(first) = passes.pop() else {
        return Err("no first pass".into());
    };
    Ok((words, first, second))
}

// The pass is pinned, and finds the id live at the front 0.
fn finds_live(words: &Words, pass: &mut Pass) -> Result<(), Fail>
    requires words { words.now.1 ≡ one_entry }
    requires new { pass.old ≡ (words.now.0, fresh one_entry 0 1) }
    ensures { OnOk result (Knows words.now pass.new found_live) }
{
    pin(words, pass);
    if front(words, pass, Told::Nothing) != 0 {
        return Err("another front".into());
    }
    if load_stamp(words, pass, 0, Told::Nothing) != 4_294_967_296 {
        return Err("another stamp".into());
    }
    Ok(())
}

// The pass withdraws the id at the place 0, completes the place, and stays pinned.
fn withdraws(words: &Words, pass: &mut Pass) -> Result<(), Fail>
    requires words { words.now.1 ≡ one_entry }
    requires new { pass.old ≡ (words.now.0, fresh one_entry 0 1) }
    ensures own { OnOk result (IsWordsPass words.now pass.new) }
    ensures pinned { OnOk result (0 < pass.new.1.pin) }
    ensures free { OnOk result (IsFree pass.new.1) }
    ensures withdrew { OnOk result (HasWithdrawn pass.new.1) }
{
    finds_live(words, pass)?;
    if commit(words, pass, 0, &Update::Wd(7), 0).is_err() {
        return Err("the place is filled".into());
    }
    help(words, pass, 0);
    Ok(())
}

// The pass withdraws the id, and is unpinned.
pub(super) fn buries(words: &Words, pass: &mut Pass) -> Result<(), Fail>
    requires words { words.now.1 ≡ one_entry }
    requires new { pass.old ≡ (words.now.0, fresh one_entry 0 1) }
    ensures own { OnOk result (IsWordsPass words.now pass.new) }
    ensures withdrew { OnOk result (HasWithdrawn pass.new.1) }
{
    withdraws(words, pass)?;
    unpin(words, pass);
    Ok(())
}

#[test]
fn an_entry_waits_for_the_pin_of_the_sweeper(rt: HostRuntime) -> Result<(), Fail> {
    let (words, mut first, _second) = carries(rt.alloc())?;
    withdraws(&words, &mut first)?;
    assert_eq!(rt;
        sweeps(&words, &mut first, 16),
        stays(Why::Pinned { seat: 0, pin: 1 })
    );
    unpin(&words, &mut first);
    assert_eq!(rt; take(&words, &mut first), Err(Empty { taken: 0 }));
    assert_eq!(rt; sweeps(&words, &mut first, 16), gives(Why::Front));
    assert_eq!(rt; first.last_sweep(), Some(gives(Why::Front)));
    assert_eq!(rt; sweeps(&words, &mut first, 16), stays(Why::Front));
    assert_eq!(rt; first.last_sweep(), Some(stays(Why::Front)));
    assert_eq!(rt; first.sweeps(), 3);
    assert_eq!(rt; take(&words, &mut first), Ok(0));
    Ok(())
}

#[test]
fn an_entry_waits_for_the_pin_of_another(rt: HostRuntime) -> Result<(), Fail> {
    let (words, mut first, mut second) = carries(rt.alloc())?;
    pin(&words, &mut second);
    withdraws(&words, &mut first)?;
    unpin(&words, &mut first);
    assert_eq!(rt;
        sweeps(&words, &mut first, 1),
        stays(Why::Pinned { seat: 1, pin: 1 })
    );
    unpin(&words, &mut second);
    assert_eq!(rt; sweeps(&words, &mut first, 1), gives(Why::Limit));
    assert_eq!(rt; sweeps(&words, &mut second, 1), stays(Why::Front));
    Ok(())
}
