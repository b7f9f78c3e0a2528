// The sweep is held by one pass, and refused to another.
ghost use Rattle.std.specs.Prelude.{◌≡◌, IfOk, OnOk, None, Some};
ghost use Rattle.reg_rule.specs.Fresh.{fresh, unswept};
ghost use Rattle.reg_rule.specs.Moves.{seized, swept_to, holding_of};
ghost use Rattle.reg_rule.specs.Rounds.{IsWordsPass};
ghost use Rattle.reg_rule.specs.declared.told.Told.TheVariants.{Nothing};
ghost use Rattle.reg_rule.specs.inner.Trials.{two_callers};

use super::*;
use reg_model::{Carried, Sizes};
use reg_rule::{Told, store_sweep, swap_sweep};
use reg_words::SweepWord;
use std::alloc::Global;
use std::test::Fail;

const UNSWEPT: SweepWord = SweepWord {
    held: false,
    limbo: false,
    place: 0,
    mark: 0,
};

// A round of two callers, in which nothing is carried.
fn begins(alloc: Global) -> Result<(Words, Pass, Pass), Fail>
    ensures words { IfOk result (λ r. r.0.1 ≡ two_callers 1 8) }
    ensures first { IfOk result (λ r. r.1 ≡ (r.0.0, fresh (two_callers 1 8) 0 1)) }
    ensures second { IfOk result (λ r. r.2 ≡ (r.0.0, fresh (two_callers 1 8) 1 1)) }
{
    let sizes = Sizes::new(1, 8, 4, 2).ok_or("sizes")?;
    let (words, mut passes) = Words::start(alloc, &sizes, &Carried::new(alloc, 0))?;
    let Some(second) = passes.pop() else {
        return Err("no second pass".into());
    };
    let Some(first) = passes.pop() else {
        return Err("no first pass".into());
    };
    Ok((words, first, second))
}

// The sweep is taken, where none was before.
pub(super) fn takes_sweep(words: &Words, pass: &mut Pass) -> Result<(), Fail>
    requires own { IsWordsPass words.now pass.old }
    requires free { pass.old.1.holding ≡ None }
    requires last { pass.old.1.last_word ≡ UNSWEPT }
    ensures { OnOk result (pass.new ≡ (words.now.0, seized pass.old.1)) }
{
    let held = SweepWord {
        held: true,
        ..UNSWEPT
    };
    if UNSWEPT.pack() != 0 {
        return Err("another word".into());
    }
    if swap_sweep(words, pass, UNSWEPT.pack(), held.pack(), Told::Nothing) != 0 {
        return Err("the sweep isn't free".into());
    }
    Ok(())
}

// The sweep is given back as it was taken.
fn gives_back(words: &Words, pass: &mut Pass)
    requires own { IsWordsPass words.now pass.old }
    requires holding { pass.old.1.holding ≡ Some (holding_of UNSWEPT) }
    ensures { pass.new ≡ (words.now.0, swept_to Nothing pass.old.1 UNSWEPT) }
{
    store_sweep(words, pass, UNSWEPT.pack(), &UNSWEPT, Told::Nothing);
}

#[test]
fn a_held_sweep_is_refused(rt: HostRuntime) -> Result<(), Fail> {
    let (words, mut first, mut second) = begins(rt.alloc())?;
    takes_sweep(&words, &mut first)?;
    assert_eq!(rt; sweeps(&words, &mut second, 1), stays(Why::Held));
    gives_back(&words, &mut first);
    assert_eq!(rt; sweeps(&words, &mut second, 1), stays(Why::Front));
    assert_eq!(rt; second.last_sweep(), Some(stays(Why::Front)));
    Ok(())
}
