// Two passes take entries, declare in them, and complete what was declared.
ghost use Rattle.std.specs.Prelude.{◌≡◌, IfOk};
ghost use Rattle.reg_rule.specs.Fresh.{fresh};
ghost use Rattle.reg_rule.specs.inner.Trials.{two_callers};

use super::*;
use reg_model::{Carried, Sizes};
use reg_rule::{Pass, Words};
use std::alloc::Global;
use std::test::Fail;

mod declaring;
mod racing;
mod withdrawing;

// A round of two callers, in which nothing is carried.
fn begins(alloc: Global, entries: u32, log: u32) -> Result<(Words, Pass, Pass), Fail>
    ensures words { IfOk result (λ r. r.0.1 ≡ two_callers entries log) }
    ensures first { IfOk result (λ r. r.1 ≡ (r.0.0, fresh (two_callers entries log) 0 1)) }
    ensures second { IfOk result (λ r. r.2 ≡ (r.0.0, fresh (two_callers entries log) 1 1)) }
{
    let sizes = Sizes::new(entries, log, 4, 2).ok_or("sizes")?;
    let (words, mut passes) = Words::start(alloc, &sizes, &Carried::new(alloc, 0))?;
    let Some(second) = passes.pop() else {
        return Err("no second pass".into());
    };
    let Some(first) = passes.pop() else {
        return Err("no first pass".into());
    };
    Ok((words, first, second))
}

#[test]
fn the_only_entry_is_taken_once(rt: HostRuntime) -> Result<(), Fail> {
    let (words, mut first, mut second) = begins(rt.alloc(), 1, 64)?;
    assert_eq!(rt; take(&words, &mut first), Ok(0));
    assert_eq!(rt; take(&words, &mut second), Err(Empty { taken: 1 }));
    assert_eq!(rt; first.hand(), Some(0));
    assert_eq!(rt; second.hand(), None);
    Ok(())
}
