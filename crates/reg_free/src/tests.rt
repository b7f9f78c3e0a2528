// Calls of a desk, as replies with their points.
ghost use Rattle.std.specs.Prelude.{IfOk};
ghost use Rattle.reg_model.specs.Desks.{HasNoSnapshot};
ghost use Rattle.reg_rule.specs.Passes.{pass_view};
ghost use Rattle.reg_free.specs.Fit.{IsFit};

use super::*;
use iscc_header::{Kind, MainType, Unit64};
use reg_model::{Answer, Carried, Desk, FullCause, Reply, Sizes};
use reg_rule::Pass;
use std::alloc::Global;
use std::test::Fail;

mod carried;

fn meta(body: u64) -> Result<Unit64, Fail> {
    let kind = Kind::of(MainType::Meta, 0).ok_or("no kind")?;
    Ok(Unit64 { kind, body })
}

fn at(point: u64, reply: Reply) -> Answer {
    Answer { point, reply }
}

// A round of one caller, in which nothing is carried.
fn lone(alloc: Global, entries: u32, log: u32) -> Result<(FreeDesk, Pass), Fail>
    ensures { IfOk result (λ made. IsFit made.0 made.1 × HasNoSnapshot (pass_view made.1.1)) }
{
    let sizes = Sizes::new(entries, log, 12, 1).ok_or("sizes")?;
    let (desk, mut passes) = FreeDesk::start(alloc, &sizes, &Carried::new(alloc, 0))?;
    let Some(pass) = passes.pop() else {
        return Err("no pass".into());
    };
    Ok((desk, pass))
}

// A round of two callers.
fn pair(alloc: Global) -> Result<(FreeDesk, Pass, Pass), Fail>
    ensures first { IfOk result (λ made. IsFit made.0 made.1 × HasNoSnapshot (pass_view made.1.1)) }
    ensures second { IfOk result (λ made. IsFit made.0 made.2 × HasNoSnapshot (pass_view made.2.1)) }
{
    let sizes = Sizes::new(4, 64, 12, 2).ok_or("sizes")?;
    let (desk, mut passes) = FreeDesk::start(alloc, &sizes, &Carried::new(alloc, 0))?;
    let Some(second) = passes.pop() else {
        return Err("no second pass".into());
    };
    let Some(first) = passes.pop() else {
        return Err("no first pass".into());
    };
    Ok((desk, first, second))
}

#[test]
fn passes_taking_turns_see_one_log(rt: HostRuntime) -> Result<(), Fail> {
    let (desk, mut first, mut second) = pair(rt.alloc())?;
    assert_eq!(rt; first.number(), 0);
    assert_eq!(rt; second.number(), 1);
    let declared = desk.declare(&rt, &mut first, meta(0)?);
    assert_eq!(rt; declared, at(1, Reply::Id(0)));
    let counted = desk.count(&rt, &mut second);
    assert_eq!(rt; counted, at(1, Reply::Count(1)));
    let declared = desk.declare(&rt, &mut second, meta(0)?);
    assert_eq!(rt; declared, at(2, Reply::Id(1)));
    let reached = desk.after(&rt, &mut first, 2);
    assert_eq!(rt; reached, at(2, Reply::Reached));
    let withdrawn = desk.withdraw(&rt, &mut first, 1);
    assert_eq!(rt; withdrawn, at(3, Reply::Withdrawn(1)));
    let shown = desk.show(&rt, &mut second, 1);
    assert_eq!(rt; shown, at(3, Reply::Absent(1)));
    let hits = desk.near(&rt, rt.alloc(), &mut second, meta(1)?, 1)?;
    assert_eq!(rt; hits.point, 3);
    let Reply::Hits(hits) = hits.reply else {
        return Err("no hits".into());
    };
    assert_eq!(rt; hits.as_slice().len(), 1);
    Ok(())
}

#[test]
fn an_entry_is_given_back_for_the_next_declaration(rt: HostRuntime) -> Result<(), Fail> {
    let (desk, mut pass) = lone(rt.alloc(), 1, 4)?;
    let first = desk.declare(&rt, &mut pass, meta(0)?);
    assert_eq!(rt; first, at(1, Reply::Id(0)));
    let full = desk.declare(&rt, &mut pass, meta(1)?);
    assert_eq!(rt; full, at(1, Reply::Full(FullCause::Entries { given: 0 })));
    let withdrawn = desk.withdraw(&rt, &mut pass, 0);
    assert_eq!(rt; withdrawn, at(2, Reply::Withdrawn(0)));
    let again = desk.withdraw(&rt, &mut pass, 0);
    assert_eq!(rt; again, at(2, Reply::Absent(0)));
    let second = desk.declare(&rt, &mut pass, meta(1)?);
    assert_eq!(rt; second, at(3, Reply::Id(2)));
    let shown = desk.show(&rt, &mut pass, 2);
    assert_eq!(rt; shown, at(3, Reply::Live(meta(1)?)));
    let last = desk.withdraw(&rt, &mut pass, 2);
    assert_eq!(rt; last, at(4, Reply::Withdrawn(2)));
    let spent = desk.declare(&rt, &mut pass, meta(0)?);
    assert_eq!(rt; spent, at(4, Reply::Full(FullCause::Log)));
    let counted = desk.count(&rt, &mut pass);
    assert_eq!(rt; counted, at(4, Reply::Count(0)));
    Ok(())
}
