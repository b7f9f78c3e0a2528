ghost use Rattle.std.specs.Prelude.{◌≡◌, All, IfOk, map};
ghost use Rattle.reg_model.specs.Desks.{HasNoSnapshot};
ghost use Rattle.reg_turn.specs.Turns.{IsPassOf};

use super::*;
use iscc_header::{Kind, MainType, Unit64};
use reg_model::{
    Answer, Carried, CloseRefusal, CloseWhy, Closed, Declared, Desk, FullCause, Reply, Sizes,
    StartFault, Update,
};
use std::alloc::Global;
use std::sync::Wait;
use std::test::Fail;

fn meta(body: u64) -> Result<Unit64, Fail> {
    let kind = Kind::of(MainType::Meta, 0).ok_or("no kind")?;
    Ok(Unit64 { kind, body })
}

fn at(point: u64, reply: Reply) -> Answer {
    Answer { point, reply }
}

// A round of one caller, in which nothing is carried.
fn lone(alloc: Global, entries: u32, log: u32) -> Result<(TurnDesk, TurnPass), Fail>
    ensures { IfOk result (λ made. IsPassOf made.0 made.1 × HasNoSnapshot made.1.pass) }
{
    let sizes = Sizes::new(entries, log, 12, 1).ok_or("sizes")?;
    let (desk, mut passes) = TurnDesk::start(alloc, &sizes, &Carried::new(alloc, 0))?;
    let Some(pass) = passes.pop() else {
        return Err("no pass".into());
    };
    Ok((desk, pass))
}

// A round of two callers.
fn pair(alloc: Global) -> Result<(TurnDesk, TurnPass, TurnPass), Fail>
    ensures first { IfOk result (λ made. IsPassOf made.0 made.1 × HasNoSnapshot made.1.pass) }
    ensures second { IfOk result (λ made. IsPassOf made.0 made.2 × HasNoSnapshot made.2.pass) }
{
    let sizes = Sizes::new(4, 64, 12, 2).ok_or("sizes")?;
    let (desk, mut passes) = TurnDesk::start(alloc, &sizes, &Carried::new(alloc, 0))?;
    let Some(second) = passes.pop() else {
        return Err("no second pass".into());
    };
    let Some(first) = passes.pop() else {
        return Err("no first pass".into());
    };
    Ok((desk, first, second))
}

#[test]
fn passes_taking_turns_see_one_log(rt: HostRuntime) -> Result<(), Fail> {
    let (desk, mut first, mut second) = pair(rt.alloc())?;
    assert_eq!(rt; first.number(), 0);
    assert_eq!(rt; second.number(), 1);
    let declared = desk.declare(&rt, &mut first, meta(0)?);
    assert_eq!(rt; declared, at(1, Reply::Id(0)));
    let counted = desk.count(&rt, &mut second);
    assert_eq!(rt; counted, at(1, Reply::Count(1)));
    let declared = desk.declare(&rt, &mut second, meta(0)?);
    assert_eq!(rt; declared, at(2, Reply::Id(1)));
    let reached = desk.after(&rt, &mut first, 2);
    assert_eq!(rt; reached, at(2, Reply::Reached));
    let withdrawn = desk.withdraw(&rt, &mut first, 1);
    assert_eq!(rt; withdrawn, at(3, Reply::Withdrawn(1)));
    let shown = desk.show(&rt, &mut second, 1);
    assert_eq!(rt; shown, at(3, Reply::Absent(1)));
    let hits = desk.near(&rt, rt.alloc(), &mut second, meta(1)?, 1)?;
    assert_eq!(rt; hits.point, 3);
    let Reply::Hits(hits) = hits.reply else {
        return Err("no hits".into());
    };
    assert_eq!(rt; hits.as_slice().len(), 1);
    Ok(())
}

// The round ends with both passes, and not with the first that is given alone.
fn ends(
    alloc: Global,
    desk: TurnDesk,
    given: TurnPass,
    kept: TurnPass,
    number: u32,
) -> Result<Closed, Fail>
    requires given { IsPassOf desk given × HasNoSnapshot given.pass }
    requires kept { IsPassOf desk kept × HasNoSnapshot kept.pass }
{
    let mut passes = Vec::new(alloc);
    passes.push(given)?;
    let Err(
        CloseRefusal {
            desk,
            mut passes,
            why,
        },
    ) = desk.close(alloc, passes)
    else {
        return Err("closed with one pass of two".into());
    };
    if why != (CloseWhy::Missing { number }) {
        return Err("another pass is missing".into());
    }
    passes.push(kept)?;
    match desk.close(alloc, passes) {
        Ok((closed, _seal)) => Ok(closed),
        Err(_) => Err("not closed".into()),
    }
}

#[test]
fn a_round_ends_with_all_its_passes_in_any_order(rt: HostRuntime) -> Result<(), Fail> {
    let (desk, first, mut second) = pair(rt.alloc())?;
    let _ = desk.declare(&rt, &mut second, meta(7)?);
    let closed = ends(rt.alloc(), desk, first, second, 1)?;
    assert_eq!(rt; closed.base, 0);
    assert_eq!(rt; closed.log.as_slice(), [Update::Decl(meta(7)?)].as_slice());
    assert_eq!(rt; closed.carried.base(), 1);
    let carried = [Declared {
        id: 0,
        unit: meta(7)?,
    }];
    assert_eq!(rt; closed.carried.list(), carried.as_slice());

    let (desk, first, second) = pair(rt.alloc())?;
    let closed = ends(rt.alloc(), desk, second, first, 0)?;
    assert_eq!(rt; closed.log.as_slice().len(), 0);
    Ok(())
}

#[test]
fn a_round_needs_room_for_what_is_carried(rt: HostRuntime) -> Result<(), Fail> {
    let mut carried = Carried::new(rt.alloc(), 3);
    carried.push(Declared {
        id: 0,
        unit: meta(0)?,
    })?;
    carried.push(Declared {
        id: 1,
        unit: meta(0)?,
    })?;
    carried.push(Declared {
        id: 2,
        unit: meta(0)?,
    })?;
    let sizes = Sizes::new(2, 64, 12, 1).ok_or("sizes")?;
    let Err(fault) = TurnDesk::start(rt.alloc(), &sizes, &carried) else {
        return Err("started".into());
    };
    assert_eq!(rt;
        fault,
        StartFault::TooSmall {
            live: 3,
            entries: 2
        }
    );
    Ok(())
}

#[test]
fn a_full_log_is_told_before_full_entries(rt: HostRuntime) -> Result<(), Fail> {
    let (desk, mut pass) = lone(rt.alloc(), 1, 2)?;
    let _ = desk.declare(&rt, &mut pass, meta(0)?);
    let full = desk.declare(&rt, &mut pass, meta(1)?);
    assert_eq!(rt; full, at(1, Reply::Full(FullCause::Entries { given: 0 })));
    let _ = desk.withdraw(&rt, &mut pass, 0);
    let full = desk.declare(&rt, &mut pass, meta(1)?);
    assert_eq!(rt; full, at(2, Reply::Full(FullCause::Log)));
    Ok(())
}

// The point that a desk has come to after one call of each kind, over any desk.
fn each_call<D: Desk, R: Wait>(
    rt: &R,
    alloc: Global,
    desk: &D,
    pass: &mut D::Pass,
    unit: Unit64,
) -> Result<u64, Fail>
    requires { D.fit desk.now pass.old × HasNoSnapshot (D.pass_view pass.old) }
{
    let again = unit;
    let _ = desk.declare(rt, pass, unit);
    let _ = desk.show(rt, pass, 0);
    let _ = desk.near(rt, alloc, pass, again, 0)?;
    let _ = desk.after(rt, pass, 1);
    let _ = desk.withdraw(rt, pass, 0);
    Ok(desk.count(rt, pass).point)
}

// A round that begins, over any desk.
fn begun<D: Desk>(
    alloc: Global,
    sizes: &Sizes,
    carried: &Carried,
) -> Result<(D, Vec<D::Pass>), StartFault>
    ensures fit { IfOk result (λ made. All (D.fit made.0) made.1.items) }
    ensures ended { IfOk result (λ made. All HasNoSnapshot (map D.pass_view made.1.items)) }
{
    D::start(alloc, sizes, carried)
}

// What it leaves.
fn finished<D: Desk>(alloc: Global, desk: D, passes: Vec<D::Pass>) -> Result<Closed, Fail>
    requires fit { All (D.fit desk) passes.items }
    requires ended { All HasNoSnapshot (map D.pass_view passes.items) }
{
    match desk.close(alloc, passes) {
        Ok((closed, _seal)) => Ok(closed),
        Err(_) => Err("not closed".into()),
    }
}

#[test]
fn a_round_begins_and_ends_over_the_trait(rt: HostRuntime) -> Result<(), Fail> {
    let sizes = Sizes::new(4, 64, 12, 16).ok_or("sizes")?;
    let (desk, passes) = begun::<TurnDesk>(rt.alloc(), &sizes, &Carried::new(rt.alloc(), 9))?;
    assert_eq!(rt; passes.len(), 16);
    let closed = finished(rt.alloc(), desk, passes)?;
    assert_eq!(rt; closed.base, 9);
    assert_eq!(rt; closed.carried.base(), 9);
    Ok(())
}

#[test]
fn each_call_serves_over_the_trait(rt: HostRuntime) -> Result<(), Fail> {
    let (desk, mut pass) = lone(rt.alloc(), 4, 64)?;
    let point = each_call(&rt, rt.alloc(), &desk, &mut pass, meta(5)?)?;
    assert_eq!(rt; point, 2);
    Ok(())
}
