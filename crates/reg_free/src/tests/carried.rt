// A lone caller asks of what is carried into its round.
ghost use Rattle.std.specs.Prelude.{◌≡◌, All, IfOk, map};
ghost use Rattle.reg_model.specs.Desks.{HasNoSnapshot};
ghost use Rattle.reg_rule.specs.Passes.{pass_view};
ghost use Rattle.reg_free.specs.Fit.{IsFit};

use super::at;
use crate::FreeDesk;
use iscc_header::{Kind, Unit64};
use reg_model::{
    Carried, CloseRefusal, CloseWhy, Closed, Declared, Desk, Hit, Hits, Reply, Sizes, StartFault,
};
use reg_rule::Pass;
use std::alloc::Global;
use std::sync::Wait;
use std::test::Fail;

const BODY: u64 = 0x0123_4567_89ab_cdef;

fn unit(kind: u8, body: u64) -> Result<Unit64, Fail> {
    let kind = Kind::new(kind).ok_or("no kind")?;
    Ok(Unit64 { kind, body })
}

fn declared(id: u64, kind: u8, body: u64) -> Result<Declared, Fail>
    ensures { IfOk result (λ declared. declared.id ≡ id) }
{
    Ok(Declared {
        id,
        unit: unit(kind, body)?,
    })
}

// Bodies near each other and far, of two kinds.
fn mixed(alloc: Global) -> Result<Carried, Fail> {
    let mut carried = Carried::new(alloc, 20);
    carried.push(declared(3, 12, BODY)?)?;
    carried.push(declared(5, 12, BODY ^ 1)?)?;
    carried.push(declared(7, 0, BODY)?)?;
    carried.push(declared(8, 12, !BODY)?)?;
    carried.push(declared(9, 12, BODY)?)?;
    Ok(carried)
}

// A round of one caller.
fn lone(alloc: Global, carried: &Carried) -> Result<(FreeDesk, Pass), Fail>
    ensures { IfOk result (λ made. IsFit made.0 made.1 × HasNoSnapshot (pass_view made.1.1)) }
{
    let sizes = Sizes::new(8, 64, 4, 1).ok_or("sizes")?;
    let (desk, mut passes) = FreeDesk::start(alloc, &sizes, carried)?;
    if passes.is_empty() {
        return Err("no pass".into());
    }
    Ok((desk, passes.remove(0)))
}

#[test]
fn what_is_carried_is_counted_and_shown(rt: HostRuntime) -> Result<(), Fail> {
    let (desk, mut pass) = lone(rt.alloc(), &mixed(rt.alloc())?)?;
    let counted = desk.count(&rt, &mut pass);
    assert_eq!(rt; counted, at(20, Reply::Count(5)));
    let first = desk.show(&rt, &mut pass, 3);
    assert_eq!(rt; first, at(20, Reply::Live(unit(12, BODY)?)));
    let other = desk.show(&rt, &mut pass, 7);
    assert_eq!(rt; other, at(20, Reply::Live(unit(0, BODY)?)));
    let below = desk.show(&rt, &mut pass, 4);
    assert_eq!(rt; below, at(20, Reply::Absent(4)));
    let above = desk.show(&rt, &mut pass, 20);
    assert_eq!(rt; above, at(20, Reply::Absent(20)));
    // No call leaves its snapshot open.
    assert_eq!(rt; pass.snapshot(), None);
    assert_eq!(rt; pass.pin(), 0);
    Ok(())
}

#[test]
fn a_point_is_reached_or_ahead(rt: HostRuntime) -> Result<(), Fail> {
    let (desk, mut pass) = lone(rt.alloc(), &mixed(rt.alloc())?)?;
    let before = desk.after(&rt, &mut pass, 0);
    assert_eq!(rt; before, at(20, Reply::Reached));
    let here = desk.after(&rt, &mut pass, 20);
    assert_eq!(rt; here, at(20, Reply::Reached));
    let next = desk.after(&rt, &mut pass, 21);
    assert_eq!(rt; next, at(20, Reply::Ahead));
    Ok(())
}

#[test]
fn hits_are_told_with_their_point(rt: HostRuntime) -> Result<(), Fail> {
    let (desk, mut pass) = lone(rt.alloc(), &mixed(rt.alloc())?)?;
    let mut want = Hits::new(rt.alloc());
    want.push(Hit {
        id: 5,
        body: BODY ^ 1,
        distance: 1,
    })?;
    want.push(Hit {
        id: 3,
        body: BODY,
        distance: 0,
    })?;
    want.push(Hit {
        id: 9,
        body: BODY,
        distance: 0,
    })?;
    let near = desk.near(&rt, rt.alloc(), &mut pass, unit(12, BODY)?, 1)?;
    assert_eq!(rt; near, at(20, Reply::Hits(want)));
    let none = desk.near(&rt, rt.alloc(), &mut pass, unit(0, !BODY)?, 15)?;
    assert_eq!(rt; none, at(20, Reply::Hits(Hits::new(rt.alloc()))));
    assert_eq!(rt; pass.snapshot(), None);
    assert_eq!(rt; pass.pin(), 0);
    Ok(())
}

// The round doesn't end without its pass, and ends with it.
fn ends(alloc: Global, desk: FreeDesk, pass: Pass) -> Result<Closed, Fail>
    requires { IsFit desk pass × HasNoSnapshot (pass_view pass.1) }
{
    let Err(
        CloseRefusal {
            desk,
            mut passes,
            why,
        },
    ) = desk.close(alloc, Vec::new(alloc))
    else {
        return Err("closed without its pass".into());
    };
    if why != (CloseWhy::Missing { number: 0 }) {
        return Err("another pass is missing".into());
    }
    passes.push(pass)?;
    match desk.close(alloc, passes) {
        Ok((closed, _seal)) => Ok(closed),
        Err(_) => Err("not closed".into()),
    }
}

#[test]
fn a_round_without_updates_leaves_what_it_began_with(rt: HostRuntime) -> Result<(), Fail> {
    let carried = mixed(rt.alloc())?;
    let (desk, mut pass) = lone(rt.alloc(), &carried)?;
    let _ = desk.count(&rt, &mut pass);
    let closed = ends(rt.alloc(), desk, pass)?;
    assert_eq!(rt; closed.base, 20);
    assert_eq!(rt; closed.log.as_slice().len(), 0);
    assert_eq!(rt; closed.carried.base(), 20);
    assert_eq!(rt; closed.carried.list(), carried.list());
    Ok(())
}

// The point of a desk's answers to one question of each kind, over any desk.
fn each_question<D: Desk, R: Wait>(
    rt: &R,
    alloc: Global,
    desk: &D,
    pass: &mut D::Pass,
    unit: Unit64,
) -> Result<u64, Fail>
    requires { D.fit desk.now pass.old × HasNoSnapshot (D.pass_view pass.old) }
{
    let _ = desk.show(rt, pass, 3);
    let _ = desk.near(rt, alloc, pass, unit, 0)?;
    let _ = desk.after(rt, pass, 1);
    Ok(desk.count(rt, pass).point)
}

#[test]
fn each_question_is_answered_over_the_trait(rt: HostRuntime) -> Result<(), Fail> {
    let (desk, mut pass) = lone(rt.alloc(), &mixed(rt.alloc())?)?;
    let point = each_question(&rt, rt.alloc(), &desk, &mut pass, unit(12, BODY)?)?;
    assert_eq!(rt; point, 20);
    Ok(())
}

// A round that begins, over any desk.
fn begun<D: Desk>(
    alloc: Global,
    sizes: &Sizes,
    carried: &Carried,
) -> Result<(D, Vec<D::Pass>), StartFault>
    ensures fit { IfOk result (λ made. All (D.fit made.0) made.1.items) }
    ensures ended { IfOk result (λ made. All HasNoSnapshot (map D.pass_view made.1.items)) }
{
    D::start(alloc, sizes, carried)
}

// What it leaves.
fn finished<D: Desk>(alloc: Global, desk: D, passes: Vec<D::Pass>) -> Result<Closed, Fail>
    requires fit { All (D.fit desk) passes.items }
    requires ended { All HasNoSnapshot (map D.pass_view passes.items) }
{
    match desk.close(alloc, passes) {
        Ok((closed, _seal)) => Ok(closed),
        Err(_) => Err("not closed".into()),
    }
}

#[test]
fn a_round_begins_and_ends_over_the_trait(rt: HostRuntime) -> Result<(), Fail> {
    let sizes = Sizes::new(4, 64, 12, 16).ok_or("sizes")?;
    let (desk, passes) = begun::<FreeDesk>(rt.alloc(), &sizes, &Carried::new(rt.alloc(), 9))?;
    assert_eq!(rt; passes.len(), 16);
    let closed = finished(rt.alloc(), desk, passes)?;
    assert_eq!(rt; closed.base, 9);
    assert_eq!(rt; closed.carried.base(), 9);
    Ok(())
}

#[test]
fn a_round_needs_room_for_what_is_carried(rt: HostRuntime) -> Result<(), Fail> {
    let sizes = Sizes::new(4, 64, 12, 1).ok_or("sizes")?;
    let Err(fault) = FreeDesk::start(rt.alloc(), &sizes, &mixed(rt.alloc())?) else {
        return Err("started".into());
    };
    assert_eq!(rt;
        fault,
        StartFault::TooSmall {
            live: 5,
            entries: 4
        }
    );
    Ok(())
}
