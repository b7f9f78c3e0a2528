// What is carried into a round is live at its first snapshot: queries of it.
ghost use Rattle.std.specs.Prelude.{◌≡◌, ◌≤◌, IfOk};
ghost use Rattle.reg_model.specs.declared.TheConstants.{RADIUS_MOST};
ghost use Rattle.reg_rule.specs.Fresh.{fresh};

use super::*;
use iscc_header::{Kind, Unit64};
use reg_model::{Carried, Declared, Hit, Hits, Sizes};
use reg_rule::{Pass, Told, Words};
use std::alloc::Global;
use std::test::Fail;

const BODY: u64 = 0x0123_4567_89ab_cdef;

fn unit(kind: u8, body: u64) -> Result<Unit64, Fail> {
    let kind = Kind::new(kind).ok_or("no kind")?;
    Ok(Unit64 { kind, body })
}

fn declared(id: u64, kind: u8, body: u64) -> Result<Declared, Fail>
    ensures { IfOk result (λ declared. declared.id ≡ id) }
{
    Ok(Declared {
        id,
        unit: unit(kind, body)?,
    })
}

// Bodies near each other and far, of two kinds.
fn mixed(alloc: Global) -> Result<Carried, Fail> {
    let mut carried = Carried::new(alloc, 20);
    carried.push(declared(3, 12, BODY)?)?;
    carried.push(declared(5, 12, BODY ^ 1)?)?;
    carried.push(declared(7, 0, BODY)?)?;
    carried.push(declared(8, 12, !BODY)?)?;
    carried.push(declared(9, 12, BODY)?)?;
    Ok(carried)
}

// A round of one caller, and its pass.
fn lone(alloc: Global, carried: &Carried) -> Result<(Words, Pass), Fail>
    ensures { IfOk result (λ made. made.1 ≡ (made.0.0, fresh made.0.1 0 1)) }
{
    let sizes = Sizes::new(8, 64, 4, 1).ok_or("sizes")?;
    let (words, mut passes) = Words::start(alloc, &sizes, carried)?;
    if passes.is_empty() {
        return Err("no pass".into());
    }
    Ok((words, passes.remove(0)))
}

// The answer to a query of this unit at a snapshot of what is carried.
fn asked(alloc: Global, carried: &Carried, unit: Unit64, radius: u32) -> Result<NearAnswer, Fail>
    requires { radius ≤ RADIUS_MOST }
{
    let (words, mut pass) = lone(alloc, carried)?;
    let _ = begin(&words, &mut pass);
    Ok(near_at(&words, &mut pass, alloc, unit, radius)?)
}

#[test]
fn hits_are_near_and_of_the_kind_by_body_and_id(rt: HostRuntime) -> Result<(), Fail> {
    let answer = asked(rt.alloc(), &mixed(rt.alloc())?, unit(12, BODY)?, 3)?;
    let mut want = Hits::new(rt.alloc());
    want.push(Hit {
        id: 5,
        body: BODY ^ 1,
        distance: 1,
    })?;
    want.push(Hit {
        id: 3,
        body: BODY,
        distance: 0,
    })?;
    want.push(Hit {
        id: 9,
        body: BODY,
        distance: 0,
    })?;
    assert_eq!(rt; answer.hits, want);
    // Each bucket of the body has three entries of the kind, looked at twice, and one of another kind; in the last table
    // the other body of the kind has a bucket of its own.
    assert_eq!(rt; answer.looked, 7 + 7 + 7 + 5);
    Ok(())
}

#[test]
fn an_entry_of_four_buckets_is_listed_once(rt: HostRuntime) -> Result<(), Fail> {
    let mut carried = Carried::new(rt.alloc(), 9);
    carried.push(declared(4, 0, BODY)?)?;
    let mut want = Hits::new(rt.alloc());
    want.push(Hit {
        id: 4,
        body: BODY,
        distance: 0,
    })?;
    let first = asked(rt.alloc(), &carried, unit(0, BODY)?, 0)?;
    assert_eq!(rt; first.hits, want);
    assert_eq!(rt; first.looked, 2);
    let four = asked(rt.alloc(), &carried, unit(0, BODY)?, 3)?;
    assert_eq!(rt; four.hits, want);
    assert_eq!(rt; four.looked, 8);
    Ok(())
}

#[test]
fn a_snapshot_closes_and_opens_again(rt: HostRuntime) -> Result<(), Fail> {
    let (words, mut pass) = lone(rt.alloc(), &mixed(rt.alloc())?)?;
    assert_eq!(rt; begin(&words, &mut pass), 20);
    assert_eq!(rt; pass.snapshot(), Some(20));
    end(&words, &mut pass);
    assert_eq!(rt; pass.snapshot(), None);
    assert_eq!(rt; pass.pin(), 0);
    assert_eq!(rt; begin(&words, &mut pass), 20);
    Ok(())
}

#[test]
fn an_id_is_shown_as_it_was_at_the_snapshot(rt: HostRuntime) -> Result<(), Fail> {
    let (words, mut pass) = lone(rt.alloc(), &mixed(rt.alloc())?)?;
    let _ = begin(&words, &mut pass);
    let first = show_at(&words, &mut pass, 7, Told::Nothing);
    assert_eq!(rt; first, Some(unit(0, BODY)?));
    let last = show_at(&words, &mut pass, 9, Told::Nothing);
    assert_eq!(rt; last, Some(unit(12, BODY)?));
    let below = show_at(&words, &mut pass, 4, Told::Nothing);
    assert_eq!(rt; below, None);
    let above = show_at(&words, &mut pass, 20, Told::Nothing);
    assert_eq!(rt; above, None);
    Ok(())
}
