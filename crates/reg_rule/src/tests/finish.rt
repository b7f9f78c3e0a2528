use super::{both, pair};
use crate::*;
use iscc_header::{Kind, MainType, Unit64};
use reg_model::{Carried, CloseWhy, Declared, Sizes};
use std::alloc::Global;
use std::test::Fail;

#[test]
fn a_round_ends_with_its_passes_in_any_order(rt: HostRuntime) -> Result<(), Fail> {
    let (words, first, second) = pair(rt.alloc())?;
    let passes = both(rt.alloc(), second, first)?;
    let Ok((closed, _seal)) = words.finish(rt.alloc(), passes) else {
        return Err("not ended".into());
    };
    assert_eq!(rt; closed.base, 5);
    assert!(rt; closed.log.as_slice().is_empty());
    assert_eq!(rt; closed.carried.base(), 5);
    assert!(rt; closed.carried.list().is_empty());
    Ok(())
}

#[test]
fn a_round_that_misses_a_pass_is_handed_back_and_ends_later(rt: HostRuntime) -> Result<(), Fail> {
    let (words, first, second) = pair(rt.alloc())?;
    let mut passes = Vec::new(rt.alloc());
    passes.push(second)?;
    let Err(refusal) = words.finish(rt.alloc(), passes) else {
        return Err("ended".into());
    };
    assert_eq!(rt; refusal.why, CloseWhy::Missing { number: 0 });
    let WordsRefusal {
        words,
        mut passes,
        why: _,
    } = refusal;
    assert_eq!(rt; passes.len(), 1);
    passes.push(first)?;
    assert!(rt; words.finish(rt.alloc(), passes).is_ok());
    Ok(())
}

// One declaration below the base.
fn one_carried(alloc: Global) -> Result<Carried, Fail> {
    let kind = Kind::of(MainType::Meta, 0).ok_or("no kind")?;
    let mut carried = Carried::new(alloc, 9);
    carried.push(Declared {
        id: 7,
        unit: Unit64 { kind, body: 1 },
    })?;
    Ok(carried)
}

#[test]
fn what_was_carried_and_not_withdrawn_is_carried_on(rt: HostRuntime) -> Result<(), Fail> {
    let sizes = Sizes::new(2, 64, 12, 1).ok_or("sizes")?;
    let carried = one_carried(rt.alloc())?;
    let (words, passes) = Words::start(rt.alloc(), &sizes, &carried)?;
    let Ok((closed, _seal)) = words.finish(rt.alloc(), passes) else {
        return Err("not ended".into());
    };
    assert_eq!(rt; closed.carried.base(), 9);
    assert_eq!(rt; closed.carried.list(), carried.list());
    Ok(())
}
